//! A chunked array.

ghost use Rattle.serde_json.specs.View.{view};
ghost use Rattle.vx_json.specs.Refused.{IsRead};
ghost use Rattle.vx_json.specs.SpelledNodes.Chunked.{chunked_spelled};

use crate::BAD_VALUE;
use crate::fields::check_keys;
use crate::types::column_type_at;
use serde_json::Value;
use std::alloc::Global;
use vx_tree::{ArrayRef, ChunkedArray, IntoArray};
use vx_value::{VortexError, VortexResult};

/// Reads the array of the rows of `chunks`, one chunk after the other, if each is of the array's type.
pub(crate) fn read(alloc: Global, value: &Value, chunks: Vec<ArrayRef>) -> VortexResult<ArrayRef>
    ensures { IsRead (chunked_spelled (view value.now) chunks.items) result }
{
    check_keys(value, 3)?;
    let dtype = column_type_at(alloc, value)?;
    match ChunkedArray::try_new(alloc, chunks, dtype) {
        Ok(node) => Ok(node.into_array()),
        Err(VortexError::OutOfMemory) => Err(VortexError::OutOfMemory),
        Err(_) => Err(BAD_VALUE),
    }
}
