//! An interleaved array.

ghost use Rattle.serde_json.specs.View.{view};
ghost use Rattle.vx_json.specs.Refused.{IsRead};
ghost use Rattle.vx_json.specs.SpelledNodes.Interleave.{interleave_spelled};

use crate::BAD_VALUE;
use crate::fields::check_keys;
use serde_json::Value;
use std::alloc::Global;
use vx_tree::{ArrayRef, InterleaveArray, IntoArray};
use vx_value::{VortexError, VortexResult};

/// Reads the array whose row i is row `rows[i]` of `values[arrays[i]]`, if these can be interleaved.
pub(crate) fn read(
    alloc: Global,
    value: &Value,
    arrays: ArrayRef,
    rows: ArrayRef,
    values: Vec<ArrayRef>,
) -> VortexResult<ArrayRef>
    ensures { IsRead (interleave_spelled (view value.now) arrays rows values.items) result }
{
    check_keys(value, 4)?;
    match InterleaveArray::try_new(alloc, values, arrays, rows) {
        Ok(node) => Ok(node.into_array()),
        Err(VortexError::OutOfMemory) => Err(VortexError::OutOfMemory),
        Err(_) => Err(BAD_VALUE),
    }
}
