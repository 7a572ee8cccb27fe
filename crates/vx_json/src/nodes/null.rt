//! A column of type null.

ghost use Rattle.serde_json.specs.View.{view};
ghost use Rattle.vx_json.specs.Refused.{IsRead};
ghost use Rattle.vx_json.specs.SpelledNodes.Null.{null_spelled};

use crate::BAD_VALUE;
use crate::fields::{check_keys, number};
use serde_json::Value;
use std::alloc::Global;
use vx_tree::{ArrayRef, IntoArray, NullArray};
use vx_value::VortexResult;

/// Reads a column of type null: `len` rows.
pub(crate) fn read(alloc: Global, value: &Value) -> VortexResult<ArrayRef>
    ensures { IsRead (null_spelled (view value.now)) result }
{
    check_keys(value, 2)?;
    let Some(len) = number(value, "len") else {
        return Err(BAD_VALUE);
    };
    Ok(NullArray::new(alloc, len as usize)?.into_array())
}
