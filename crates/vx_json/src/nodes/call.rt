//! A lazy function.

ghost use Rattle.serde_json.specs.View.{view};
ghost use Rattle.vx_json.specs.Refused.{IsRead};
ghost use Rattle.vx_json.specs.SpelledNodes.Call.{call_spelled};

use crate::BAD_VALUE;
use crate::functions::function_at;
use serde_json::Value;
use std::alloc::Global;
use vx_tree::{ArrayRef, IntoArray, ScalarFnArray};
use vx_value::{VortexError, VortexResult};

/// Reads a lazy function of `children`, if it accepts them.
pub(crate) fn read(alloc: Global, value: &Value, children: Vec<ArrayRef>) -> VortexResult<ArrayRef>
    ensures { IsRead (call_spelled (view value.now) children.items) result }
{
    let function = function_at(alloc, value)?;
    match ScalarFnArray::try_new(alloc, function, children) {
        Ok(node) => Ok(node.into_array()),
        Err(VortexError::OutOfMemory) => Err(VortexError::OutOfMemory),
        Err(_) => Err(BAD_VALUE),
    }
}
