//! A dictionary.

ghost use Rattle.serde_json.specs.View.{view};
ghost use Rattle.vx_json.specs.Refused.{IsRead};
ghost use Rattle.vx_json.specs.SpelledNodes.Dict.{dict_spelled};

use crate::BAD_VALUE;
use crate::fields::check_keys;
use serde_json::Value;
use std::alloc::Global;
use vx_tree::{ArrayRef, DictArray, IntoArray};
use vx_value::{VortexError, VortexResult};

/// Reads the array of the `values` that `codes` name, if these are integers.
pub(crate) fn read(
    alloc: Global,
    value: &Value,
    codes: ArrayRef,
    values: ArrayRef,
) -> VortexResult<ArrayRef>
    ensures { IsRead (dict_spelled (view value.now) codes values) result }
{
    check_keys(value, 3)?;
    match DictArray::try_new(alloc, codes, values) {
        Ok(node) => Ok(node.into_array()),
        Err(VortexError::OutOfMemory) => Err(VortexError::OutOfMemory),
        Err(_) => Err(BAD_VALUE),
    }
}
