//! A lazy test of which rows are valid.

ghost use Rattle.serde_json.specs.View.{view};
ghost use Rattle.vx_json.specs.Refused.{IsRead};
ghost use Rattle.vx_json.specs.SpelledNodes.IsValid.{is_valid_spelled};

use crate::fields::check_keys;
use serde_json::Value;
use std::alloc::Global;
use vx_tree::{ArrayRef, IntoArray, ScalarFnValidityArray};
use vx_value::VortexResult;

/// Reads the lazy test of which rows of `child` are valid.
pub(crate) fn read(alloc: Global, value: &Value, child: ArrayRef) -> VortexResult<ArrayRef>
    ensures { IsRead (is_valid_spelled (view value.now) child) result }
{
    check_keys(value, 2)?;
    Ok(ScalarFnValidityArray::new(alloc, child)?.into_array())
}
