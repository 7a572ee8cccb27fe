//! A constant.

ghost use Rattle.std.specs.Prelude.{◌≡◌, true, IfOk};
ghost use Rattle.serde_json.specs.View.{view};
ghost use Rattle.vx_value.specs.Supported.{has_columns};
ghost use Rattle.vx_json.specs.Refused.{IsRead};
ghost use Rattle.vx_json.specs.SpelledNodes.Constant.{scalar_spelled, constant_spelled};

use crate::BAD_VALUE;
use crate::fields::{check_keys, number};
use crate::scalars::scalar;
use crate::types::column_type_at;
use serde_json::Value;
use std::alloc::Global;
use vx_tree::{ArrayRef, ConstantArray, IntoArray};
use vx_value::{Scalar, VortexResult};

/// Reads the value of a constant, which is of its type.
fn constant_value(alloc: Global, value: &Value) -> VortexResult<Scalar>
    ensures read { IsRead (scalar_spelled (view value.now)) result }
    ensures columns { IfOk result (λ s. has_columns s.of_type ≡ true) }
{
    let Some(spelled) = value.get("value") else {
        return Err(BAD_VALUE);
    };
    let dtype = column_type_at(alloc, value)?;
    scalar(alloc, &dtype, spelled)
}

/// Reads a constant: `len` rows of one value.
pub(crate) fn read(alloc: Global, value: &Value) -> VortexResult<ArrayRef>
    ensures { IsRead (constant_spelled (view value.now)) result }
{
    check_keys(value, 4)?;
    let Some(len) = number(value, "len") else {
        return Err(BAD_VALUE);
    };
    let scalar = constant_value(alloc, value)?;
    Ok(ConstantArray::new_unchecked(alloc, scalar, len as usize)?.into_array())
}
