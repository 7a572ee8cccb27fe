//! A lazy filter.

ghost use Rattle.std.specs.Prelude.{◌≡◌, length, Some, None, IfOk, IfErr};
ghost use Rattle.serde_json.specs.View.{view};
ghost use Rattle.vx_mask.specs.Masks.{bits_in};
ghost use Rattle.vx_tree.specs.Tree.{len, filter_of};
ghost use Rattle.vx_json.specs.Refused.{IsRefused, IsRead};
ghost use Rattle.vx_json.specs.SpelledNodes.Filter.{filter_spelled};

use crate::BAD_VALUE;
use crate::fields::{check_keys, items};
use crate::row_nulls::NoNulls;
use crate::values::booleans;
use serde_json::Value;
use std::alloc::Global;
use vx_mask::Mask;
use vx_tree::{ArrayRef, FilterArray, IntoArray};
use vx_value::VortexResult;

/// Reads the mask of a lazy filter of `child`: a list of booleans, one for each row of `child`.
fn filter_mask(alloc: Global, value: &Value, child: &ArrayRef) -> VortexResult<Mask>
    ensures ok { IfOk result (λ mask. filter_spelled (view value.now) child.now ≡ Some (filter_of (bits_in mask) child.now)) }
    ensures rows { IfOk result (λ mask. length (bits_in mask) ≡ len child.now) }
    ensures err { IfErr result (IsRefused (filter_spelled (view value.now) child.now ≡ None)) }
{
    check_keys(value, 3)?;
    let Some(list) = items(value, "mask") else {
        return Err(BAD_VALUE);
    };
    let bits = booleans(alloc, &mut NoNulls, list)?;
    if bits.len() != child.len() {
        return Err(BAD_VALUE);
    }
    Ok(Mask::from_bits(bits))
}

/// Reads a lazy filter of `child`, whose mask is a list of booleans.
pub(crate) fn read(alloc: Global, value: &Value, child: ArrayRef) -> VortexResult<ArrayRef>
    ensures { IsRead (filter_spelled (view value.now) child) result }
{
    let mask = filter_mask(alloc, value, &child)?;
    Ok(FilterArray::new(alloc, child, mask)?.into_array())
}
