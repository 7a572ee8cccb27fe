//! A masked array.

ghost use Rattle.std.specs.Prelude.{◌≡◌, Some, None, IfOk, IfErr};
ghost use Rattle.serde_json.specs.View.{view};
ghost use Rattle.vx_tree.specs.Tree.{len, masked_of};
ghost use Rattle.vx_tree.specs.Validities.{HasRows, child_of, nullability_by};
ghost use Rattle.vx_json.specs.Refused.{IsRefused, IsRead};
ghost use Rattle.vx_json.specs.SpelledNodes.Masked.{masked_spelled};

use crate::fields::check_keys;
use crate::nulls::Nulls;
use serde_json::Value;
use std::alloc::Global;
use vx_tree::{ArrayRef, IntoArray, MaskedArray, Validity};
use vx_value::{Nullability, VortexResult};

/// Reads the validity of a masked array of `child`, from `nulls`.
fn masked_validity(value: &Value, child: &ArrayRef, nulls: &Nulls) -> VortexResult<Validity>
    ensures ok { IfOk result (λ v. masked_spelled (view value.now) child.now nulls.now ≡ Some (masked_of child.now (child_of v (len child.now)))) }
    ensures nullability { IfOk result (λ v. nullability_by v ≡ Nullability.Nullable) }
    ensures rows { IfOk result (λ v. HasRows v (len child.now)) }
    ensures err { IfErr result (IsRefused (masked_spelled (view value.now) child.now nulls.now ≡ None)) }
{
    check_keys(value, 2 + nulls.keys())?;
    nulls.validity(Nullability::Nullable, child.len())
}

/// Reads a masked array: the rows of `child`, null where `nulls` says so or `child` is.
pub(crate) fn read(
    alloc: Global,
    value: &Value,
    child: ArrayRef,
    nulls: &Nulls,
) -> VortexResult<ArrayRef>
    ensures { IsRead (masked_spelled (view value.now) child nulls.now) result }
{
    let validity = masked_validity(value, &child, nulls)?;
    Ok(MaskedArray::new_unchecked(alloc, child, &validity)?.into_array())
}
