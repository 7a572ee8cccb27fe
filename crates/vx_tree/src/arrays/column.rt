//! What all flat columns share: a value in each row, and a slot for their validity.

ghost use Rattle.std.specs.Prelude.{◌≡◌, ◌⊎◌, ℕ, List, [], ◌∷◌, Option, IfOk, IfErr, OnOk, Some, None, option_map, false};
ghost use Rattle.vx_value.specs.Errors.{OnlyOutOfMemory};
ghost use Rattle.vx_value.specs.Types.{DataType};
ghost use Rattle.vx_value.specs.View.{type_of};
ghost use Rattle.vx_value.specs.Storage.{is_nested};
ghost use Rattle.vx_tree.specs.Tree.{column, slots_of};
ghost use Rattle.vx_tree.specs.Conditions.{Checks};
ghost use Rattle.vx_tree.specs.Well.{Shape, shape_of, IsFlat, IsNode, shapes};
ghost use Rattle.vx_tree.specs.Refusals.{column_refusal, validity_type_refusal, validity_len_refusal};
ghost use Rattle.vx_tree.specs.Validities.{child_of, flat_refusal};

use crate::array::{Array, ArrayParts, ArrayRef, Encoded, VTable};
use crate::conditions::check_that;
use crate::types::{BOOLEANS, is_same_type};
use crate::validity::{Validity, check_validity, validity_to_child};
use std::alloc::Global;
use vx_value::{ArgKind, DType, Nullability, VortexError, VortexResult};

/// Checks that `parts` make a column of `values` values of type `of_type`, whose nullability is ignored.
#[tactic(auto, using(crate::proofs::RefusalsLemmas::column_slot_count, crate::proofs::RefusalsLemmas::the_slot, crate::proofs::RefusalsLemmas::column_by_slot))]
pub(crate) fn check_column<V: Encoded>(
    parts: &ArrayParts<V>,
    of_type: &DType,
    values: usize,
) -> VortexResult<()>
    ensures { Checks result (column_refusal (type_of parts.now.dtype) parts.now.len (type_of of_type.now) values (shapes (slots_of parts.now.slots.items))) }
{
    if parts.slots.len() != 1 {
        return Err(VortexError::InvalidArgument(ArgKind::SlotCount));
    }
    check_flat(&parts.dtype, parts.len, of_type, values, &parts.slots[0])
}

/// Checks that a column of type `dtype` and `len` rows may have `values` values of type `of_type` and this tree in the slot
/// of its validity.
#[tactic(auto, using(crate::proofs::ConditionsLemmas::in_turn))]
fn check_flat(
    dtype: &DType,
    len: usize,
    of_type: &DType,
    values: usize,
    validity: &Option<ArrayRef>,
) -> VortexResult<()>
    ensures { Checks result (column_refusal (type_of dtype.now) len (type_of of_type.now) values (option_map shape_of validity.now ∷ [])) }
{
    check_that(dtype.eq_ignore_nullability(of_type), ArgKind::BadType)?;
    check_validity_type(dtype.nullability(), validity, 0)?;
    check_that(len == values, ArgKind::NodeLen)?;
    check_validity_len(len, validity, 0)
}

/// Checks that a node of this nullability may have a tree of this type in `slot`, the slot of its validity.
pub(crate) fn check_validity_type(
    nullability: Nullability,
    validity: &Option<ArrayRef>,
    slot: usize,
) -> VortexResult<()>
    ensures { Checks result (validity_type_refusal slot nullability (option_map shape_of validity.now)) }
{
    let Some(child) = validity else {
        return Ok(());
    };
    match nullability {
        Nullability::Nullable if is_same_type(child.dtype(), &BOOLEANS) => Ok(()),
        _ => Err(VortexError::InvalidArgument(ArgKind::SlotType { slot })),
    }
}

/// Checks that the tree in `slot`, the slot of a validity, has `len` rows.
pub(crate) fn check_validity_len(
    len: usize,
    validity: &Option<ArrayRef>,
    slot: usize,
) -> VortexResult<()>
    ensures { Checks result (validity_len_refusal slot len (option_map shape_of validity.now)) }
{
    match validity {
        Some(child) => check_that(child.len() == len, ArgKind::SlotLen { slot }),
        None => Ok(()),
    }
}

/// Checks that a column of `len` values of the non-nullable type `of_type` may have the type `dtype` and this validity.
///
/// `dtype` must be that type with the nullability of `validity`, else `InvalidArgument` with `BadType`; then `validity` must be
/// one of `len` rows, else `InvalidArgument` with `SlotType` or `SlotLen`.
#[tactic(auto, using(crate::proofs::ConditionsLemmas::in_turn))]
pub(crate) fn check_flat_column(
    alloc: Global,
    dtype: &DType,
    of_type: &DType,
    len: usize,
    validity: &Validity,
) -> VortexResult<()>
    ensures valid { OnOk result (flat_refusal (type_of of_type.now) (type_of dtype.now) len validity.now ≡ None) }
    ensures refused { IfErr result (λ e. (e ≡ VortexError.OutOfMemory)
        ⊎ (flat_refusal (type_of of_type.now) (type_of dtype.now) len validity.now ≡ Some e)) }
{
    let want = of_type.with_nullability(alloc, validity.nullability())?;
    check_that(is_same_type(dtype, &want), ArgKind::BadType)?;
    check_validity(validity, len)
}

/// Makes the column of `payload`, `len` values of the non-nullable type `of_type`, if it may have the type `dtype` and this
/// validity, as `check_flat_column` says.
#[tactic(auto, using(crate::proofs::ValiditiesLemmas::flat_made))]
pub(crate) fn flat_column<V: VTable>(
    alloc: Global,
    dtype: DType,
    of_type: &DType,
    len: usize,
    payload: V::TypedArrayData,
    validity: &Validity,
) -> VortexResult<Array<V>>
    requires unnested { is_nested (type_of of_type.now) ≡ false }
    requires node { (ty : DataType) (n : ℕ) (ss : List (Option Shape)) → IsFlat (type_of of_type.now) len ty n ss → IsNode ty n (V.stands_for payload) ss }
    ensures ok { IfOk result (λ a. a ≡ column (type_of dtype) len (V.stands_for payload) (child_of validity.now len)) }
    ensures valid { OnOk result (flat_refusal (type_of of_type.now) (type_of dtype) len validity.now ≡ None) }
    ensures refused { IfErr result (λ e. (e ≡ VortexError.OutOfMemory)
        ⊎ (flat_refusal (type_of of_type.now) (type_of dtype) len validity.now ≡ Some e)) }
{
    check_flat_column(alloc, &dtype, of_type, len, validity)?;
    flat_unchecked(alloc, dtype, len, payload, validity)
}

/// Makes the column of `payload`, `len` values, which may have the type `dtype` and this validity. Checks nothing. Fails only
/// with `OutOfMemory`.
pub(crate) fn flat_unchecked<V: VTable>(
    alloc: Global,
    dtype: DType,
    len: usize,
    payload: V::TypedArrayData,
    validity: &Validity,
) -> VortexResult<Array<V>>
    requires node { IsNode (type_of dtype) len (V.stands_for payload) (shapes (slots_of (child_of validity.now len ∷ []))) }
    requires unnested { is_nested (type_of dtype) ≡ false }
    ensures ok { IfOk result (λ a. a ≡ column (type_of dtype) len (V.stands_for payload) (child_of validity.now len)) }
    ensures err { OnlyOutOfMemory result }
{
    let child = validity_to_child(alloc, validity, len)?;
    Array::over(alloc, dtype, len, payload, child)
}
