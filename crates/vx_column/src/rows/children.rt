//! Single rows of nodes with several children.

ghost use Rattle.std.specs.Prelude.{◌≡◌, ◌≤◌, ◌<◌, ◌∷◌, ℕ, pos, None, IfOk, IfErr, IfSome, length, Some, true};
ghost use Rattle.vx_value.specs.Errors.{OnlyOutOfMemory};
ghost use Rattle.vx_value.specs.View.{type_of};
ghost use Rattle.vx_value.specs.IsOf.{is_of};
ghost use Rattle.vx_value.specs.Parts.{integer_in};
ghost use Rattle.vx_fn.specs.Meanings.{widen};
ghost use Rattle.vx_tree.specs.Tree.{node, function, chunked, interleave, dict_of, dtype, len, slots_of};
ghost use Rattle.vx_tree.specs.Well.{IsNode, IsNodeOf, shapes};
ghost use Rattle.vx_tree.specs.SlotTypes.{missing_refusal};
ghost use Rattle.vx_column.specs.Read.{IsRow, IsUnreadRow};

use crate::rows::probe::{null_of, scalar_at};
use std::alloc::Global;
use vx_fn::{ScalarFnRef, apply_row};
use vx_tree::ArrayRef;
use vx_value::{DType, Nullability, Scalar, VortexError, VortexResult};

/// Returns the value of row `index` of `array`, which applies `scalar_fn` to `slots`.
#[cycle(scalar_at)]
pub(super) fn function_at(
    alloc: Global,
    array: &ArrayRef,
    scalar_fn: &ScalarFnRef,
    slots: &[Option<ArrayRef>],
    index: usize,
) -> VortexResult<Scalar>
    requires index { index < len array.now }
    requires shape { array.now ≡ node (dtype array.now) (len array.now) (function scalar_fn.now) (slots_of slots.now) }
    requires well { IsNode (dtype array.now) (len array.now) (function scalar_fn.now) (shapes (slots_of slots.now)) }
    ensures ok { IfOk result (IsRow array.now index) }
    ensures err { IfErr result (IsUnreadRow array.now index) }
{
    let mut scalars = Vec::with_capacity(alloc, slots.len())?;
    for slot in slots {
        let Some(child) = slot else { unreachable!() };
        match scalar_at(alloc, child, index) {
            Ok(scalar) => scalars.push(scalar)?,
            Err(e) => return Err(e),
        }
    }
    apply_row(alloc, scalar_fn, scalars.as_slice())
}

/// Returns the value of row `index` of `array`, whose rows are those of `values` that `codes` name.
#[cycle(scalar_at)]
pub(super) fn named_at(
    alloc: Global,
    array: &ArrayRef,
    codes: &ArrayRef,
    values: &ArrayRef,
    index: usize,
) -> VortexResult<Scalar>
    requires index { index < len array.now }
    requires shape { array.now ≡ dict_of codes.now values.now }
    requires well { IsNodeOf array.now }
    ensures ok { IfOk result (IsRow array.now index) }
    ensures err { IfErr result (IsUnreadRow array.now index) }
{
    let code = match scalar_at(alloc, codes, index) {
        Ok(scalar) => into_integer(scalar),
        Err(e) => return Err(e),
    };
    let Some(_) = code else {
        return null_of(array.dtype());
    };
    values.well_formed_tree();
    let Some(place) = number_below(code, values.len()) else {
        return Err(VortexError::Fault);
    };
    match scalar_at(alloc, values, place) {
        Ok(scalar) => widened(alloc, scalar, codes.dtype()),
        Err(e) => Err(e),
    }
}

/// Returns the value of row `index` of `array`, whose rows are those of the trees in `slots`, one tree after the other.
#[cycle(scalar_at)]
pub(super) fn chunk_at(
    alloc: Global,
    array: &ArrayRef,
    slots: &[Option<ArrayRef>],
    index: usize,
) -> VortexResult<Scalar>
    requires index { index < len array.now }
    requires shape { array.now ≡ node (dtype array.now) (len array.now) chunked (slots_of slots.now) }
    requires well { IsNode (dtype array.now) (len array.now) chunked (shapes (slots_of slots.now)) }
    ensures ok { IfOk result (IsRow array.now index) }
    ensures err { IfErr result (IsUnreadRow array.now index) }
{
    let mut left = index;
    for slot in slots {
        let Some(chunk) = slot else { unreachable!() };
        chunk.well_formed_tree();
        if left < chunk.len() {
            return scalar_at(alloc, chunk, left);
        }
        left -= chunk.len();
    }
    unreachable!()
}

/// Returns the value of row `index` of `array`, whose first two `slots` say for each row which of the other slots' trees it is
/// of, and which row of it.
#[cycle(scalar_at)]
pub(super) fn pair_at(
    alloc: Global,
    array: &ArrayRef,
    slots: &[Option<ArrayRef>],
    index: usize,
) -> VortexResult<Scalar>
    requires index { index < len array.now }
    requires shape { array.now ≡ node (dtype array.now) (len array.now) interleave (slots_of slots.now) }
    requires well { IsNode (dtype array.now) (len array.now) interleave (shapes (slots_of slots.now)) }
    ensures ok { IfOk result (IsRow array.now index) }
    ensures err { IfErr result (IsUnreadRow array.now index) }
{
    array.well_formed_tree();
    let (arrays, rows, values) = interleaved(slots);
    let array_index = match scalar_at(alloc, arrays, index) {
        Ok(scalar) => into_integer(scalar),
        Err(e) => return Err(e),
    };
    let row_index = match scalar_at(alloc, rows, index) {
        Ok(scalar) => into_integer(scalar),
        Err(e) => return Err(e),
    };
    let Some(tree) = number_below(array_index, values.len()) else {
        return Err(VortexError::Fault);
    };
    let Some(child) = &values[tree] else {
        unreachable!()
    };
    child.well_formed_tree();
    let Some(place) = number_below(row_index, child.len()) else {
        return Err(VortexError::Fault);
    };
    scalar_at(alloc, child, place)
}

/// Returns the array indices, the row indices and the other slots of the two or more `slots` of an interleaved array.
#[tactic(auto, using(crate::proofs::InterleaveRowsLemmas::slots_listed))]
fn interleaved(slots: &[Option<ArrayRef>]) -> (&ArrayRef, &ArrayRef, &[Option<ArrayRef>])
    requires many { 2 ≤ length slots.now }
    requires all { missing_refusal 0 (shapes (slots_of slots.now)) ≡ None }
    ensures { slots.now ≡ Some result.0.now ∷ Some result.1.now ∷ result.2.now }
{
    let (Some(arrays), Some(rows)) = (&slots[0], &slots[1]) else {
        unreachable!()
    };
    (arrays, rows, &slots[2..])
}

/// Returns the integer that `scalar` is, `None` if it is null or another value, and drops it.
#[inline]
fn into_integer(scalar: Scalar) -> Option<i128>
    ensures value { result ≡ integer_in scalar.value }
    ensures typed { is_of scalar.of_type scalar.value ≡ true }
{
    let _dtype = scalar.dtype();
    scalar.as_integer()
}

/// Returns `number` if it is at least 0 and below `bound`, else `None`.
#[inline]
fn number_below(number: Option<i128>, bound: usize) -> Option<usize>
    ensures some { IfSome result (λ k. (number ≡ Some (pos k)) × (k < bound)) }
    ensures none { result ≡ None → (k : ℕ) → number ≡ Some (pos k) → bound ≤ k }
{
    match number {
        Some(z) => if 0 <= z && z < bound as i128 {
            Some(z as usize)
        } else {
            None
        },
        None => None,
    }
}

/// Returns `scalar`, nullable if `dtype` is. Fails only with `OutOfMemory`.
#[inline]
fn widened(alloc: Global, scalar: Scalar, dtype: &DType) -> VortexResult<Scalar>
    ensures ok { IfOk result (λ s. (s.value ≡ scalar.value) × (s.of_type ≡ widen (type_of dtype.now) scalar.of_type)) }
    ensures err { OnlyOutOfMemory result }
{
    match dtype.nullability() {
        Nullability::Nullable => scalar.into_nullable(alloc),
        Nullability::NonNullable => Ok(scalar),
    }
}
