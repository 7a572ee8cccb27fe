//! A dictionary over a filter, as one over the filter's child.

ghost use Rattle.std.specs.Prelude.{◌≡◌, length, true, map, pos, IfOk, MatchOption};
ghost use Rattle.std.specs.List.{range_with_len};
ghost use Rattle.vx_value.specs.Types as type;
ghost use Rattle.vx_value.specs.Errors.{OnlyOutOfMemory};
ghost use Rattle.vx_mask.specs.Masks.{bits_in};
ghost use Rattle.vx_tree.specs.Tree.{dtype, len, dict_of, filter_of, integers};
ghost use Rattle.vx_tree.specs.SlotTypes.{is_integer};
ghost use Rattle.vx_tree.specs.Cells.{rows, HasNoFault};
ghost use Rattle.vx_tree.specs.Well.{IsNodeOf};
ghost use Rattle.vx_tree.specs.Canonicals.{canonical_tree, columnar_tree};
ghost use Rattle.vx_column.specs.Casts.{IsIntegerType};
ghost use Rattle.vx_step.specs.Kernels.{places, placed, IsPlaced, KernelAnswers};

use crate::kernels::builtin::BuiltinKernelKind;
use std::alloc::{AllocError, Global};
use vx_column::{filter_canonical, take_rows};
use vx_mask::{Buffer, Mask};
use vx_tree::{
    ArrayKind, ArrayRef, Canonical, Columnar, DictArray, IntoArray, PrimitiveArray,
    PrimitiveValues, Validity,
};
use vx_value::{DType, Nullability, PType, VortexError, VortexResult};

/// Returns the dictionary over the child of the filter in slot 1 of `filled`: its codes are the places, in the child, of the
/// rows that the codes of `filled` name. `None` exactly if another slot was executed, `filled` isn't a dictionary over a filter,
/// its codes aren't a column, or one of them has no value or names no row. Fails only with `OutOfMemory`.
#[tactic(auto, using(crate::proofs::KernelsLemmas::other_slot, crate::proofs::KernelsLemmas::other_parent, crate::proofs::KernelsLemmas::other_values))]
pub(crate) fn answer(
    alloc: Global,
    filled: &ArrayRef,
    slot: usize,
) -> VortexResult<Option<ArrayRef>>
    ensures { KernelAnswers BuiltinKernelKind.DictOverFilter slot filled.now result }
{
    if slot != 1 {
        return Ok(None);
    }
    let ArrayKind::Dict(codes, values) = filled.kind() else {
        return Ok(None);
    };
    let ArrayKind::Filter(child, mask) = values.kind() else {
        return Ok(None);
    };
    over_child(alloc, codes, child, mask)
}

/// Returns the dictionary over `child` for the one whose `codes` name rows of `child` that `mask` chooses, or `None`, as above.
#[tactic(auto, using(crate::proofs::KernelsLemmas::codes_open, crate::proofs::KernelsLemmas::not_placed, crate::proofs::DictLemmas::codes_integer))]
fn over_child(
    alloc: Global,
    codes: &ArrayRef,
    child: &ArrayRef,
    mask: &Mask,
) -> VortexResult<Option<ArrayRef>>
    requires node { IsNodeOf (dict_of codes.now (filter_of (bits_in mask.now) child.now)) }
    requires counted { length (bits_in mask.now) ≡ len child.now }
    ensures { KernelAnswers BuiltinKernelKind.DictOverFilter 1 (dict_of codes.now (filter_of (bits_in mask.now) child.now)) result }
{
    child.well_formed_tree();
    let Ok(codes) = Columnar::try_from_array_ref(codes.clone()?) else {
        return Ok(None);
    };
    match places_named(alloc, &codes, child.len(), mask)? {
        Some(places) => {
            let tree = dict_node(alloc, places.into_array(), child.clone()?)?;
            Ok(Some(tree))
        }
        None => Ok(None),
    }
}

/// Returns the places, among `count` rows, of those that `codes` name among the rows that `mask` chooses: null where the code
/// is null. `None` exactly if a code has no value or names no row. Fails only with `OutOfMemory`.
#[tactic(auto, using(crate::proofs::KernelsLemmas::placed_of, crate::proofs::KernelsLemmas::unplaced_of))]
fn places_named(
    alloc: Global,
    codes: &Columnar,
    count: usize,
    mask: &Mask,
) -> VortexResult<Option<Columnar>>
    requires integers { IsIntegerType (dtype (columnar_tree codes.now)) }
    requires counted { length (bits_in mask.now) ≡ count }
    ensures ok { IfOk result (λ o. MatchOption o (HasNoFault (placed (bits_in mask.now) (rows (columnar_tree codes.now))) → ⊥) (λ v. IsPlaced (bits_in mask.now) (columnar_tree codes.now) (columnar_tree v))) }
    ensures err { OnlyOutOfMemory result }
{
    let places = places_of(alloc, count, mask)?;
    match take_rows(alloc, codes, &places) {
        Ok(named) => {
            named.as_array();
            Ok(Some(named))
        }
        Err(VortexError::Fault) => Ok(None),
        Err(e) => Err(e),
    }
}

/// Returns the places, among `count` rows, of those that `mask` chooses. Fails only with `OutOfMemory`.
#[tactic(auto, using(crate::proofs::KernelsLemmas::numbered_shown, crate::proofs::KernelsLemmas::numbered_typed))]
fn places_of(alloc: Global, count: usize, mask: &Mask) -> VortexResult<Columnar>
    requires { length (bits_in mask.now) ≡ count }
    ensures shown { IfOk result (λ c. rows (columnar_tree c) ≡ places (bits_in mask.now)) }
    ensures typed { IfOk result (λ c. dtype (columnar_tree c) ≡ type.primitive PType.U64 Nullability.NonNullable) }
    ensures err { OnlyOutOfMemory result }
{
    let numbers = numbered(alloc, count)?;
    let places = filter_canonical(alloc, &numbers, mask)?;
    Ok(Columnar::Canonical(places))
}

/// Returns the column of the numbers below `count`. Fails only with `OutOfMemory`.
fn numbered(alloc: Global, count: usize) -> VortexResult<Canonical>
    ensures ok { IfOk result (λ c. canonical_tree c ≡ integers PType.U64 (map pos (range_with_len 0 count))) }
    ensures err { OnlyOutOfMemory result }
{
    let numbers = numbers_below(alloc, count)?;
    let values = PrimitiveValues::new(PType::U64, Buffer::from_vec(alloc, numbers)?);
    let dtype = DType::Primitive(PType::U64, Nullability::NonNullable);
    let column = PrimitiveArray::try_new(alloc, dtype, values, &Validity::NonNullable)?;
    Ok(Canonical::Primitive(column))
}

/// Returns the numbers below `count`.
#[tactic(auto, using(crate::proofs::KernelsLemmas::numbers_more))]
fn numbers_below(alloc: Global, count: usize) -> Result<Vec<u64>, AllocError>
    ensures { IfOk result (λ v. v.items ≡ range_with_len 0 count) }
{
    let mut numbers = Vec::with_capacity(alloc, count)?;
    for number in 0..count {
        numbers.push(number as u64)?;
    }
    Ok(numbers)
}

/// Makes the dictionary of `values` by `codes`, which must be integers. Fails only with `OutOfMemory`.
fn dict_node(alloc: Global, codes: ArrayRef, values: ArrayRef) -> VortexResult<ArrayRef>
    requires { is_integer (dtype codes) ≡ true }
    ensures ok { IfOk result (λ t. t ≡ dict_of codes values) }
    ensures err { OnlyOutOfMemory result }
{
    Ok(DictArray::try_new(alloc, codes, values)?.into_array())
}
