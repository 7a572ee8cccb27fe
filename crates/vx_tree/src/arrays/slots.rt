//! What the nodes with several trees of one type share.

ghost use Rattle.std.specs.Prelude.{◌≡◌, ◌++◌, IfOk, MatchResult, drop, map, sum, Some, None};
ghost use Rattle.vx_value.specs.View.{type_of};
ghost use Rattle.vx_tree.specs.Conditions.{Checks};
ghost use Rattle.vx_tree.specs.Tree.{dtype, slots_of, joined_refusal};
ghost use Rattle.vx_tree.specs.Well.{shapes};
ghost use Rattle.vx_tree.specs.SlotTypes.{is_integer, is_index, missing_refusal, type_refusal, has_type, rows_in, lengths_in};

use crate::array::ArrayRef;
use crate::conditions::check_that;
use crate::types::is_same_type;
use std::alloc::AllocError;
use vx_value::{ArgKind, DType, Nullability, VortexError, VortexResult};

/// Returns whether the rows of `array` are integers.
pub(crate) fn is_integer(array: &ArrayRef) -> bool
    ensures { result ≡ is_integer (dtype array.now) }
{
    matches!(array.dtype(), DType::Primitive(_, _))
}

/// Returns whether the rows of `array` are integers and never null.
pub(crate) fn is_index(array: &ArrayRef) -> bool
    ensures { result ≡ is_index (dtype array.now) }
{
    matches!(array.dtype(), DType::Primitive(_, Nullability::NonNullable))
}

/// Checks that each slot holds a tree. `InvalidArgument` with `SlotMissing` of the first that doesn't.
#[tactic(auto, using(crate::proofs::SlotTypesLemmas::missing_more))]
pub(crate) fn check_present(slots: &[Option<ArrayRef>]) -> VortexResult<()>
    ensures { Checks result (missing_refusal 0 (shapes (slots_of slots.now))) }
{
    for slot in 0..slots.len() {
        check_that(slots[slot].is_some(), ArgKind::SlotMissing { slot })?;
    }
    Ok(())
}

/// Returns whether `slot` has no tree, or one of type `dtype`.
fn has_type(slot: &Option<ArrayRef>, dtype: &DType) -> bool
    ensures { result ≡ has_type (type_of dtype.now) slot.now }
{
    match slot {
        Some(child) => is_same_type(child.dtype(), dtype),
        None => true,
    }
}

/// Checks that each tree in the slots from `first` on is of type `dtype`. `InvalidArgument` with `SlotType` of the first that
/// isn't.
#[tactic(auto, using(crate::proofs::SlotTypesLemmas::type_more))]
pub(crate) fn check_types(
    dtype: &DType,
    first: usize,
    slots: &[Option<ArrayRef>],
) -> VortexResult<()>
    ensures { Checks result (type_refusal (type_of dtype.now) first (shapes (slots_of (drop first slots.now)))) }
{
    for slot in first..slots.len() {
        check_that(has_type(&slots[slot], dtype), ArgKind::SlotType { slot })?;
    }
    Ok(())
}

/// Returns the number of rows of `slot`'s tree, 0 if it has none.
fn rows_in(slot: &Option<ArrayRef>) -> usize
    ensures { result ≡ rows_in slot.now }
{
    match slot {
        Some(child) => child.len(),
        None => 0,
    }
}

/// Returns the number of rows of the trees in the slots together. `TooLong` exactly if it exceeds `usize::MAX`.
#[tactic(auto, using(crate::proofs::SlotTypesLemmas::joined_more, crate::proofs::SlotTypesLemmas::total_more))]
pub(crate) fn total_len(slots: &[Option<ArrayRef>]) -> VortexResult<usize>
    ensures { MatchResult result
        (λ n. (n ≡ sum (lengths_in (shapes (slots_of slots.now)))) × (joined_refusal 0 (lengths_in (shapes (slots_of slots.now))) ≡ None))
        (λ e. joined_refusal 0 (lengths_in (shapes (slots_of slots.now))) ≡ Some e) }
{
    let mut len: usize = 0;
    for slot in 0..slots.len() {
        let factor = rows_in(&slots[slot]);
        if factor > usize::MAX - len {
            return Err(VortexError::TooLong { len, factor });
        }
        len += factor;
    }
    Ok(len)
}

/// Appends a slot for each tree.
pub(crate) fn append_slots(
    slots: Vec<Option<ArrayRef>>,
    children: Vec<ArrayRef>,
) -> Result<Vec<Option<ArrayRef>>, AllocError>
    ensures { IfOk result (λ all. all.items ≡ slots.items ++ map Some children.items) }
{
    let mut all = slots;
    all.reserve(children.len())?;
    for child in children {
        all.push(Some(child))?;
    }
    Ok(all)
}
