//! The slots of answers, and the arguments of functions.

ghost use Rattle.std.specs.Prelude.{◌≡◌, ◌≤◌, ◌-◌, [], ◌∷◌, length, Some, None, option_map, IfOk, IfSome, true};
ghost use Rattle.vx_value.specs.Errors.{OnlyOutOfMemory};
ghost use Rattle.vx_mask.specs.Masks.{bits_in};
ghost use Rattle.vx_tree.specs.Tree.{Tree, len, slots_of, slice_of, all_long};
ghost use Rattle.vx_tree.specs.Well.{shapes};
ghost use Rattle.vx_tree.specs.Slots.{map_slots};
ghost use Rattle.vx_tree.specs.Parts.{choice_of};
ghost use Rattle.vx_tree.specs.Validities.{truths};
ghost use Rattle.vx_rule.specs.Rules.{with_absent, validity_column};

use std::alloc::Global;
use std::ops::Range;
use vx_mask::Mask;
use vx_tree::{ArrayRef, ConstantArray, IntoArray, SliceArray, choose_validity};
use vx_value::{Nullability, Scalar, VortexResult};

/// Returns a lazy slice of the tree in `slot`, if there is one, at `range`, which must be in order and in bounds. Fails only
/// with `OutOfMemory`.
fn slice_slot(
    alloc: Global,
    slot: &Option<ArrayRef>,
    range: Range<usize>,
) -> VortexResult<Option<ArrayRef>>
    requires order { range.start ≤ range.end }
    requires bounds { IfSome slot.now (λ c. range.end ≤ len c) }
    ensures ok { IfOk result (λ s. s ≡ option_map (slice_of range.start range.end) slot.now) }
    ensures err { OnlyOutOfMemory result }
{
    match slot {
        Some(child) => Ok(Some(SliceArray::new(alloc, child.clone()?, range)?.into_array())),
        None => Ok(None),
    }
}

/// Returns lazy slices of the trees in `slots`, which must have `len` rows each, at `range`, which must be in order and in
/// bounds. Fails only with `OutOfMemory`.
pub(crate) fn slice_slots(
    alloc: Global,
    slots: &[Option<ArrayRef>],
    len: usize,
    range: Range<usize>,
) -> VortexResult<Vec<Option<ArrayRef>>>
    requires long { all_long len (shapes (slots_of slots.now)) ≡ true }
    requires order { range.start ≤ range.end }
    requires bounds { range.end ≤ len }
    ensures ok { IfOk result (λ v. slots_of v.items ≡ map_slots (slice_of range.start range.end) (slots_of slots.now)) }
    ensures err { OnlyOutOfMemory result }
{
    let (start, end) = (range.start, range.end);
    let mut slices = Vec::with_capacity(alloc, slots.len())?;
    for index in 0..slots.len() {
        slices.push(slice_slot(alloc, &slots[index], start..end)?)?;
    }
    Ok(slices)
}

/// Returns lazy filters of the trees in `slots`, which must have as many rows as `mask` each; a constant becomes a shorter one.
/// Fails only with `OutOfMemory`.
pub(crate) fn choose_slots(
    alloc: Global,
    slots: &[Option<ArrayRef>],
    mask: &Mask,
) -> VortexResult<Vec<Option<ArrayRef>>>
    requires { all_long (length (bits_in mask.now)) (shapes (slots_of slots.now)) ≡ true }
    ensures ok { IfOk result (λ v. slots_of v.items ≡ map_slots (choice_of (bits_in mask.now)) (slots_of slots.now)) }
    ensures err { OnlyOutOfMemory result }
{
    let mut choices = Vec::with_capacity(alloc, slots.len())?;
    for index in 0..slots.len() {
        let choice = choose_validity(alloc, &slots[index], mask)?;
        choices.push(choice)?;
    }
    Ok(choices)
}

/// Returns `slots` with an absent one behind them. Fails only with `OutOfMemory`.
#[tactic(auto, using(crate::proofs::SlotsLemmas::absent_behind))]
pub(crate) fn with_absent(
    alloc: Global,
    slots: &[Option<ArrayRef>],
) -> VortexResult<Vec<Option<ArrayRef>>>
    ensures ok { IfOk result (λ v. slots_of v.items ≡ with_absent (slots_of slots.now)) }
    ensures err { OnlyOutOfMemory result }
{
    let mut columns = slots.to_vec(alloc)?;
    columns.push(None)?;
    Ok(columns)
}

/// Returns the tree in the only slot.
pub(crate) fn only_argument(slots: &[Option<ArrayRef>]) -> &ArrayRef
    requires { (c : Tree) × (slots.now ≡ Some c ∷ []) }
    ensures { slots.now ≡ Some result.now ∷ [] }
{
    let [Some(child)] = slots else { unreachable!() };
    child
}

/// Returns the trees in the only two slots.
pub(crate) fn two_arguments(slots: &[Option<ArrayRef>]) -> (&ArrayRef, &ArrayRef)
    requires { (c : Tree) × (d : Tree) × (slots.now ≡ Some c ∷ Some d ∷ []) }
    ensures { slots.now ≡ Some result.0.now ∷ Some result.1.now ∷ [] }
{
    let [Some(first), Some(second)] = slots else {
        unreachable!()
    };
    (first, second)
}

/// Returns the trees in the only three slots.
pub(crate) fn three_arguments(slots: &[Option<ArrayRef>]) -> (&ArrayRef, &ArrayRef, &ArrayRef)
    requires { (c : Tree) × (d : Tree) × (e : Tree) × (slots.now ≡ Some c ∷ Some d ∷ Some e ∷ []) }
    ensures { slots.now ≡ Some result.0.now ∷ Some result.1.now ∷ Some result.2.now ∷ [] }
{
    let [Some(first), Some(second), Some(third)] = slots else {
        unreachable!()
    };
    (first, second, third)
}

/// Makes the constant of `len` rows, each `value`. Fails only with `OutOfMemory`.
pub(crate) fn truths(alloc: Global, value: bool, len: usize) -> VortexResult<ArrayRef>
    ensures ok { IfOk result (λ t. t ≡ truths value len) }
    ensures err { OnlyOutOfMemory result }
{
    let scalar = Scalar::bool(value, Nullability::NonNullable);
    Ok(ConstantArray::new_unchecked(alloc, scalar, len)?.into_array())
}

/// Returns the validity in a slot as an array of `len` booleans. Fails only with `OutOfMemory`.
pub(crate) fn validity_column(
    alloc: Global,
    validity: &Option<ArrayRef>,
    len: usize,
) -> VortexResult<ArrayRef>
    ensures ok { IfOk result (λ t. t ≡ validity_column len (slots_of (validity.now ∷ []))) }
    ensures err { OnlyOutOfMemory result }
{
    match validity {
        Some(tree) => Ok(tree.clone()?),
        None => truths(alloc, true, len),
    }
}
