//! What the nodes with one child share, and those with none.

ghost use Rattle.std.specs.Prelude.{◌≡◌, ℕ, [], ◌∷◌, MatchResult, Option, Some};
ghost use Rattle.vx_value.specs.Types.{DataType};
ghost use Rattle.vx_value.specs.declared.error.VortexError.{VortexError as VortexErrorOf};
ghost use Rattle.vx_tree.specs.Tree.{slots_of};
ghost use Rattle.vx_tree.specs.Well.{shape_of, shapes};
ghost use Rattle.vx_tree.specs.Refusals.{of_child, without_slots};

use crate::array::ArrayRef;
use vx_value::{ArgKind, VortexError, VortexResult};

/// Returns the child of a node with these slots. `InvalidArgument` with `SlotCount` or `SlotMissing` if they aren't one
/// present slot.
#[tactic(auto, using(crate::proofs::RefusalsLemmas::child_slot_count, crate::proofs::RefusalsLemmas::the_slot))]
pub(crate) fn only_child(slots: &[Option<ArrayRef>]) -> VortexResult<&ArrayRef>
    ensures { MatchResult result
        (λ c. shapes (slots_of slots.now) ≡ Some (shape_of c.now) ∷ [])
        (λ e. (later : DataType → ℕ → Option VortexErrorOf) → of_child later (shapes (slots_of slots.now)) ≡ Some e) }
{
    if slots.len() != 1 {
        return Err(VortexError::InvalidArgument(ArgKind::SlotCount));
    }
    match &slots[0] {
        Some(child) => Ok(child),
        None => Err(VortexError::InvalidArgument(ArgKind::SlotMissing { slot: 0 })),
    }
}

/// Checks that a node has no slots. `InvalidArgument` with `SlotCount` if there are slots.
#[tactic(auto, using(crate::proofs::RefusalsLemmas::some_slot, std::proofs::lemmas::List::nil_from_length))]
pub(crate) fn no_child(slots: &[Option<ArrayRef>]) -> VortexResult<()>
    ensures { MatchResult result
        (λ _. shapes (slots_of slots.now) ≡ [])
        (λ e. (later : Option VortexErrorOf) → without_slots later (shapes (slots_of slots.now)) ≡ Some e) }
{
    if slots.len() == 0 {
        Ok(())
    } else {
        Err(VortexError::InvalidArgument(ArgKind::SlotCount))
    }
}
