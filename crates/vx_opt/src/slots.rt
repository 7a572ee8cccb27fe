//! The slots of a root, by number.

ghost use Rattle.std.specs.Prelude.{◌≡◌, MatchOption, true, false};
ghost use Rattle.vx_tree.specs.Tree.{slots};
ghost use Rattle.vx_tree.specs.Slots.{HasSlot, IsPresent, count_slots};

use vx_tree::ArrayRef;

/// Returns the child in `slot`, counted from 0, or `None` if there is none.
pub(crate) fn child_in(array: &ArrayRef, slot: usize) -> Option<&ArrayRef>
    ensures { MatchOption result (¬ IsPresent slot array.now) (λ c. HasSlot slot c.now array.now) }
{
    let slots = array.slots();
    if slot < slots.len() {
        match &slots[slot] {
            Some(child) => Some(child),
            None => None,
        }
    } else {
        None
    }
}

/// Returns whether `slot`, counted from 0, holds a child.
pub(crate) fn has_child(array: &ArrayRef, slot: usize) -> bool
    ensures yes { result ≡ true → IsPresent slot array.now }
    ensures no { result ≡ false → ¬ IsPresent slot array.now }
{
    match child_in(array, slot) {
        Some(_child) => true,
        None => false,
    }
}

/// Returns the number of slots.
pub(crate) fn number_of_slots(array: &ArrayRef) -> usize
    ensures { result ≡ count_slots (slots array.now) }
{
    array.slots().len()
}
