//! Trees with slots replaced.

ghost use Rattle.std.specs.Prelude.{◌≡◌, ◌⊎◌, IfOk, IfErr, OnOk, None, Some, length, option_map};
ghost use Rattle.vx_tree.specs.Tree.{slots_of};
ghost use Rattle.vx_tree.specs.Conditions.{Checks};
ghost use Rattle.vx_value.specs.View.{type_of};
ghost use Rattle.vx_tree.specs.Well.{shape, shape_of, shapes};
ghost use Rattle.vx_tree.specs.Slots.{put};
ghost use Rattle.vx_tree.specs.Replacements.{is_kept, wrong_in, kept_refusal, slot_refusal, first_refusal, each_refusal};
ghost use Rattle.vx_tree.specs.Replacements.{with_slots, with_slot_refusal, with_slots_refusal};

use crate::array::ArrayRef;
use crate::conditions::check_that;
use crate::types::is_same_type;
use std::alloc::Global;
use vx_value::{ArgKind, DType, VortexError, VortexResult};

/// What a slot keeps when its tree is replaced. (own)
#[derive(Clone, Copy)]
pub(crate) enum Kept {
    Presence,
    Dtype,
    Len,
}

impl Kept {
    /// Returns whether a slot that holds `new` in place of `old` keeps it.
    fn is_kept(self, old: &Option<ArrayRef>, new: &Option<ArrayRef>) -> bool
        ensures { result ≡ is_kept self (option_map shape_of old.now) (option_map shape_of new.now) }
    {
        match (old, new) {
            (Some(old), Some(new)) => match self {
                Kept::Presence => true,
                Kept::Dtype => is_same_type(old.dtype(), new.dtype()),
                Kept::Len => old.len() == new.len(),
            },
            (None, None) => true,
            _ => !matches!(self, Kept::Presence),
        }
    }

    /// Returns whether `slot` has it of a tree of type `dtype` and `len` rows.
    pub(crate) fn is_shape(self, dtype: &DType, len: usize, slot: &Option<ArrayRef>) -> bool
        ensures { result ≡ is_kept self (Some (shape (type_of dtype.now) len)) (option_map shape_of slot.now) }
    {
        let Some(child) = slot else {
            return !matches!(self, Kept::Presence);
        };
        match self {
            Kept::Presence => true,
            Kept::Dtype => is_same_type(dtype, child.dtype()),
            Kept::Len => len == child.len(),
        }
    }

    /// Returns the error if `slot` doesn't keep it.
    pub(crate) fn wrong_in(self, slot: usize) -> ArgKind
        ensures { result ≡ wrong_in self slot }
    {
        match self {
            Kept::Presence => ArgKind::SlotMissing { slot },
            Kept::Dtype => ArgKind::SlotType { slot },
            Kept::Len => ArgKind::SlotLen { slot },
        }
    }

    /// Checks that `slot`, which held `old`, keeps it with `new`.
    fn check(self, slot: usize, old: &Option<ArrayRef>, new: &Option<ArrayRef>) -> VortexResult<()>
        ensures { Checks result (kept_refusal self slot (option_map shape_of old.now) (option_map shape_of new.now)) }
    {
        check_that(self.is_kept(old, new), self.wrong_in(slot))
    }

    /// Checks that each slot keeps it with the new slots.
    fn check_each(self, old: &[Option<ArrayRef>], new: &[Option<ArrayRef>]) -> VortexResult<()>
        requires { length old.now ≡ length new.now }
        ensures { Checks result (first_refusal self 0 (shapes (slots_of old.now)) (shapes (slots_of new.now))) }
    {
        for slot in 0..old.len() {
            self.check(slot, &old[slot], &new[slot])?;
        }
        Ok(())
    }
}

/// Checks that `slot`, which held `old`, keeps presence, type and length with `new`.
#[tactic(auto, using(crate::proofs::ConditionsLemmas::in_turn))]
fn check_slot(slot: usize, old: &Option<ArrayRef>, new: &Option<ArrayRef>) -> VortexResult<()>
    ensures { Checks result (slot_refusal slot (option_map shape_of old.now) (option_map shape_of new.now)) }
{
    Kept::Presence.check(slot, old, new)?;
    Kept::Dtype.check(slot, old, new)?;
    Kept::Len.check(slot, old, new)
}

/// Checks that each slot keeps presence, each type and each length with the new slots, in this order.
#[tactic(auto, using(crate::proofs::ConditionsLemmas::in_turn))]
fn check_slots(old: &[Option<ArrayRef>], new: &[Option<ArrayRef>]) -> VortexResult<()>
    requires { length old.now ≡ length new.now }
    ensures { Checks result (each_refusal (shapes (slots_of old.now)) (shapes (slots_of new.now))) }
{
    Kept::Presence.check_each(old, new)?;
    Kept::Dtype.check_each(old, new)?;
    Kept::Len.check_each(old, new)
}

impl ArrayRef {
    /// Returns the tree with `child` in `slot`, counted from 0. Copies the parts of the root only if it is shared.
    ///
    /// The first condition that fails gives the error: `InvalidArgument` with `SlotCount` if there is no such slot,
    /// `SlotMissing` if it is empty, `SlotType` if its tree has another type, and `SlotLen` if that has another length.
    pub fn with_slot(self, alloc: Global, slot: usize, child: ArrayRef) -> VortexResult<ArrayRef>
        ensures ok { IfOk result (λ t. t ≡ put slot child self) }
        ensures valid { OnOk result (with_slot_refusal slot child self ≡ None) }
        ensures refused { IfErr result (λ e. (e ≡ VortexError.OutOfMemory) ⊎ (with_slot_refusal slot child self ≡ Some e)) }
    {
        self.well_formed_tree();
        let Some(old) = self.slots().get(slot) else {
            return Err(VortexError::InvalidArgument(ArgKind::SlotCount));
        };
        let new = Some(child);
        check_slot(slot, old, &new)?;
        let mut node = self.into_node()?;
        node.slots[slot] = new;
        Ok(node.into_array(alloc)?)
    }

    /// Returns the tree with these slots. Copies the other parts of the root only if it is shared.
    ///
    /// The first condition that fails gives the error, with the first slot that breaks it: `InvalidArgument` with `SlotCount`
    /// if the number of slots differs, `SlotMissing` if one of two slots is empty and the other isn't, `SlotType` if their
    /// trees differ in type, and `SlotLen` if they differ in length.
    pub fn with_slots(self, alloc: Global, slots: Vec<Option<ArrayRef>>) -> VortexResult<ArrayRef>
        ensures ok { IfOk result (λ t. t ≡ with_slots (slots_of slots.items) self) }
        ensures valid { OnOk result (with_slots_refusal (slots_of slots.items) self ≡ None) }
        ensures refused { IfErr result (λ e. (e ≡ VortexError.OutOfMemory) ⊎ (with_slots_refusal (slots_of slots.items) self ≡ Some e)) }
    {
        self.well_formed_tree();
        let old = self.slots();
        if slots.len() != old.len() {
            return Err(VortexError::InvalidArgument(ArgKind::SlotCount));
        }
        check_slots(old, &slots)?;
        let mut node = self.into_node()?;
        node.slots = slots;
        Ok(node.into_array(alloc)?)
    }
}
