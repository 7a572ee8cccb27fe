//! Nodes whose slots are taken out and put back.

ghost use Rattle.std.specs.Prelude.{◌≡◌, ◌==◌, ◌⊎◌, ◌+◌, ◌^◌, ◌<◌, ◌≤◌, IfOk, MatchOption, true};
ghost use Rattle.vx_value.specs.View.{type_of};
ghost use Rattle.vx_value.specs.Supported.{has_columns};
ghost use Rattle.vx_tree.specs.Tree.{dtype, len, datum, slots, slots_of};
ghost use Rattle.vx_tree.specs.TreeView.{data_of};
ghost use Rattle.vx_value.specs.Errors.{OnlyOutOfMemory};
ghost use Rattle.vx_tree.specs.Slots.{put, IsHole, IsPresent, HasSlot, AllAbsent, NoneBefore, IsFirstAt};
ghost use Rattle.vx_tree.specs.Well.{IsNodeOf};

use crate::array::{ArrayRef, Encoding, Node, know_well};
use std::marker::Model;
use std::rc::Rc;
use vx_value::{DType, VortexResult};

/// A node whose slots can be taken out. Once one is, it has no other owner. A node with an empty slot that its encoding
/// doesn't let be empty is never an `ArrayRef`. (own)
pub struct Suspended {
    node: Rc<Node>,
    /// The slots before this one are empty.
    first: usize,
}

// by hand: see `ArrayRef`
impl Drop for Suspended {
    fn drop(self) {
        let Suspended { node, first: _ } = self;
        drop(node);
    }
}

impl Model for Suspended {
    ghost use Rattle.vx_tree.specs.Tree.{Tree, coded_tree};

    ghost Value = { Tree };

    ghost coded = { coded_tree };

    ghost use Rattle.vx_tree.specs.TreeView.{tree_of};
    ghost use Rattle.std.specs.Prelude.{◌≡◌, true};
    ghost use Rattle.vx_value.specs.Supported.{has_columns};
    ghost use Rattle.vx_tree.specs.Tree.{slots, dtype};
    ghost use Rattle.vx_tree.specs.Slots.{NoneBefore};

    ghost view = { λ a. tree_of a.node.value };

    ghost invariant = { λ a. NoneBefore a.first (slots (tree_of a.node.value))
        × has_columns (dtype (tree_of a.node.value)) ≡ true };
}

impl ArrayRef {
    /// Takes the child out of `slot`, counted from 0, in place. Copies the parts of the root only if it is shared. Fails only
    /// with `OutOfMemory`. (own)
    pub fn take_slot(self, slot: usize) -> VortexResult<(Suspended, ArrayRef)>
        requires { IsPresent slot self }
        ensures ok { IfOk result (λ p. (put slot p.1 p.0 ≡ self) × IsHole slot p.0 × IsNodeOf self × HasSlot slot p.1 self) }
        ensures err { OnlyOutOfMemory result }
    {
        self.well_formed_tree();
        let mut node = self.into_root();
        let root = Rc::make_mut(&mut node)?;
        let taken = root.slots[slot].take();
        let Some(child) = taken else { unreachable!() };
        Ok((Suspended { node, first: 0 }, child))
    }
}

impl Suspended {
    /// Returns the root of `array`, with its slots. Copies nothing. (own)
    pub fn of(array: ArrayRef) -> Suspended
        ensures is { result ≡ array }
        ensures whole { IsNodeOf result }
    {
        array.well_formed_tree();
        Suspended {
            node: array.into_root(),
            first: 0,
        }
    }

    /// Returns the tree of the node, which must meet the conditions of its encoding. Copies nothing. (own)
    pub fn into_array(self) -> ArrayRef
        requires { IsNodeOf self }
        ensures { result ≡ self }
    {
        let Suspended { node, first: _ } = self;
        know_well(&node.slots);
        ArrayRef { node }
    }

    /// Returns the number of rows.
    pub fn len(&self) -> usize
        ensures { result ≡ len self.now }
    {
        self.node.len
    }

    /// Returns whether there are no rows.
    pub fn is_empty(&self) -> bool
        ensures { result ≡ (len self.now == 0) }
    {
        self.node.len == 0
    }

    /// Returns the type of the rows.
    pub fn dtype(&self) -> &DType
        ensures dtype { type_of result.now ≡ dtype self.now }
        ensures supported { has_columns (dtype self.now) ≡ true }
    {
        &self.node.dtype
    }

    /// Returns the data of the node.
    pub fn encoding(&self) -> &Encoding
        ensures { data_of result.now ≡ datum self.now }
    {
        &self.node.encoding
    }

    /// Returns the slots of the node, in order; those that were taken are empty.
    pub fn slots(&self) -> &[Option<ArrayRef>]
        ensures { slots_of result.now ≡ slots self.now }
    {
        &self.node.slots
    }

    /// Returns the first slot that isn't empty, counted from 0. Slots that were taken out in order aren't looked at again. (own)
    pub fn first_slot(&self) -> Option<usize>
        ensures { MatchOption result (AllAbsent (slots self.now)) (λ i. IsFirstAt i (slots self.now)) }
    {
        first_from(&self.node.slots, self.first)
    }

    /// Takes the child out of `slot`, counted from 0, in place. Copies the parts of the node only if it is shared. Fails only
    /// with `OutOfMemory`. (own)
    pub fn take_slot(self, slot: usize) -> VortexResult<(Suspended, ArrayRef)>
        requires { IsPresent slot self }
        ensures ok { IfOk result (λ p. IsHole slot p.0 × (put slot p.1 p.0 ≡ self)) }
        ensures err { OnlyOutOfMemory result }
    {
        let Suspended { mut node, first } = self;
        let root = Rc::make_mut(&mut node)?;
        let taken = root.slots[slot].take();
        let Some(child) = taken else { unreachable!() };
        let first = first_left(first, slot);
        Ok((Suspended { node, first }, child))
    }

    /// Puts `child` into the empty `slot`, counted from 0. Copies nothing. Fails only with `OutOfMemory`. (own)
    pub fn fill(self, slot: usize, child: ArrayRef) -> VortexResult<Suspended>
        requires { IsHole slot self }
        ensures ok { IfOk result (λ t. t ≡ put slot child self) }
        ensures err { OnlyOutOfMemory result }
    {
        let Suspended { mut node, first } = self;
        let root = Rc::make_mut(&mut node)?;
        root.slots[slot] = Some(child);
        let first = first_filled(first, slot);
        Ok(Suspended { node, first })
    }

    /// Puts `child` into the empty `slot`, counted from 0, so that the node meets the conditions of its encoding. Copies nothing.
    /// Fails only with `OutOfMemory`. (own)
    pub fn put(self, slot: usize, child: ArrayRef) -> VortexResult<ArrayRef>
        requires hole { IsHole slot self }
        requires fits { IsNodeOf (put slot child self) }
        ensures ok { IfOk result (λ t. t ≡ put slot child self) }
        ensures err { OnlyOutOfMemory result }
    {
        let filled = self.fill(slot, child)?;
        Ok(filled.into_array())
    }
}

/// Returns a slot before which all are empty, from `first`, such a slot, once `taken` is empty too.
fn first_left(first: usize, taken: usize) -> usize
    requires { taken + 1 < 2 ^ 64 }
    ensures { (result ≡ first) ⊎ ((first ≡ taken) × (result ≡ taken + 1)) }
{
    if first == taken { taken + 1 } else { first }
}

/// Returns a slot before which all are empty, from `first`, such a slot, once `filled` isn't.
fn first_filled(first: usize, filled: usize) -> usize
    ensures { ((result ≡ first) × (first ≤ filled)) ⊎ ((result ≡ filled) × (filled < first)) }
{
    if filled < first { filled } else { first }
}

/// Returns the first of `slots` that isn't empty, counted from 0. All before `first` must be empty.
fn first_from(slots: &[Option<ArrayRef>], first: usize) -> Option<usize>
    requires { NoneBefore first (slots_of slots.now) }
    ensures { MatchOption result (AllAbsent (slots_of slots.now)) (λ i. IsFirstAt i (slots_of slots.now)) }
{
    for index in first..slots.len() {
        match &slots[index] {
            Some(_child) => return Some(index),
            None => {}
        }
    }
    None
}
