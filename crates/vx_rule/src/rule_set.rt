//! The rules of each encoding, as sets.

ghost use Rattle.std.specs.Prelude.{◌≡◌, Some, None, IfOk, true, false};
ghost use Rattle.vx_value.specs.Errors.{OnlyOutOfMemory};
ghost use Rattle.vx_tree.specs.Slots.{HasSlot};
ghost use Rattle.vx_rule.specs.Answers.{Answers, has_rules};

use crate::raw_node::RawNode;
use std::alloc::Global;
use std::marker::PhantomData;
use vx_tree::{ArrayRef, ArrayView, Constant, Dict, VTable};
use vx_value::VortexResult;

/// Encodings with their rules. (own)
pub trait ReduceVTable: VTable {
    /// Returns the answer of `array` itself: `None` exactly if no row fits. Fails only with `OutOfMemory`. (own)
    fn reduce(alloc: Global, array: &ArrayView<'_, Self>) -> VortexResult<Option<RawNode>>
        ensures { Answers None array.now.array.now result };

    /// Returns the answer of `child`, which is in `slot` of `parent`: `None` exactly if no row fits there. Fails only with
    /// `OutOfMemory`. (own)
    fn reduce_parent(
        alloc: Global,
        child: &ArrayView<'_, Self>,
        parent: &ArrayRef,
        slot: usize,
    ) -> VortexResult<Option<RawNode>>
        requires { HasSlot slot child.now.array.now parent.now }
        ensures { Answers (Some slot) parent.now result };
}

/// The rules of an encoding's node itself.
#[derive(Debug, Default, Drop)]
pub struct ReduceRuleSet<V> {
    encoding: PhantomData<V>,
}

impl<V: ReduceVTable> ReduceRuleSet<V> {
    /// Returns the rules of `V`.
    pub fn new() -> ReduceRuleSet<V> {
        ReduceRuleSet {
            encoding: PhantomData,
        }
    }

    /// Returns the answer of `array` itself: `None` exactly if no row fits. Fails only with `OutOfMemory`.
    pub fn evaluate(&self, alloc: Global, array: &ArrayView<'_, V>) -> VortexResult<Option<RawNode>>
        ensures { Answers None array.now.array.now result }
    {
        V::reduce(alloc, array)
    }
}

/// The parents for which a set has rules. (own)
#[derive(Clone, Copy, Debug)]
enum Parents {
    /// Those of every encoding.
    All,
    /// Dictionaries.
    Dictionaries,
}

/// The rules of an encoding for its parents.
#[derive(Debug, Drop)]
pub struct ParentRuleSet<V> {
    parents: Parents,
    encoding: PhantomData<V>,
}

/// The rules of constants for dictionaries: row D1. They answer exactly if the constant is the values of a dictionary, in slot 1.
pub const TAKE_RULES: ParentRuleSet<Constant> = ParentRuleSet {
    parents: Parents::Dictionaries,
    encoding: PhantomData,
};

impl<V: ReduceVTable> Default for ParentRuleSet<V> {
    fn default() -> ParentRuleSet<V>
        ensures { result.parents ≡ Parents.All }
    {
        ParentRuleSet::new()
    }
}

impl<V: ReduceVTable> ParentRuleSet<V> {
    /// Returns the rules of `V`, for parents of every encoding.
    pub fn new() -> ParentRuleSet<V>
        ensures { result.parents ≡ Parents.All }
    {
        ParentRuleSet {
            parents: Parents::All,
            encoding: PhantomData,
        }
    }

    /// Returns the answer of `child`, which is in `slot` of `parent`, if the set has rules for `parent`: `None` exactly if no
    /// row fits there. `None` if it has none. Fails only with `OutOfMemory`.
    pub fn evaluate(
        &self,
        alloc: Global,
        child: &ArrayView<'_, V>,
        parent: &ArrayRef,
        slot: usize,
    ) -> VortexResult<Option<RawNode>>
        requires { HasSlot slot child.now.array.now parent.now }
        ensures answer { has_rules self.now.parents parent.now ≡ true → Answers (Some slot) parent.now result }
        ensures other { has_rules self.now.parents parent.now ≡ false → IfOk result (λ o. o ≡ None) }
        ensures err { OnlyOutOfMemory result }
    {
        match self.parents {
            Parents::Dictionaries if !parent.is::<Dict>() => Ok(None),
            _ => V::reduce_parent(alloc, child, parent, slot),
        }
    }
}
