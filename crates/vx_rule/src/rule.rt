//! Rewrite rules, as traits: of a node itself, and of a child for its parent.

ghost use Rattle.std.specs.Prelude.{◌≡◌, Bool, IfOk, Some, None, true, false};
ghost use Rattle.vx_value.specs.Errors.{OnlyOutOfMemory};
ghost use Rattle.vx_tree.specs.Tree.{Tree};
ghost use Rattle.vx_tree.specs.Slots.{HasSlot};
ghost use Rattle.vx_rule.specs.Answers.{Answers};

use crate::raw_node::RawNode;
use std::alloc::Global;
use std::marker::PhantomData;
use vx_tree::{ArrayRef, ArrayView, Matcher, VTable};
use vx_value::VortexResult;

/// Rules for a node itself.
pub trait ArrayReduceRule<V: VTable> {
    // whether the rule's rows are about this node
    ghost covers: { Tree → Bool };

    /// Returns the answer for `array` if the rule covers it: `None` exactly if no row fits. `None` if the rule doesn't cover
    /// it. Fails only with `OutOfMemory`.
    fn reduce(&self, alloc: Global, array: &ArrayView<'_, V>) -> VortexResult<Option<RawNode>>
        ensures answer { covers array.now.array.now ≡ true → Answers None array.now.array.now result }
        ensures other { covers array.now.array.now ≡ false → IfOk result (λ o. o ≡ None) }
        ensures err { OnlyOutOfMemory result };
}

/// Rules of a child for the parents that `Parent` matches.
pub trait ArrayParentReduceRule<V: VTable> {
    type Parent: Matcher;

    /// Returns the answer of `child`, which is in `slot` of `parent`: `None` exactly if no row fits there. `Parent` must match
    /// `parent`. Fails only with `OutOfMemory`.
    fn reduce_parent(
        &self,
        alloc: Global,
        child: &ArrayView<'_, V>,
        parent: &ArrayRef,
        slot: usize,
    ) -> VortexResult<Option<RawNode>>
        requires fits { Self.Parent.fits parent.now ≡ true }
        requires slot { HasSlot slot child.now.array.now parent.now }
        ensures { Answers (Some slot) parent.now result };
}

/// Rules of a child for any parent, and whether they cover it.
pub trait DynArrayParentReduceRule<V: VTable> {
    ghost covers: { Tree → Bool };

    /// Returns whether the rule covers `parent`. Takes no memory.
    fn matches(&self, parent: &ArrayRef) -> bool
        ensures { result ≡ covers parent.now };

    /// Returns the answer of `child`, which is in `slot` of `parent`, if the rule covers `parent`: `None` exactly if no row
    /// fits there. `None` if the rule doesn't cover `parent`. Fails only with `OutOfMemory`.
    fn reduce_parent(
        &self,
        alloc: Global,
        child: &ArrayView<'_, V>,
        parent: &ArrayRef,
        slot: usize,
    ) -> VortexResult<Option<RawNode>>
        requires { HasSlot slot child.now.array.now parent.now }
        ensures answer { covers parent.now ≡ true → Answers (Some slot) parent.now result }
        ensures other { covers parent.now ≡ false → IfOk result (λ o. o ≡ None) }
        ensures err { OnlyOutOfMemory result };
}

/// A rule of `V` as a rule for any parent: it covers those that the rule's `Parent` matches.
#[derive(Debug, Drop)]
pub struct ParentReduceRuleAdapter<V, R> {
    rule: R,
    encoding: PhantomData<V>,
}

impl<V: VTable, R: ArrayParentReduceRule<V>> ParentReduceRuleAdapter<V, R> {
    /// Returns `rule` as a rule for any parent.
    pub fn new(rule: R) -> ParentReduceRuleAdapter<V, R>
        ensures { result.rule ≡ rule }
    {
        ParentReduceRuleAdapter {
            rule,
            encoding: PhantomData,
        }
    }
}

impl<V: VTable, R: ArrayParentReduceRule<V>> DynArrayParentReduceRule<V>
    for ParentReduceRuleAdapter<V, R> {
    ghost covers = { λ t. R.Parent.fits t };

    fn matches(&self, parent: &ArrayRef) -> bool {
        R::Parent::matches(parent)
    }

    fn reduce_parent(
        &self,
        alloc: Global,
        child: &ArrayView<'_, V>,
        parent: &ArrayRef,
        slot: usize,
    ) -> VortexResult<Option<RawNode>> {
        if !R::Parent::matches(parent) {
            return Ok(None);
        }
        self.rule.reduce_parent(alloc, child, parent, slot)
    }
}
