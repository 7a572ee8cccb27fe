//! Asks the table for an answer.

ghost use Rattle.std.specs.Prelude.{◌≡◌, IfOk, None, Some};
ghost use Rattle.vx_value.specs.Errors.{OnlyOutOfMemory};
ghost use Rattle.vx_tree.specs.Tree.{datum};
ghost use Rattle.vx_tree.specs.Slots.{HasSlot};
ghost use Rattle.vx_rule.specs.Answers.{IsAnswer};

use crate::raw_node::RawNode;
use crate::rule_set::{ParentRuleSet, ReduceRuleSet, ReduceVTable};
use std::alloc::Global;
use vx_tree::{ArrayRef, ArrayView, by_encoding};
use vx_value::VortexResult;

/// Returns the answer of `array` itself by the rules of `V`, its encoding, whose data is `payload`.
#[inline]
fn evaluate<V: ReduceVTable>(
    alloc: Global,
    array: &ArrayRef,
    payload: &V::TypedArrayData,
) -> VortexResult<Option<RawNode>>
    requires { V.stands_for payload.now ≡ datum array.now }
    ensures answer { IfOk result (λ o. IsAnswer None array.now o) }
    ensures err { OnlyOutOfMemory result }
{
    ReduceRuleSet::<V>::new().evaluate(alloc, &ArrayView::new(array, payload))
}

/// Returns the answer of `child`, which is in `slot` of `parent`, by the rules of `V`, its encoding, whose data is `payload`.
#[inline]
fn evaluate_child<V: ReduceVTable>(
    alloc: Global,
    child: &ArrayRef,
    parent: &ArrayRef,
    slot: usize,
    payload: &V::TypedArrayData,
) -> VortexResult<Option<RawNode>>
    requires data { V.stands_for payload.now ≡ datum child.now }
    requires slot { HasSlot slot child.now parent.now }
    ensures answer { IfOk result (λ o. IsAnswer (Some slot) parent.now o) }
    ensures err { OnlyOutOfMemory result }
{
    ParentRuleSet::<V>::new().evaluate(alloc, &ArrayView::new(child, payload), parent, slot)
}

/// Returns the answer of `array` itself, by the rows F1 to F4, P1, C1 and N1: `None` exactly if none of them fits. Fails only
/// with `OutOfMemory`.
pub fn reduce(alloc: Global, array: &ArrayRef) -> VortexResult<Option<RawNode>>
    ensures answer { IfOk result (λ o. IsAnswer None array.now o) }
    ensures err { OnlyOutOfMemory result }
{
    by_encoding!(array.encoding(), evaluate(alloc, array))
}

/// Returns the answer of `child`, which is in `slot` of `parent`, by the rows S1 to S6, F5 to F9, G1 to G4, M1, D1, D2 and K1
/// to K4: `None` exactly if none of them fits there. Fails only with `OutOfMemory`.
pub fn reduce_parent(
    alloc: Global,
    child: &ArrayRef,
    parent: &ArrayRef,
    slot: usize,
) -> VortexResult<Option<RawNode>>
    requires { HasSlot slot child.now parent.now }
    ensures answer { IfOk result (λ o. IsAnswer (Some slot) parent.now o) }
    ensures err { OnlyOutOfMemory result }
{
    by_encoding!(child.encoding(), evaluate_child(alloc, child, parent, slot))
}
