//! One pass over a root.

ghost use Rattle.std.specs.Prelude.{⊤};
ghost use Rattle.vx_opt.specs.Counted.{AsksIn, AsksSlot, Passes};
ghost use Rattle.vx_opt.specs.Entries.{entries_of};
ghost use Rattle.vx_tree.specs.Slots.{HasSlot};

use crate::registry::RuleRegistry;
use crate::slots::{child_in, number_of_slots};
use std::alloc::Global;
use vx_rule::{DynReduceParentRule, RawNode, reduce, reduce_parent};
use vx_tree::ArrayRef;
use vx_value::VortexResult;

/// Returns the answer of `child`, which must be in `slot`: that of the rules in `rules` for it, or else by its own rows.
fn answer_of(
    alloc: Global,
    child: &ArrayRef,
    array: &ArrayRef,
    slot: usize,
    rules: &mut RuleRegistry,
) -> VortexResult<Option<RawNode>>
    requires { HasSlot slot child.now array.now }
    ensures { AsksSlot slot array.now child.now (entries_of ⟦<dyn DynReduceParentRule as DynReduceParentRule>⟧ rules.old) (entries_of ⟦<dyn DynReduceParentRule as DynReduceParentRule>⟧ rules.new) result }
{
    if let Some(raw) = rules.ask(alloc, child, array, slot)? {
        return Ok(Some(raw));
    }
    reduce_parent(alloc, child, array, slot)
}

/// Returns the answer of the child in `slot`, or `None` if there is no child or no answer.
fn answer_in(
    alloc: Global,
    array: &ArrayRef,
    slot: usize,
    rules: &mut RuleRegistry,
) -> VortexResult<Option<RawNode>>
    requires { ⊤ }
    ensures { AsksIn slot array.now (entries_of ⟦<dyn DynReduceParentRule as DynReduceParentRule>⟧ rules.old) (entries_of ⟦<dyn DynReduceParentRule as DynReduceParentRule>⟧ rules.new) result }
{
    match child_in(array, slot) {
        Some(child) => answer_of(alloc, child, array, slot, rules),
        None => Ok(None),
    }
}

/// Returns the first answer: of `array` itself, then of its children in the order of their slots, for each of which `rules` are asked
/// before its own rows.
pub(crate) fn first_answer(
    alloc: Global,
    array: &ArrayRef,
    rules: &mut RuleRegistry,
) -> VortexResult<Option<RawNode>>
    requires { ⊤ }
    ensures { Passes array.now (entries_of ⟦<dyn DynReduceParentRule as DynReduceParentRule>⟧ rules.old) (entries_of ⟦<dyn DynReduceParentRule as DynReduceParentRule>⟧ rules.new) result }
{
    if let Some(raw) = reduce(alloc, array)? {
        return Ok(Some(raw));
    }
    for slot in 0..number_of_slots(array) {
        if let Some(raw) = answer_in(alloc, array, slot, rules)? {
            return Ok(Some(raw));
        }
    }
    Ok(None)
}
