//! Optimizing a root, and then each of its slots so.

ghost use Rattle.std.specs.Prelude.{◌<◌};
ghost use Rattle.vx_opt.specs.Limits.{call_limit};
ghost use Rattle.vx_opt.specs.Counted.{GivesDescending};
ghost use Rattle.vx_opt.specs.Entries.{entries_of};

use crate::registry::RuleRegistry;
use crate::root::optimize_root;
use crate::slots::{has_child, number_of_slots};
use std::alloc::Global;
use vx_rule::DynReduceParentRule;
use vx_tree::ArrayRef;
use vx_value::{VortexError, VortexResult};

/// Optimizes the root of `array`, `depth` nodes below the root of the call, and then each of its children in the same way. A depth of
/// `u64::MAX` is `OutOfMemory`.
#[cycle(descend)]
pub(crate) fn descend(
    alloc: Global,
    array: ArrayRef,
    depth: u64,
    rules: &mut RuleRegistry,
    total: &mut u32,
) -> VortexResult<ArrayRef>
    requires { total.old < call_limit }
    ensures { GivesDescending array total.old total.new (entries_of ⟦<dyn DynReduceParentRule as DynReduceParentRule>⟧ rules.old) (entries_of ⟦<dyn DynReduceParentRule as DynReduceParentRule>⟧ rules.new) result }
{
    if depth == u64::MAX {
        return Err(VortexError::OutOfMemory);
    }
    let progress = optimize_root(alloc, array, rules, total)?;
    let mut current = progress.into_result()?;
    for slot in 0..number_of_slots(&current) {
        if has_child(&current, slot) {
            let (parent, child) = current.take_slot(slot)?;
            let child = descend(alloc, child, depth + 1, rules, total)?;
            current = parent.put(slot, child)?;
        }
    }
    Ok(current)
}
