//! Optimizes a root.

ghost use Rattle.std.specs.Prelude.{◌≡◌, ◌<◌};
ghost use Rattle.vx_opt.specs.Limits.{call_limit};
ghost use Rattle.vx_opt.specs.Counted.{GoesOptimizing};
ghost use Rattle.vx_opt.specs.Entries.{entries_of};

use crate::pass::first_answer;
use crate::progress::Progress;
use crate::registry::RuleRegistry;
use std::alloc::Global;
use vx_rule::{DynReduceParentRule, RawNode};
use vx_tree::ArrayRef;
use vx_value::VortexResult;

/// The number of rewrites that one root may take.
const MAX_OPTIMIZER_REWRITE_PASS: u32 = 100;

/// The rewrite at which a call gives up. (own)
const MAX_OPTIMIZER_REWRITES: u32 = 4_194_304;

/// Rewrites the root of `array` until no row fits and each rule of `rules` declines, or a limit is reached. The slots that an answer
/// names are optimized before the next pass, each as a root of its own. `total` counts the rewrites of the call.
///
/// One function, since functions that call one another can't be given a registry of boxed rules yet.
#[cycle(optimize)]
pub(crate) fn optimize_root(
    alloc: Global,
    array: ArrayRef,
    rules: &mut RuleRegistry,
    total: &mut u32,
) -> VortexResult<Progress>
    requires { total.old < call_limit }
    ensures { GoesOptimizing array total.old total.new (entries_of ⟦<dyn DynReduceParentRule as DynReduceParentRule>⟧ rules.old) (entries_of ⟦<dyn DynReduceParentRule as DynReduceParentRule>⟧ rules.new) result }
{
    let mut current = array;
    let mut at_root = 0;
    while let Some(raw) = first_answer(alloc, &current, rules)? {
        current.well_formed_tree();
        at_root += 1;
        *total += 1;
        if at_root > MAX_OPTIMIZER_REWRITE_PASS || *total == MAX_OPTIMIZER_REWRITES {
            return Ok(stopped(raw, at_root, *total));
        }
        let RawNode { tree, optimize } = raw;
        current = tree;
        for i in 0..optimize.len() {
            let slot = optimize[i];
            let (parent, child) = current.take_slot(slot)?;
            match optimize_root(alloc, child, rules, total)? {
                Progress::Settled(child) => current = parent.put(slot, child)?,
                halted => return Ok(halted.within(parent, slot)?),
            }
        }
    }
    Ok(Progress::Settled(current))
}

/// Returns the tree of `raw`, the answer at which a limit is reached, with the numbers of the rewrite.
fn stopped(raw: RawNode, at_root: u32, total: u32) -> Progress
    ensures { result ≡ Progress.Stopped raw.tree at_root total }
{
    let RawNode { tree, optimize: _ } = raw;
    Progress::Stopped {
        tree,
        at_root,
        total,
    }
}
