//! The entries of a session's lists of rules.

ghost use Rattle.std.specs.Prelude.{◌≡◌, ◌≤◌, IfOk, IfErr};
ghost use Rattle.vx_tree.specs.Slots.{HasSlot};
ghost use Rattle.vx_rule.specs.Counts.{MayStand, IsUnanswered, spent_after};
ghost use Rattle.vx_rule.specs.Entries.{entry_refusals, entry_spent};

use crate::builtins::BuiltinRule;
use crate::handed_in::DynReduceParentRule;
use crate::raw_node::RawNode;
use std::alloc::Global;
use vx_tree::ArrayRef;
use vx_value::VortexResult;

/// A rule of a session. (own)
#[derive(Drop)]
pub enum RuleEntry {
    Boxed(Box<dyn DynReduceParentRule>),
    Builtin(BuiltinRule),
}

/// Asks a boxed rule.
fn ask_boxed(
    rule: &mut Box<dyn DynReduceParentRule>,
    alloc: Global,
    child: &ArrayRef,
    parent: &ArrayRef,
    slot: usize,
) -> VortexResult<Option<RawNode>>
    requires { HasSlot slot child.now parent.now }
    ensures answer { IfOk result (MayStand parent.now) }
    ensures refused { IfErr result (IsUnanswered (refusals rule.old) (refusals rule.new)) }
    ensures refusals_kept { refusals rule.old ≤ refusals rule.new }
    ensures spent_kept { spent_so_far rule.old ≤ spent_so_far rule.new }
    ensures spent { spent_so_far rule.new ≡ spent_after (spent_so_far rule.old) result }
{
    rule.reduce_parent(alloc, child, parent, slot)
}

impl RuleEntry {
    /// Returns what the answers cost so far: 1 plus its tree's weight for each. Stays at `u64::MAX`. (own)
    pub fn spent(&self) -> u64
        ensures { result ≡ entry_spent refusals spent_so_far self.now }
    {
        match self {
            RuleEntry::Boxed(rule) => rule.spent(),
            RuleEntry::Builtin(rule) => rule.spent(),
        }
    }

    /// Returns the answer of `child`, which must be in `slot` of `parent`, or `None` if the rule declines. Fails with `OutOfMemory`, or with
    /// `Refused` if a boxed rule counted a refusal; its fields are the rule's own. (own)
    pub fn ask(
        &mut self,
        alloc: Global,
        child: &ArrayRef,
        parent: &ArrayRef,
        slot: usize,
    ) -> VortexResult<Option<RawNode>>
        requires { HasSlot slot child.now parent.now }
        ensures answer { IfOk result (MayStand parent.now) }
        ensures refused { IfErr result (IsUnanswered (entry_refusals refusals spent_so_far self.old) (entry_refusals refusals spent_so_far self.new)) }
        ensures refusals_kept { entry_refusals refusals spent_so_far self.old ≤ entry_refusals refusals spent_so_far self.new }
        ensures spent_kept { entry_spent refusals spent_so_far self.old ≤ entry_spent refusals spent_so_far self.new }
        ensures spent { entry_spent refusals spent_so_far self.new ≡ spent_after (entry_spent refusals spent_so_far self.old) result }
    {
        match self {
            RuleEntry::Boxed(rule) => ask_boxed(rule, alloc, child, parent, slot),
            RuleEntry::Builtin(rule) => rule.ask(alloc, child, parent, slot),
        }
    }
}
