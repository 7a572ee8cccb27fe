//! Rules that a caller hands in, boxed.

ghost use Rattle.std.specs.Prelude.{ℕ, ◌≡◌, ◌≤◌, IfOk, IfErr};
ghost use Rattle.vx_tree.specs.Slots.{HasSlot};
ghost use Rattle.vx_rule.specs.Counts.{MayStand, IsUnanswered, spent_after};

use crate::raw_node::RawNode;
use std::alloc::Global;
use vx_tree::ArrayRef;
use vx_value::VortexResult;

/// A rule of a child for its parent, to be boxed and registered. (own)
pub trait DynReduceParentRule: Drop {
    // the number of refusals, and what the answers cost; both stay at their last value
    ghost refusals: { Self → ℕ };

    ghost spent_so_far: { Self → ℕ };

    /// Returns the answer of `child`, which must be in `slot` of `parent`, or `None` to decline. An answer has the parent's type and
    /// length, and its value in every row that has one; it is free of faults if the parent is.
    ///
    /// # Errors
    ///
    /// `OutOfMemory`, or `Refused`, which must be counted. Its fields are ignored: the caller fills them in.
    fn reduce_parent(
        &mut self,
        alloc: Global,
        child: &ArrayRef,
        parent: &ArrayRef,
        slot: usize,
    ) -> VortexResult<Option<RawNode>>
        requires { HasSlot slot child.now parent.now }
        ensures answer { IfOk result (MayStand parent.now) }
        ensures refused { IfErr result (IsUnanswered (refusals self.old) (refusals self.new)) }
        ensures refusals_kept { refusals self.old ≤ refusals self.new }
        ensures spent_kept { spent_so_far self.old ≤ spent_so_far self.new }
        ensures spent { spent_so_far self.new ≡ spent_after (spent_so_far self.old) result };

    /// Returns what the answers cost so far: 1 plus its tree's weight for each. Stays at `u64::MAX`. A `Spent` can keep it.
    fn spent(&self) -> u64
        ensures { result ≡ spent_so_far self.now };
}
