//! Interleaved arrays have no rules.

ghost use Rattle.std.specs.Prelude.{None};

use crate::raw_node::RawNode;
use crate::rule_set::ReduceVTable;
use std::alloc::Global;
use vx_tree::{ArrayRef, ArrayView, Interleave};
use vx_value::VortexResult;

impl ReduceVTable for Interleave {
    #[tactic(auto, using(crate::proofs::QuietLemmas::own_quiet))]
    fn reduce(_alloc: Global, _array: &ArrayView<'_, Interleave>) -> VortexResult<Option<RawNode>> {
        Ok(None)
    }

    #[tactic(auto, using(crate::proofs::ChildrenLemmas::quiet))]
    fn reduce_parent(
        _alloc: Global,
        child: &ArrayView<'_, Interleave>,
        parent: &ArrayRef,
        slot: usize,
    ) -> VortexResult<Option<RawNode>> {
        Ok(None)
    }
}
