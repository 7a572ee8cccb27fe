//! Chunked arrays have no rules.

ghost use Rattle.std.specs.Prelude.{None};

use crate::raw_node::RawNode;
use crate::rule_set::ReduceVTable;
use std::alloc::Global;
use vx_tree::{ArrayRef, ArrayView, Chunked};
use vx_value::VortexResult;

impl ReduceVTable for Chunked {
    #[tactic(auto, using(crate::proofs::QuietLemmas::own_quiet))]
    fn reduce(_alloc: Global, _array: &ArrayView<'_, Chunked>) -> VortexResult<Option<RawNode>> {
        Ok(None)
    }

    #[tactic(auto, using(crate::proofs::ChildrenLemmas::quiet))]
    fn reduce_parent(
        _alloc: Global,
        child: &ArrayView<'_, Chunked>,
        parent: &ArrayRef,
        slot: usize,
    ) -> VortexResult<Option<RawNode>> {
        Ok(None)
    }
}
