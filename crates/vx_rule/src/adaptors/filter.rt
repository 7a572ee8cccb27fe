//! Filters of a child: the rows F5 to F9.

ghost use Rattle.std.specs.Prelude.{◌≡◌, Some, length};
ghost use Rattle.vx_mask.specs.Masks.{bits_in};
ghost use Rattle.vx_tree.specs.Tree.{len, filter_of};
ghost use Rattle.vx_rule.specs.Answers.{Answers};

use crate::raw_node::RawNode;
use crate::rule::ArrayParentReduceRule;
use std::alloc::Global;
use vx_mask::Mask;
use vx_tree::{ArrayKind, ArrayRef, ArrayView, Filter, VTable};
use vx_value::VortexResult;

/// Encodings that have a row for a filter.
pub trait FilterReduce: VTable {
    /// Returns the answer for the filter of `array` by `mask`, which must have as many rows: `None` exactly if no row fits.
    /// Fails only with `OutOfMemory`.
    fn filter(
        alloc: Global,
        array: &ArrayView<'_, Self>,
        mask: &Mask,
    ) -> VortexResult<Option<RawNode>>
        requires long { length (bits_in mask.now) ≡ len array.now.array.now }
        ensures { Answers (Some 0) (filter_of (bits_in mask.now) array.now.array.now) result };
}

/// The rule of `V` for a filter above it.
#[derive(Debug, Default, Drop)]
pub struct FilterReduceAdaptor<V>(pub V);

impl<V: FilterReduce> ArrayParentReduceRule<V> for FilterReduceAdaptor<V> {
    type Parent = Filter;

    fn reduce_parent(
        &self,
        alloc: Global,
        child: &ArrayView<'_, V>,
        parent: &ArrayRef,
        _slot: usize,
    ) -> VortexResult<Option<RawNode>> {
        let ArrayKind::Filter(_, mask) = parent.kind() else {
            unreachable!()
        };
        V::filter(alloc, child, mask)
    }
}
