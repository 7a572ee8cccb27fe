//! Slices of a child: the rows S1 to S6.

ghost use Rattle.std.specs.Prelude.{◌≡◌, ◌≤◌, ◌<◌, Some, true};
ghost use Rattle.vx_tree.specs.Tree.{Data, len, datum, slice_of};
ghost use Rattle.vx_rule.specs.Rules.{IsPartOf, lets_slice};
ghost use Rattle.vx_rule.specs.Tags.{is_open};
ghost use Rattle.vx_rule.specs.Answers.{Answers};

use crate::nodes::empty_column;
use crate::raw_node::RawNode;
use crate::rule::ArrayParentReduceRule;
use crate::scalar_fns::is_open;
use std::alloc::Global;
use std::ops::Range;
use vx_tree::{ArrayKind, ArrayRef, ArrayView, Slice, VTable};
use vx_value::VortexResult;

/// Encodings through which a slice passes.
pub trait SliceReduce: VTable {
    /// Returns the answer for the slice of `array` at `range`, which must be in bounds and have some but not all rows: `None`
    /// exactly if no row fits. Fails only with `OutOfMemory`.
    fn slice(
        alloc: Global,
        array: &ArrayView<'_, Self>,
        range: Range<usize>,
    ) -> VortexResult<Option<RawNode>>
        requires open { is_open (datum array.now.array.now) ≡ true }
        requires part { IsPartOf range.start range.end array.now.array.now }
        ensures { Answers (Some 0) (slice_of range.start range.end array.now.array.now) result };

    // a slice passes through the encoding, unless it stops above a function
    ghost lets: { (d : Data) → Self.is_kind d ≡ true → lets_slice d ≡ is_open d };
}

/// The rule of `V` for a slice above it, which doesn't answer above `get_item`. A slice of all rows is the child, a slice of no
/// rows is the empty column, and `V` answers for the rest.
#[derive(Debug, Default, Drop)]
pub struct SliceReduceAdaptor<V>(pub V);

impl<V: SliceReduce> ArrayParentReduceRule<V> for SliceReduceAdaptor<V> {
    type Parent = Slice;

    fn reduce_parent(
        &self,
        alloc: Global,
        child: &ArrayView<'_, V>,
        parent: &ArrayRef,
        _slot: usize,
    ) -> VortexResult<Option<RawNode>> {
        let ArrayKind::Slice(_, start, end) = parent.kind() else {
            unreachable!()
        };
        slice_of_child(alloc, child, start..end)
    }
}

/// Returns the answer for the slice of `child` at `range`, which must be in order and in bounds: `None` exactly if no row fits.
/// Fails only with `OutOfMemory`.
#[tactic(auto, using(crate::proofs::ChildrenLemmas::slice_stopped))]
fn slice_of_child<V: SliceReduce>(
    alloc: Global,
    child: &ArrayView<'_, V>,
    range: Range<usize>,
) -> VortexResult<Option<RawNode>>
    requires within { (range.start ≤ range.end) × (range.end ≤ len child.now.array.now) }
    ensures { Answers (Some 0) (slice_of range.start range.end child.now.array.now) result }
{
    if !is_open(child.array()) {
        return Ok(None);
    }
    if range.start == 0 && range.end == child.len() {
        return whole(alloc, child.array(), range);
    }
    if range.start == range.end {
        return empty(alloc, child.array(), range);
    }
    V::slice(alloc, child, range)
}

/// The start of rows S1 to S6: a slice of all rows is the child.
#[tactic(auto, using(crate::proofs::FitsLemmas::fit_S_whole))]
fn whole(alloc: Global, child: &ArrayRef, range: Range<usize>) -> VortexResult<Option<RawNode>>
    requires lets { lets_slice (datum child.now) ≡ true }
    requires all { (range.start ≡ 0) × (range.end ≡ len child.now) }
    ensures { Answers (Some 0) (slice_of range.start range.end child.now) result }
{
    Ok(Some(RawNode::done(alloc, child.clone()?)))
}

/// The start of rows S1 to S6: a slice of no rows is the empty column.
#[tactic(auto, using(crate::proofs::FitsLemmas::fit_S_empty))]
fn empty(alloc: Global, child: &ArrayRef, range: Range<usize>) -> VortexResult<Option<RawNode>>
    requires lets { lets_slice (datum child.now) ≡ true }
    requires none { (range.start ≡ range.end) × (0 < len child.now) }
    ensures { Answers (Some 0) (slice_of range.start range.end child.now) result }
{
    let empty = empty_column(alloc, child.dtype())?;
    Ok(Some(RawNode::done(alloc, empty)))
}
