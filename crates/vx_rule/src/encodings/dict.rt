//! The rules of dictionaries.

ghost use Rattle.std.specs.Prelude.{◌≡◌, Some, None, length, true};
ghost use Rattle.vx_mask.specs.Masks.{bits_in};
ghost use Rattle.vx_tree.specs.Tree.{len, datum, slice_of, filter_of, is_dict};
ghost use Rattle.vx_rule.specs.Rules.{IsPartOf};
ghost use Rattle.vx_rule.specs.Answers.{Answers};
ghost use Rattle.vx_rule.specs.SliceLaws.{dict_lets};

use crate::adaptors::{FilterReduce, FilterReduceAdaptor, SliceReduce, SliceReduceAdaptor};
use crate::encodings::parent_rules;
use crate::nodes::{dict_node, dict_parts};
use crate::raw_node::RawNode;
use crate::rule::DynArrayParentReduceRule;
use crate::rule_set::ReduceVTable;
use std::alloc::Global;
use std::ops::Range;
use vx_mask::Mask;
use vx_tree::{ArrayRef, ArrayView, Dict, FilterArray, IntoArray, SliceArray, VTable};
use vx_value::VortexResult;

impl ReduceVTable for Dict {
    #[tactic(auto, using(crate::proofs::QuietLemmas::own_quiet))]
    fn reduce(_alloc: Global, _array: &ArrayView<'_, Dict>) -> VortexResult<Option<RawNode>> {
        Ok(None)
    }

    #[tactic(auto, using(crate::proofs::ChildrenLemmas::dict_quiet))]
    fn reduce_parent(
        alloc: Global,
        child: &ArrayView<'_, Dict>,
        parent: &ArrayRef,
        slot: usize,
    ) -> VortexResult<Option<RawNode>> {
        parent_rules!(Dict, alloc, child, parent, slot; FilterReduceAdaptor, SliceReduceAdaptor)
    }
}

impl SliceReduce for Dict {
    fn slice(
        alloc: Global,
        array: &ArrayView<'_, Dict>,
        range: Range<usize>,
    ) -> VortexResult<Option<RawNode>> {
        slice_of_dict(alloc, array.array(), range)
    }

    ghost lets = { dict_lets };
}

impl FilterReduce for Dict {
    fn filter(
        alloc: Global,
        array: &ArrayView<'_, Dict>,
        mask: &Mask,
    ) -> VortexResult<Option<RawNode>> {
        filter_of_dict(alloc, array.array(), mask)
    }
}

/// Row S6: a slice passes to the codes of a dictionary.
fn slice_of_dict(
    alloc: Global,
    child: &ArrayRef,
    range: Range<usize>,
) -> VortexResult<Option<RawNode>>
    requires dict { is_dict (datum child.now) ≡ true }
    requires part { IsPartOf range.start range.end child.now }
    ensures { Answers (Some 0) (slice_of range.start range.end child.now) result }
{
    let (codes, values) = dict_parts(child);
    let slice = SliceArray::new(alloc, codes.clone()?, range)?;
    let dict = dict_node(alloc, slice.into_array(), values.clone()?)?;
    RawNode::raw_first(alloc, dict)
}

/// Row F9: a filter passes to the codes of a dictionary.
fn filter_of_dict(alloc: Global, child: &ArrayRef, mask: &Mask) -> VortexResult<Option<RawNode>>
    requires dict { is_dict (datum child.now) ≡ true }
    requires long { length (bits_in mask.now) ≡ len child.now }
    ensures { Answers (Some 0) (filter_of (bits_in mask.now) child.now) result }
{
    let (codes, values) = dict_parts(child);
    let filter = FilterArray::new(alloc, codes.clone()?, mask.clone()?)?;
    let dict = dict_node(alloc, filter.into_array(), values.clone()?)?;
    RawNode::raw_first(alloc, dict)
}
