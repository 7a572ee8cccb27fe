//! The rules of slices.

ghost use Rattle.std.specs.Prelude.{◌≡◌, ◌∷◌, [], Some, None, true};
ghost use Rattle.vx_fn.specs.declared.function.ScalarFnRef.TheVariants as fn_of;
ghost use Rattle.vx_tree.specs.Tree.{datum, slice_of, is_slice};
ghost use Rattle.vx_rule.specs.Rules.{IsPartOf};
ghost use Rattle.vx_rule.specs.Calls.{IsCallOf};
ghost use Rattle.vx_rule.specs.Answers.{Answers};
ghost use Rattle.vx_rule.specs.SliceLaws.{slice_lets};

use crate::adaptors::{GetItemReduce, GetItemReduceAdaptor, SliceReduce, SliceReduceAdaptor};
use crate::encodings::parent_rules;
use crate::nodes::item_of;
use crate::raw_node::RawNode;
use crate::rule::DynArrayParentReduceRule;
use crate::rule_set::ReduceVTable;
use std::alloc::Global;
use std::ops::Range;
use vx_tree::{ArrayKind, ArrayRef, ArrayView, IntoArray, Slice, SliceArray, VTable};
use vx_value::{Name, VortexResult};

impl ReduceVTable for Slice {
    #[tactic(auto, using(crate::proofs::QuietLemmas::own_quiet))]
    fn reduce(_alloc: Global, _array: &ArrayView<'_, Slice>) -> VortexResult<Option<RawNode>> {
        Ok(None)
    }

    #[tactic(auto, using(crate::proofs::ChildrenLemmas::slice_quiet))]
    fn reduce_parent(
        alloc: Global,
        child: &ArrayView<'_, Slice>,
        parent: &ArrayRef,
        slot: usize,
    ) -> VortexResult<Option<RawNode>> {
        parent_rules!(Slice, alloc, child, parent, slot; GetItemReduceAdaptor, SliceReduceAdaptor)
    }
}

impl SliceReduce for Slice {
    fn slice(
        alloc: Global,
        array: &ArrayView<'_, Slice>,
        range: Range<usize>,
    ) -> VortexResult<Option<RawNode>> {
        slice_of_slice(alloc, array.array(), range)
    }

    ghost lets = { slice_lets };
}

impl GetItemReduce for Slice {
    fn get_item(
        alloc: Global,
        array: &ArrayView<'_, Slice>,
        parent: &ArrayRef,
        name: &Name,
    ) -> VortexResult<Option<RawNode>> {
        item_of_slice(alloc, parent, name, array.array())
    }
}

/// Row G2: the field of a slice is the slice of the field.
fn item_of_slice(
    alloc: Global,
    parent: &ArrayRef,
    name: &Name,
    child: &ArrayRef,
) -> VortexResult<Option<RawNode>>
    requires slice { is_slice (datum child.now) ≡ true }
    requires call { IsCallOf (fn_of.GetItem name.now) (child.now ∷ []) parent.now }
    ensures { Answers (Some 0) parent.now result }
{
    parent.well_formed_tree();
    let ArrayKind::Slice(inner, start, stop) = child.kind() else {
        unreachable!()
    };
    let item = item_of(alloc, name, inner.clone()?)?;
    let slice = SliceArray::new(alloc, item, start..stop)?;
    RawNode::raw_first(alloc, slice.into_array())
}

/// Row S1: a slice of a slice is one slice.
#[tactic(auto, using(crate::proofs::FitsLemmas::fit_S1))]
fn slice_of_slice(
    alloc: Global,
    child: &ArrayRef,
    range: Range<usize>,
) -> VortexResult<Option<RawNode>>
    requires slice { is_slice (datum child.now) ≡ true }
    requires part { IsPartOf range.start range.end child.now }
    ensures { Answers (Some 0) (slice_of range.start range.end child.now) result }
{
    let ArrayKind::Slice(inner, start, _) = child.kind() else {
        unreachable!()
    };
    let _bound = inner.len();
    let range = start + range.start..start + range.end;
    let slice = SliceArray::new(alloc, inner.clone()?, range)?;
    Ok(Some(RawNode::done(alloc, slice.into_array())))
}
