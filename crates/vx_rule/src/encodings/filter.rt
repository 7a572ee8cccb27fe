//! The rules of filters.

ghost use Rattle.std.specs.Prelude.{◌≡◌, ℕ, ◌∷◌, [], Some, None, IfOk, length, true, false};
ghost use Rattle.vx_value.specs.Errors.{OnlyOutOfMemory};
ghost use Rattle.vx_mask.specs.Masks.{bits_in, is_all_true};
ghost use Rattle.vx_mask.specs.Places.{true_count, combined, IsRun};
ghost use Rattle.vx_fn.specs.declared.function.ScalarFnRef.TheVariants as fn_of;
ghost use Rattle.vx_tree.specs.Tree.{len, datum, filter_of, is_filter, is_struct};
ghost use Rattle.vx_rule.specs.Calls.{IsCallOf};
ghost use Rattle.vx_rule.specs.Rules.{IsApart};
ghost use Rattle.vx_rule.specs.Answers.{Answers};

use crate::adaptors::{FilterReduce, FilterReduceAdaptor, GetItemReduce, GetItemReduceAdaptor};
use crate::encodings::{own_rules, parent_rules};
use crate::nodes::{empty_column, item_of, structs_node};
use crate::raw_node::RawNode;
use crate::rule::{ArrayReduceRule, DynArrayParentReduceRule};
use crate::rule_set::ReduceVTable;
use crate::slots::choose_slots;
use std::alloc::Global;
use std::ops::Range;
use vx_mask::Mask;
use vx_tree::{
    ArrayKind, ArrayRef, ArrayView, Filter, FilterArray, IntoArray, SliceArray, Struct, VTable,
};
use vx_value::{Name, VortexResult};

impl ReduceVTable for Filter {
    fn reduce(alloc: Global, array: &ArrayView<'_, Filter>) -> VortexResult<Option<RawNode>> {
        own_rules!(alloc, array; TrivialFilterRule)
    }

    #[tactic(auto, using(crate::proofs::ChildrenLemmas::filter_quiet))]
    fn reduce_parent(
        alloc: Global,
        child: &ArrayView<'_, Filter>,
        parent: &ArrayRef,
        slot: usize,
    ) -> VortexResult<Option<RawNode>> {
        parent_rules!(Filter, alloc, child, parent, slot; FilterReduceAdaptor, GetItemReduceAdaptor)
    }
}

impl FilterReduce for Filter {
    fn filter(
        alloc: Global,
        array: &ArrayView<'_, Filter>,
        mask: &Mask,
    ) -> VortexResult<Option<RawNode>> {
        filter_of_filter(alloc, array.array(), mask)
    }
}

impl GetItemReduce for Filter {
    fn get_item(
        alloc: Global,
        array: &ArrayView<'_, Filter>,
        parent: &ArrayRef,
        name: &Name,
    ) -> VortexResult<Option<RawNode>> {
        item_of_filter(alloc, parent, name, array.array())
    }
}

/// The rule of a filter whose mask chooses all rows, none, or consecutive ones, and of one of a column of structs.
#[derive(Clone, Copy, Debug)]
struct TrivialFilterRule;

impl ArrayReduceRule<Filter> for TrivialFilterRule {
    ghost covers = { λ t. is_filter (datum t) };

    fn reduce(
        &self,
        alloc: Global,
        array: &ArrayView<'_, Filter>,
    ) -> VortexResult<Option<RawNode>> {
        let ArrayKind::Filter(child, mask) = array.array().kind() else {
            unreachable!()
        };
        if mask.all_true() {
            return filter_of_all(alloc, child, mask);
        }
        if mask.true_count() == 0 {
            return filter_of_none(alloc, child, mask);
        }
        match mask.contiguous_range() {
            Some(range) => filter_of_run(alloc, child, mask, range),
            None => filter_apart(alloc, child, mask),
        }
    }
}

/// Row G1: the field of a filter is the filter of the field.
fn item_of_filter(
    alloc: Global,
    parent: &ArrayRef,
    name: &Name,
    child: &ArrayRef,
) -> VortexResult<Option<RawNode>>
    requires filter { is_filter (datum child.now) ≡ true }
    requires call { IsCallOf (fn_of.GetItem name.now) (child.now ∷ []) parent.now }
    ensures { Answers (Some 0) parent.now result }
{
    parent.well_formed_tree();
    let ArrayKind::Filter(inner, mask) = child.kind() else {
        unreachable!()
    };
    let item = item_of(alloc, name, inner.clone()?)?;
    let filter = FilterArray::new(alloc, item, mask.clone()?)?;
    RawNode::raw_first(alloc, filter.into_array())
}

/// Row F4, if `child` is a column of structs: its rows at the true bits of `mask`, which are apart. No row fits else.
fn filter_apart(alloc: Global, child: &ArrayRef, mask: &Mask) -> VortexResult<Option<RawNode>>
    requires long { length (bits_in mask.now) ≡ len child.now }
    requires some_left { is_all_true (bits_in mask.now) ≡ false }
    requires some { ¬ (true_count (bits_in mask.now) ≡ 0) }
    requires no_run { (a b : ℕ) → ¬ (IsRun (bits_in mask.now) a b) }
    ensures { Answers None (filter_of (bits_in mask.now) child.now) result }
{
    if !child.is::<Struct>() {
        return Ok(None);
    }
    filter_of_structs(alloc, child, mask)
}

/// Row F4: a filter of a column of structs is the column of filtered fields.
fn filter_of_structs(alloc: Global, child: &ArrayRef, mask: &Mask) -> VortexResult<Option<RawNode>>
    requires structs { is_struct (datum child.now) ≡ true }
    requires long { length (bits_in mask.now) ≡ len child.now }
    requires apart { IsApart (bits_in mask.now) }
    ensures { Answers None (filter_of (bits_in mask.now) child.now) result }
{
    child.well_formed_tree();
    let choices = choose_slots(alloc, child.slots(), mask)?;
    let structs = structs_node(alloc, child, mask.true_count(), choices)?;
    RawNode::raw(alloc, structs)
}

/// Row F5: a filter of a filter is one filter, by the combined mask.
#[tactic(auto, using(crate::proofs::FitsLemmas::fit_F5))]
fn filter_of_filter(alloc: Global, child: &ArrayRef, mask: &Mask) -> VortexResult<Option<RawNode>>
    requires filter { is_filter (datum child.now) ≡ true }
    requires long { length (bits_in mask.now) ≡ len child.now }
    ensures { Answers (Some 0) (filter_of (bits_in mask.now) child.now) result }
{
    let ArrayKind::Filter(inner, outer) = child.kind() else {
        unreachable!()
    };
    let both = combine(alloc, outer, mask)?;
    let filter = FilterArray::new(alloc, inner.clone()?, both)?;
    Ok(Some(RawNode::done(alloc, filter.into_array())))
}

/// Returns the mask that chooses by `outer`, then by `inner` among the rows chosen. `inner` must have as many rows as `outer`
/// chooses. Fails only with `OutOfMemory`.
fn combine(alloc: Global, outer: &Mask, inner: &Mask) -> VortexResult<Mask>
    requires { length (bits_in inner.now) ≡ true_count (bits_in outer.now) }
    ensures ok { IfOk result (λ m. bits_in m ≡ combined (bits_in outer.now) (bits_in inner.now)) }
    ensures err { OnlyOutOfMemory result }
{
    match outer.intersect_by_rank(alloc, inner)? {
        Some(both) => Ok(both),
        None => unreachable!(),
    }
}

/// Row F1: a filter that chooses all rows is its child.
#[tactic(auto, using(crate::proofs::FitsLemmas::fit_F1))]
fn filter_of_all(alloc: Global, child: &ArrayRef, mask: &Mask) -> VortexResult<Option<RawNode>>
    requires { is_all_true (bits_in mask.now) ≡ true }
    ensures { Answers None (filter_of (bits_in mask.now) child.now) result }
{
    Ok(Some(RawNode::done(alloc, child.clone()?)))
}

/// Row F2: a filter that chooses no row is the empty column.
#[tactic(auto, using(crate::proofs::FitsLemmas::fit_F2))]
fn filter_of_none(alloc: Global, child: &ArrayRef, mask: &Mask) -> VortexResult<Option<RawNode>>
    requires some { is_all_true (bits_in mask.now) ≡ false }
    requires none { true_count (bits_in mask.now) ≡ 0 }
    ensures { Answers None (filter_of (bits_in mask.now) child.now) result }
{
    let empty = empty_column(alloc, child.dtype())?;
    Ok(Some(RawNode::done(alloc, empty)))
}

/// Row F3: a filter of consecutive rows is a slice.
#[tactic(auto, using(crate::proofs::FitsLemmas::fit_F3, crate::proofs::FiltersLemmas::run_range))]
fn filter_of_run(
    alloc: Global,
    child: &ArrayRef,
    mask: &Mask,
    range: Range<usize>,
) -> VortexResult<Option<RawNode>>
    requires long { length (bits_in mask.now) ≡ len child.now }
    requires some { is_all_true (bits_in mask.now) ≡ false }
    requires run { IsRun (bits_in mask.now) range.start range.end }
    ensures { Answers None (filter_of (bits_in mask.now) child.now) result }
{
    let slice = SliceArray::new(alloc, child.clone()?, range)?;
    Ok(Some(RawNode::done(alloc, slice.into_array())))
}
