//! The rules of functions.

ghost use Rattle.std.specs.Prelude.{◌≡◌, Some, None, length, true, false};
ghost use Rattle.vx_value.specs.View.{type_of};
ghost use Rattle.vx_mask.specs.Masks.{bits_in};
ghost use Rattle.vx_fn.specs.declared.function.ScalarFnRef.TheVariants as fn_of;
ghost use Rattle.vx_fn.specs.declared.functions.pack.PackOptions.{PackOptions};
ghost use Rattle.vx_tree.specs.Tree.{dtype, len, datum, node, function, slot, slots_of, no_slots, slice_of, filter_of, is_function};
ghost use Rattle.vx_rule.specs.Rules.{IsPartOf};
ghost use Rattle.vx_rule.specs.Tags.{applies, is_cast, is_pack, is_open};
ghost use Rattle.vx_rule.specs.Calls.{is_null_test, null_test};
ghost use Rattle.vx_rule.specs.Answers.{Answers};
ghost use Rattle.vx_rule.specs.SliceLaws.{function_lets};

use crate::adaptors::{FilterReduce, FilterReduceAdaptor, SliceReduce, SliceReduceAdaptor};
use crate::encodings::{own_rules, parent_rules};
use crate::nodes::{function_node, function_parts, structs_node};
use crate::raw_node::RawNode;
use crate::rule::{ArrayReduceRule, DynArrayParentReduceRule};
use crate::rule_set::ReduceVTable;
use crate::scalar_fns::is_open;
use crate::slots::{choose_slots, only_argument, slice_slots, truths, with_absent};
use std::alloc::Global;
use std::ops::Range;
use vx_fn::ScalarFnRef;
use vx_mask::Mask;
use vx_tree::{ArrayKind, ArrayRef, ArrayView, ScalarFn, VTable, is_same_type};
use vx_value::{DType, VortexResult};

impl ReduceVTable for ScalarFn {
    #[tactic(auto, using(crate::proofs::ChildrenLemmas::function_rules))]
    fn reduce(alloc: Global, array: &ArrayView<'_, ScalarFn>) -> VortexResult<Option<RawNode>> {
        own_rules!(alloc, array; TrivialCastRule, TrivialNullTestRule, PackRule)
    }

    #[tactic(auto, using(crate::proofs::ChildrenLemmas::function_quiet))]
    fn reduce_parent(
        alloc: Global,
        child: &ArrayView<'_, ScalarFn>,
        parent: &ArrayRef,
        slot: usize,
    ) -> VortexResult<Option<RawNode>> {
        parent_rules!(ScalarFn, alloc, child, parent, slot; FilterReduceAdaptor, SliceReduceAdaptor)
    }
}

impl SliceReduce for ScalarFn {
    fn slice(
        alloc: Global,
        array: &ArrayView<'_, ScalarFn>,
        range: Range<usize>,
    ) -> VortexResult<Option<RawNode>> {
        slice_of_function(alloc, array.array(), range)
    }

    ghost lets = { function_lets };
}

impl FilterReduce for ScalarFn {
    #[tactic(auto, using(crate::proofs::ChildrenLemmas::filter_shut))]
    fn filter(
        alloc: Global,
        array: &ArrayView<'_, ScalarFn>,
        mask: &Mask,
    ) -> VortexResult<Option<RawNode>> {
        if !is_open(array.array()) {
            return Ok(None);
        }
        filter_of_function(alloc, array.array(), mask)
    }
}

/// The rule of a cast to its argument's own type.
#[derive(Clone, Copy, Debug)]
struct TrivialCastRule;

impl ArrayReduceRule<ScalarFn> for TrivialCastRule {
    ghost covers = { λ t. applies is_cast (datum t) };

    fn reduce(
        &self,
        alloc: Global,
        array: &ArrayView<'_, ScalarFn>,
    ) -> VortexResult<Option<RawNode>> {
        match array.array().kind() {
            ArrayKind::ScalarFn(ScalarFnRef::Cast(target), slots) => {
                cast_to_own_type(alloc, array.array(), target, only_argument(slots))
            }
            _ => Ok(None),
        }
    }
}

/// The rule of a test for null of an argument that has no nulls.
#[derive(Clone, Copy, Debug)]
struct TrivialNullTestRule;

impl ArrayReduceRule<ScalarFn> for TrivialNullTestRule {
    ghost covers = { λ t. applies is_null_test (datum t) };

    fn reduce(
        &self,
        alloc: Global,
        array: &ArrayView<'_, ScalarFn>,
    ) -> VortexResult<Option<RawNode>> {
        match array.array().kind() {
            ArrayKind::ScalarFn(ScalarFnRef::IsNull, slots) => {
                null_test_of_non_nullable(alloc, array.array(), only_argument(slots), false)
            }
            ArrayKind::ScalarFn(ScalarFnRef::IsNotNull, slots) => {
                null_test_of_non_nullable(alloc, array.array(), only_argument(slots), true)
            }
            _ => Ok(None),
        }
    }
}

/// The rule of a struct of arguments.
#[derive(Clone, Copy, Debug)]
struct PackRule;

impl ArrayReduceRule<ScalarFn> for PackRule {
    ghost covers = { λ t. applies is_pack (datum t) };

    fn reduce(
        &self,
        alloc: Global,
        array: &ArrayView<'_, ScalarFn>,
    ) -> VortexResult<Option<RawNode>> {
        match array.array().kind() {
            ArrayKind::ScalarFn(ScalarFnRef::Pack(_), slots) => {
                struct_of_arguments(alloc, array.array(), slots)
            }
            _ => Ok(None),
        }
    }
}

/// Row P1: a struct of arguments is the column of structs, whose validity is absent.
fn struct_of_arguments(
    alloc: Global,
    array: &ArrayRef,
    slots: &[Option<ArrayRef>],
) -> VortexResult<Option<RawNode>>
    requires { (options : PackOptions) × (array.now ≡ node (dtype array.now) (len array.now) (function (fn_of.Pack options)) (slots_of slots.now)) }
    ensures { Answers None array.now result }
{
    array.well_formed_tree();
    let columns = with_absent(alloc, slots)?;
    let structs = structs_node(alloc, array, array.len(), columns)?;
    Ok(Some(RawNode::done(alloc, structs)))
}

/// Row S4: a slice passes below a function.
fn slice_of_function(
    alloc: Global,
    child: &ArrayRef,
    range: Range<usize>,
) -> VortexResult<Option<RawNode>>
    requires function { is_function (datum child.now) ≡ true }
    requires open { is_open (datum child.now) ≡ true }
    requires part { IsPartOf range.start range.end child.now }
    ensures { Answers (Some 0) (slice_of range.start range.end child.now) result }
{
    let (scalar_fn, slots) = function_parts(child);
    let len = range.end - range.start;
    let slices = slice_slots(alloc, slots, child.len(), range)?;
    let call = function_node(alloc, child, scalar_fn, len, slices)?;
    RawNode::raw(alloc, call)
}

/// Row F7: a filter passes below a function.
fn filter_of_function(alloc: Global, child: &ArrayRef, mask: &Mask) -> VortexResult<Option<RawNode>>
    requires function { is_function (datum child.now) ≡ true }
    requires open { is_open (datum child.now) ≡ true }
    requires long { length (bits_in mask.now) ≡ len child.now }
    ensures { Answers (Some 0) (filter_of (bits_in mask.now) child.now) result }
{
    let (scalar_fn, slots) = function_parts(child);
    let choices = choose_slots(alloc, slots, mask)?;
    let call = function_node(alloc, child, scalar_fn, mask.true_count(), choices)?;
    RawNode::raw(alloc, call)
}

/// Row C1: a cast to its argument's own type is the argument.
#[tactic(auto, using(crate::proofs::FitsLemmas::fit_C1, crate::proofs::QuietLemmas::cast_quiet))]
fn cast_to_own_type(
    alloc: Global,
    array: &ArrayRef,
    target: &DType,
    child: &ArrayRef,
) -> VortexResult<Option<RawNode>>
    requires { array.now ≡ node (dtype array.now) (len array.now) (function (fn_of.Cast target.now)) (slot child.now no_slots) }
    ensures { Answers None array.now result }
{
    if !is_same_type(child.dtype(), target) {
        return Ok(None);
    }
    Ok(Some(RawNode::done(alloc, child.clone()?)))
}

/// Row N1: a test for null of a non-nullable argument is the constant `value`, which is false for `IsNull` and true for
/// `IsNotNull`.
#[tactic(auto, using(crate::proofs::FitsLemmas::fit_N1, crate::proofs::QuietLemmas::null_test_quiet))]
fn null_test_of_non_nullable(
    alloc: Global,
    array: &ArrayRef,
    child: &ArrayRef,
    value: bool,
) -> VortexResult<Option<RawNode>>
    requires { array.now ≡ node (dtype array.now) (len array.now) (function (null_test value)) (slot child.now no_slots) }
    ensures { Answers None array.now result }
{
    if child.dtype().is_nullable() {
        return Ok(None);
    }
    Ok(Some(RawNode::done(alloc, truths(alloc, value, array.len())?)))
}
