//! The rules of masked arrays.

ghost use Rattle.std.specs.Prelude.{◌≡◌, Some, None, IfOk, ◌∷◌, [], length, option_map, true, false};
ghost use Rattle.vx_value.specs.Errors.{OnlyOutOfMemory};
ghost use Rattle.vx_mask.specs.Masks.{bits_in};
ghost use Rattle.vx_fn.specs.declared.function.ScalarFnRef.TheVariants as fn_of;
ghost use Rattle.vx_tree.specs.Tree.{dtype, len, datum, slots_of, slice_of, filter_of, dict_of, is_masked, is_columnar};
ghost use Rattle.vx_value.specs.Types.{nullability_of};
ghost use Rattle.vx_tree.specs.SlotTypes.{is_integer};
ghost use Rattle.vx_rule.specs.Rules.{IsPartOf, taken_of};
ghost use Rattle.vx_rule.specs.Calls.{IsCallOf};
ghost use Rattle.vx_rule.specs.Answers.{Answers};
ghost use Rattle.vx_rule.specs.SliceLaws.{masked_lets};

use crate::adaptors::{
    FilterReduce, FilterReduceAdaptor, GetItemReduce, GetItemReduceAdaptor, MaskReduce,
    MaskReduceAdaptor, SliceReduce, SliceReduceAdaptor, TakeReduce, TakeReduceAdaptor,
};
use crate::encodings::parent_rules;
use crate::nodes::{dict_node, function_node, item_of, masked_node, masked_parts};
use crate::raw_node::RawNode;
use crate::rule::DynArrayParentReduceRule;
use crate::rule_set::ReduceVTable;
use crate::slots::validity_column;
use std::alloc::Global;
use std::ops::Range;
use vx_fn::ScalarFnRef;
use vx_mask::Mask;
use vx_tree::{
    AnyColumnar, ArrayKind, ArrayRef, ArrayView, ConstantArray, FilterArray, IntoArray, Masked,
    SliceArray, VTable, and_lazily, choose_validity, slice_validity,
};
use vx_value::{Name, Nullability, VortexResult};

impl ReduceVTable for Masked {
    #[tactic(auto, using(crate::proofs::QuietLemmas::own_quiet))]
    fn reduce(_alloc: Global, _array: &ArrayView<'_, Masked>) -> VortexResult<Option<RawNode>> {
        Ok(None)
    }

    #[tactic(auto, using(crate::proofs::ChildrenLemmas::masked_quiet))]
    fn reduce_parent(
        alloc: Global,
        child: &ArrayView<'_, Masked>,
        parent: &ArrayRef,
        slot: usize,
    ) -> VortexResult<Option<RawNode>> {
        parent_rules!(Masked, alloc, child, parent, slot; FilterReduceAdaptor, GetItemReduceAdaptor, MaskReduceAdaptor,
            SliceReduceAdaptor, TakeReduceAdaptor)
    }
}

impl SliceReduce for Masked {
    fn slice(
        alloc: Global,
        array: &ArrayView<'_, Masked>,
        range: Range<usize>,
    ) -> VortexResult<Option<RawNode>> {
        slice_of_masked(alloc, array.array(), range)
    }

    ghost lets = { masked_lets };
}

impl FilterReduce for Masked {
    fn filter(
        alloc: Global,
        array: &ArrayView<'_, Masked>,
        mask: &Mask,
    ) -> VortexResult<Option<RawNode>> {
        filter_of_masked(alloc, array.array(), mask)
    }
}

impl GetItemReduce for Masked {
    fn get_item(
        alloc: Global,
        array: &ArrayView<'_, Masked>,
        parent: &ArrayRef,
        name: &Name,
    ) -> VortexResult<Option<RawNode>> {
        item_of_masked(alloc, parent, name, array.array())
    }
}

impl MaskReduce for Masked {
    fn mask(
        alloc: Global,
        array: &ArrayView<'_, Masked>,
        parent: &ArrayRef,
        mask: &ArrayRef,
    ) -> VortexResult<Option<RawNode>> {
        mask_of_masked(alloc, parent, array.array(), mask)
    }
}

impl TakeReduce for Masked {
    fn take(
        alloc: Global,
        array: &ArrayView<'_, Masked>,
        parent: &ArrayRef,
        codes: &ArrayRef,
    ) -> VortexResult<Option<RawNode>> {
        dict_of_masked(alloc, parent, codes, array.array())
    }
}

/// Row S5: a slice passes below a masked array.
fn slice_of_masked(
    alloc: Global,
    child: &ArrayRef,
    range: Range<usize>,
) -> VortexResult<Option<RawNode>>
    requires masked { is_masked (datum child.now) ≡ true }
    requires part { IsPartOf range.start range.end child.now }
    ensures { Answers (Some 0) (slice_of range.start range.end child.now) result }
{
    let (inner, validity) = masked_parts(child);
    let (start, end) = (range.start, range.end);
    let slice = SliceArray::new(alloc, inner.clone()?, start..end)?;
    let validity = slice_validity(alloc, validity, start..end)?;
    let masked = masked_node(alloc, child, slice.into_array(), validity)?;
    RawNode::raw(alloc, masked)
}

/// Row F8: a filter passes below a masked array.
fn filter_of_masked(alloc: Global, child: &ArrayRef, mask: &Mask) -> VortexResult<Option<RawNode>>
    requires masked { is_masked (datum child.now) ≡ true }
    requires long { length (bits_in mask.now) ≡ len child.now }
    ensures { Answers (Some 0) (filter_of (bits_in mask.now) child.now) result }
{
    let (inner, validity) = masked_parts(child);
    let filter = FilterArray::new(alloc, inner.clone()?, mask.clone()?)?;
    let validity = choose_validity(alloc, validity, mask)?;
    let masked = masked_node(alloc, child, filter.into_array(), validity)?;
    RawNode::raw(alloc, masked)
}

/// Row G3: the field of a masked array is the mask of the field.
fn item_of_masked(
    alloc: Global,
    parent: &ArrayRef,
    name: &Name,
    child: &ArrayRef,
) -> VortexResult<Option<RawNode>>
    requires masked { is_masked (datum child.now) ≡ true }
    requires call { IsCallOf (fn_of.GetItem name.now) (child.now ∷ []) parent.now }
    ensures { Answers (Some 0) parent.now result }
{
    parent.well_formed_tree();
    let (inner, validity) = masked_parts(child);
    let len = parent.len();
    let item = item_of(alloc, name, inner.clone()?)?;
    let validity = validity_column(alloc, validity, len)?;
    let slots = vec![in alloc; Some(item), Some(validity)]?;
    let mask = function_node(alloc, parent, &ScalarFnRef::Mask, len, slots)?;
    RawNode::raw_first(alloc, mask)
}

/// Row M1: a mask of a masked array masks its child by both.
fn mask_of_masked(
    alloc: Global,
    parent: &ArrayRef,
    input: &ArrayRef,
    mask: &ArrayRef,
) -> VortexResult<Option<RawNode>>
    requires masked { is_masked (datum input.now) ≡ true }
    requires call { IsCallOf fn_of.Mask (input.now ∷ mask.now ∷ []) parent.now }
    ensures { Answers (Some 0) parent.now result }
{
    parent.well_formed_tree();
    let (child, validity) = masked_parts(input);
    let len = parent.len();
    let validity = validity_column(alloc, validity, len)?;
    let both = and_lazily(alloc, mask.clone()?, validity, len)?;
    let slots = vec![in alloc; Some(child.clone()?), Some(both)]?;
    let call = function_node(alloc, parent, &ScalarFnRef::Mask, len, slots)?;
    Ok(Some(RawNode::done(alloc, call)))
}

/// Row D2: a dictionary of a masked array is the masked dictionary, if `codes` is a column or a constant of a non-nullable type.
fn dict_of_masked(
    alloc: Global,
    parent: &ArrayRef,
    codes: &ArrayRef,
    values: &ArrayRef,
) -> VortexResult<Option<RawNode>>
    requires masked { is_masked (datum values.now) ≡ true }
    requires dict { parent.now ≡ dict_of codes.now values.now }
    ensures { Answers (Some 1) parent.now result }
{
    parent.well_formed_tree();
    let (child, validity) = masked_parts(values);
    if !is_plain_column(codes) {
        return Ok(None);
    }
    let dict = dict_node(alloc, codes.clone()?, child.clone()?)?;
    let validity = take_validity(alloc, codes, validity)?;
    let masked = masked_node(alloc, parent, dict, validity)?;
    RawNode::raw(alloc, masked)
}

/// Returns whether `array` is a column or a constant of a non-nullable type.
fn is_plain_column(array: &ArrayRef) -> bool
    ensures yes { result ≡ true → (nullability_of (dtype array.now) ≡ Nullability.NonNullable) × (is_columnar (datum array.now) ≡ true) }
    ensures no { result ≡ false → nullability_of (dtype array.now) ≡ Nullability.NonNullable → is_columnar (datum array.now) ≡ false }
{
    match array.dtype().nullability() {
        Nullability::NonNullable => array.is::<AnyColumnar>(),
        Nullability::Nullable => false,
    }
}

/// Returns the validity of the rows that `codes`, which must be integers, names, given the slot of the values'. A constant stays
/// one. Fails only with `OutOfMemory`.
fn take_validity(
    alloc: Global,
    codes: &ArrayRef,
    validity: &Option<ArrayRef>,
) -> VortexResult<Option<ArrayRef>>
    requires { is_integer (dtype codes.now) ≡ true }
    ensures ok { IfOk result (λ w. w ≡ option_map (taken_of codes.now) validity.now) }
    ensures err { OnlyOutOfMemory result }
{
    let Some(child) = validity else {
        return Ok(None);
    };
    if let ArrayKind::Constant(scalar) = child.kind() {
        child.well_formed_tree();
        let rows = ConstantArray::new_unchecked(alloc, scalar.clone()?, codes.len())?;
        return Ok(Some(rows.into_array()));
    }
    Ok(Some(dict_node(alloc, codes.clone()?, child.clone()?)?))
}
