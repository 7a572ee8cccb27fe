//! The rules of constants.

ghost use Rattle.std.specs.Prelude.{◌≡◌, Some, None, IfOk, IfSome, IfNone, true};
ghost use Rattle.vx_value.specs.Errors.{OnlyOutOfMemory};
ghost use Rattle.vx_mask.specs.Masks.{bits_in};
ghost use Rattle.vx_value.specs.Types.{nullability_of};
ghost use Rattle.vx_value.specs.IsOf.{is_of};
ghost use Rattle.vx_tree.specs.Tree.{dtype, len, datum, slots_of, slice_of, filter_of, dict_of, is_constant};
ghost use Rattle.vx_tree.specs.Validities.{nullability_by, HasRows};
ghost use Rattle.vx_tree.specs.declared.validity.Validity.TheVariants.{Array as ValidityArray};
ghost use Rattle.vx_rule.specs.Rules.{IsPartOf, constants, masked_by, named_by};
ghost use Rattle.vx_rule.specs.Tags.{applies};
ghost use Rattle.vx_rule.specs.Constants.{folds, slot_value, constant_values};
ghost use Rattle.vx_rule.specs.Answers.{Answers};
ghost use Rattle.vx_rule.specs.SliceLaws.{constant_lets};

use crate::adaptors::{
    BetweenReduce, BetweenReduceAdaptor, CastReduce, CastReduceAdaptor, FillNullReduce,
    FillNullReduceAdaptor, FilterReduce, FilterReduceAdaptor, NotReduce, NotReduceAdaptor,
    SliceReduce, SliceReduceAdaptor, TakeReduce, TakeReduceAdaptor,
};
use crate::encodings::parent_rules;
use crate::nodes::{constant_like, function_parts, masked_node, repeated};
use crate::raw_node::RawNode;
use crate::rule::DynArrayParentReduceRule;
use crate::rule_set::ReduceVTable;
use std::alloc::Global;
use std::ops::Range;
use vx_fn::{BetweenOptions, apply_row};
use vx_mask::Mask;
use vx_tree::{
    ArrayKind, ArrayRef, ArrayView, Constant, ConstantArray, IntoArray, VTable, Validity,
};
use vx_value::{DType, Nullability, Scalar, VortexError, VortexResult};

impl ReduceVTable for Constant {
    #[tactic(auto, using(crate::proofs::QuietLemmas::own_quiet))]
    fn reduce(_alloc: Global, _array: &ArrayView<'_, Constant>) -> VortexResult<Option<RawNode>> {
        Ok(None)
    }

    #[tactic(auto, using(crate::proofs::ChildrenLemmas::constant_quiet))]
    fn reduce_parent(
        alloc: Global,
        child: &ArrayView<'_, Constant>,
        parent: &ArrayRef,
        slot: usize,
    ) -> VortexResult<Option<RawNode>> {
        parent_rules!(Constant, alloc, child, parent, slot; BetweenReduceAdaptor, CastReduceAdaptor, FillNullReduceAdaptor,
            FilterReduceAdaptor, NotReduceAdaptor, SliceReduceAdaptor, TakeReduceAdaptor)
    }
}

impl SliceReduce for Constant {
    fn slice(
        alloc: Global,
        array: &ArrayView<'_, Constant>,
        range: Range<usize>,
    ) -> VortexResult<Option<RawNode>> {
        slice_of_constant(alloc, array.array(), range)
    }

    ghost lets = { constant_lets };
}

impl FilterReduce for Constant {
    fn filter(
        alloc: Global,
        array: &ArrayView<'_, Constant>,
        mask: &Mask,
    ) -> VortexResult<Option<RawNode>> {
        filter_of_constant(alloc, array.array(), mask)
    }
}

impl CastReduce for Constant {
    /// Row K1: a cast of a constant is a constant, if the cast has a value.
    fn cast(
        alloc: Global,
        _array: &ArrayView<'_, Constant>,
        parent: &ArrayRef,
        _dtype: &DType,
    ) -> VortexResult<Option<RawNode>> {
        fold_constants(alloc, parent)
    }
}

impl NotReduce for Constant {
    /// Row K2: a negation of a constant is a constant.
    fn invert(
        alloc: Global,
        _array: &ArrayView<'_, Constant>,
        parent: &ArrayRef,
    ) -> VortexResult<Option<RawNode>> {
        fold_constants(alloc, parent)
    }
}

impl BetweenReduce for Constant {
    /// Row K3: a `between` of constants is a constant.
    fn between(
        alloc: Global,
        _array: &ArrayView<'_, Constant>,
        parent: &ArrayRef,
        _lower: &ArrayRef,
        _upper: &ArrayRef,
        _options: &BetweenOptions,
    ) -> VortexResult<Option<RawNode>> {
        fold_constants(alloc, parent)
    }
}

impl FillNullReduce for Constant {
    /// Row K4: a `fill_null` of constants is a constant.
    fn fill_null(
        alloc: Global,
        _array: &ArrayView<'_, Constant>,
        parent: &ArrayRef,
        _fill_value: &ArrayRef,
    ) -> VortexResult<Option<RawNode>> {
        fold_constants(alloc, parent)
    }
}

impl TakeReduce for Constant {
    fn take(
        alloc: Global,
        array: &ArrayView<'_, Constant>,
        parent: &ArrayRef,
        codes: &ArrayRef,
    ) -> VortexResult<Option<RawNode>> {
        dict_of_constant(alloc, parent, codes, array.array())
    }
}

/// Row S2: a slice of a constant is a shorter constant.
#[tactic(auto, using(crate::proofs::FitsLemmas::fit_S2))]
fn slice_of_constant(
    alloc: Global,
    child: &ArrayRef,
    range: Range<usize>,
) -> VortexResult<Option<RawNode>>
    requires constant { is_constant (datum child.now) ≡ true }
    requires part { IsPartOf range.start range.end child.now }
    ensures { Answers (Some 0) (slice_of range.start range.end child.now) result }
{
    let constant = constant_like(alloc, child, range.end - range.start)?;
    Ok(Some(RawNode::done(alloc, constant)))
}

/// Row F6: a filter of a constant is a shorter constant.
#[tactic(auto, using(crate::proofs::FitsLemmas::fit_F6))]
fn filter_of_constant(alloc: Global, child: &ArrayRef, mask: &Mask) -> VortexResult<Option<RawNode>>
    requires { is_constant (datum child.now) ≡ true }
    ensures { Answers (Some 0) (filter_of (bits_in mask.now) child.now) result }
{
    let constant = constant_like(alloc, child, mask.true_count())?;
    Ok(Some(RawNode::done(alloc, constant)))
}

/// Row D1: a dictionary of one value is a constant, null where `codes` is.
fn dict_of_constant(
    alloc: Global,
    parent: &ArrayRef,
    codes: &ArrayRef,
    values: &ArrayRef,
) -> VortexResult<Option<RawNode>>
    requires constant { is_constant (datum values.now) ≡ true }
    requires dict { parent.now ≡ dict_of codes.now values.now }
    ensures { Answers (Some 1) parent.now result }
{
    parent.well_formed_tree();
    let ArrayKind::Constant(scalar) = values.kind() else {
        unreachable!()
    };
    let validity = codes.validity(alloc)?;
    let named = named_by(alloc, parent, scalar, validity)?;
    Ok(Some(RawNode::done(alloc, named)))
}

/// Returns the rows of `array`, a dictionary whose values are all `scalar`, by the validity of its codes. Fails only with
/// `OutOfMemory`.
fn named_by(
    alloc: Global,
    array: &ArrayRef,
    scalar: &Scalar,
    validity: Validity,
) -> VortexResult<ArrayRef>
    requires value { is_of (dtype array.now) scalar.now.value ≡ true }
    requires nullable { nullability_by validity ≡ Nullability.Nullable → nullability_of (dtype array.now) ≡ Nullability.Nullable }
    requires rows { HasRows validity (len array.now) }
    ensures ok { IfOk result (λ t. t ≡ named_by (dtype array.now) (len array.now) scalar.now.value validity) }
    ensures err { OnlyOutOfMemory result }
{
    match validity {
        Validity::AllInvalid => repeated(alloc, array, None),
        Validity::Array(rows) => masked_by(alloc, array, scalar, rows),
        _ => copies(alloc, array, scalar),
    }
}

/// Returns rows of `array`'s type and length, each `scalar`, null where `rows` is false. Fails only with `OutOfMemory`.
fn masked_by(
    alloc: Global,
    array: &ArrayRef,
    scalar: &Scalar,
    rows: ArrayRef,
) -> VortexResult<ArrayRef>
    requires value { is_of (dtype array.now) scalar.now.value ≡ true }
    requires nullable { nullability_of (dtype array.now) ≡ Nullability.Nullable }
    requires rows { HasRows (ValidityArray rows) (len array.now) }
    ensures ok { IfOk result (λ t. t ≡ masked_by (dtype array.now) (len array.now) scalar.now.value rows) }
    ensures err { OnlyOutOfMemory result }
{
    if scalar.is_null() {
        return repeated(alloc, array, None);
    }
    let constant = copies(alloc, array, scalar)?;
    masked_node(alloc, array, constant, Some(rows))
}

/// Returns the constant of `array`'s type and length with the value of `scalar`, which must be of that type. Fails only with
/// `OutOfMemory`.
fn copies(alloc: Global, array: &ArrayRef, scalar: &Scalar) -> VortexResult<ArrayRef>
    requires { is_of (dtype array.now) scalar.now.value ≡ true }
    ensures ok { IfOk result (λ t. t ≡ constants (dtype array.now) scalar.now.value (len array.now)) }
    ensures err { OnlyOutOfMemory result }
{
    match scalar.value() {
        Some(value) => repeated(alloc, array, Some(value.clone()?)),
        None => repeated(alloc, array, None),
    }
}

/// Rows K1 to K4: a function of constants is a constant, if it has a value. `parent` must apply one of the functions that are
/// folded. The answer is `None` exactly if a slot holds no constant, or the function has no value. Fails only with
/// `OutOfMemory`.
fn fold_constants(alloc: Global, parent: &ArrayRef) -> VortexResult<Option<RawNode>>
    requires { applies folds (datum parent.now) ≡ true }
    ensures { Answers (Some 0) parent.now result }
{
    let (scalar_fn, slots) = function_parts(parent);
    let Some(scalars) = constants(alloc, slots)? else {
        return Ok(None);
    };
    match apply_row(alloc, scalar_fn, scalars.as_slice()) {
        Ok(scalar) => {
            parent.well_formed_tree();
            let constant = ConstantArray::new_unchecked(alloc, scalar, parent.len())?;
            Ok(Some(RawNode::done(alloc, constant.into_array())))
        }
        Err(VortexError::Fault) => Ok(None),
        Err(e) => Err(e),
    }
}

/// Returns the scalars of the constants in `slots`: `None` exactly if one of them holds no constant.
fn constants(alloc: Global, slots: &[Option<ArrayRef>]) -> VortexResult<Option<Vec<Scalar>>>
    ensures none { IfOk result (λ o. IfNone o (constant_values (slots_of slots.now) ≡ None)) }
    ensures values { IfOk result (λ o. IfSome o (λ v. constant_values (slots_of slots.now) ≡ Some v.items)) }
    ensures err { OnlyOutOfMemory result }
{
    let mut scalars = Vec::with_capacity(alloc, slots.len())?;
    for index in 0..slots.len() {
        match constant_in(&slots[index])? {
            Some(scalar) => scalars.push(scalar)?,
            None => return Ok(None),
        }
    }
    Ok(Some(scalars))
}

/// Returns the scalar of the constant in `slot`: `None` exactly if it holds no constant.
fn constant_in(slot: &Option<ArrayRef>) -> VortexResult<Option<Scalar>>
    ensures ok { IfOk result (λ o. o ≡ slot_value slot.now) }
    ensures err { OnlyOutOfMemory result }
{
    let Some(child) = slot else {
        return Ok(None);
    };
    match child.kind() {
        ArrayKind::Constant(scalar) => Ok(Some(scalar.clone()?)),
        _ => Ok(None),
    }
}
