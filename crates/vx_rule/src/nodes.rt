//! Takes nodes apart, and makes the nodes of answers.

ghost use Rattle.std.specs.Prelude.{◌≡◌, ◌≤◌, [], ◌∷◌, Some, IfOk, true, false};
ghost use Rattle.vx_value.specs.Errors.{OnlyOutOfMemory};
ghost use Rattle.vx_value.specs.View.{type_of};
ghost use Rattle.vx_value.specs.Supported.{has_columns};
ghost use Rattle.vx_tree.specs.declared.array.layout.Layout.TheVariants as layout;
ghost use Rattle.vx_tree.specs.Tree.{dtype, len, datum, node, function, masked, composed, slots_of, masked_of, dict_of, is_function, is_masked, is_dict, is_constant, is_canonical};
ghost use Rattle.vx_tree.specs.Well.{IsNode, IsWell, shapes};
ghost use Rattle.vx_value.specs.IsOf.{is_of};
ghost use Rattle.vx_value.specs.View.{cell_of};
ghost use Rattle.vx_tree.specs.SlotTypes.{is_integer};
ghost use Rattle.vx_tree.specs.Columns.{empty_of};
ghost use Rattle.vx_tree.specs.Canonicals.{canonical_tree};
ghost use Rattle.vx_rule.specs.Rules.{constants};
ghost use Rattle.vx_rule.specs.Pushes.{IsConstantLike, IsColumnSlice};
ghost use Rattle.vx_rule.specs.Items.{HasItem, IsItem};

use std::alloc::Global;
use std::ops::Range;
use vx_fn::ScalarFnRef;
use vx_tree::{
    Array, ArrayKind, ArrayParts, ArrayRef, Canonical, ConstantArray, DictArray, EmptyArrayData,
    IntoArray, Masked, MaskedData, ScalarFn, ScalarFnArray, ScalarFnData, Struct, slice_canonical,
};
use vx_value::{DType, Name, Scalar, ScalarValue, VortexResult};

/// Returns the function of `array`, which must apply one, and the slots of its arguments.
pub(crate) fn function_parts(array: &ArrayRef) -> (&ScalarFnRef, &[Option<ArrayRef>])
    requires { is_function (datum array.now) ≡ true }
    ensures shape { array.now ≡ node (dtype array.now) (len array.now) (function result.0.now) (slots_of result.1.now) }
    ensures node { IsNode (dtype array.now) (len array.now) (function result.0.now) (shapes (slots_of result.1.now)) }
    ensures well { IsWell array.now }
{
    array.well_formed_tree();
    let ArrayKind::ScalarFn(scalar_fn, slots) = array.kind() else {
        unreachable!()
    };
    (scalar_fn, slots)
}

/// Makes the node of `scalar_fn` over `slots`, with `len` rows of `original`'s type. It must be well formed. Fails only with
/// `OutOfMemory`.
pub(crate) fn function_node(
    alloc: Global,
    original: &ArrayRef,
    scalar_fn: &ScalarFnRef,
    len: usize,
    slots: Vec<Option<ArrayRef>>,
) -> VortexResult<ArrayRef>
    requires { IsNode (dtype original.now) len (function scalar_fn.now) (shapes (slots_of slots.items)) }
    ensures ok { IfOk result (λ t. t ≡ node (dtype original.now) len (function scalar_fn.now) (slots_of slots.items)) }
    ensures err { OnlyOutOfMemory result }
{
    let vtable = ScalarFn { id: scalar_fn.id() };
    let payload = ScalarFnData::new(scalar_fn.clone()?);
    let parts = ArrayParts::new(vtable, original.dtype().clone()?, len, payload, slots);
    Ok(Array::from_parts_unchecked(alloc, parts)?.into_array())
}

/// Makes the column of `len` structs of `original`'s type with these slots, which must be well formed. Fails only with
/// `OutOfMemory`.
pub(crate) fn structs_node(
    alloc: Global,
    original: &ArrayRef,
    len: usize,
    slots: Vec<Option<ArrayRef>>,
) -> VortexResult<ArrayRef>
    requires { IsNode (dtype original.now) len (composed layout.Struct) (shapes (slots_of slots.items)) }
    ensures ok { IfOk result (λ t. t ≡ node (dtype original.now) len (composed layout.Struct) (slots_of slots.items)) }
    ensures err { OnlyOutOfMemory result }
{
    let parts = ArrayParts::new(
        Struct,
        original.dtype().clone()?,
        len,
        EmptyArrayData,
        slots,
    );
    Ok(Array::from_parts_unchecked(alloc, parts)?.into_array())
}

/// Makes the node of the field `name` of `child`, which must be a struct with such a field. Fails only with `OutOfMemory`.
#[tactic(auto, using(crate::proofs::ItemNodesLemmas::item_made, crate::proofs::ItemNodesLemmas::item_unrefused))]
pub(crate) fn item_of(alloc: Global, name: &Name, child: ArrayRef) -> VortexResult<ArrayRef>
    requires { HasItem name.now child }
    ensures ok { IfOk result (λ t. IsItem name.now child t) }
    ensures err { OnlyOutOfMemory result }
{
    let scalar_fn = ScalarFnRef::GetItem(name.clone()?);
    let children = vec![in alloc; child]?;
    Ok(ScalarFnArray::try_new(alloc, scalar_fn, children)?.into_array())
}

/// Returns the child of `array`, which must be masked, and the slot of its validity.
pub(crate) fn masked_parts(array: &ArrayRef) -> (&ArrayRef, &Option<ArrayRef>)
    requires { is_masked (datum array.now) ≡ true }
    ensures shape { array.now ≡ masked_of result.0.now result.1.now }
    ensures well { IsWell array.now }
{
    array.well_formed_tree();
    let ArrayKind::Masked(child, validity) = array.kind() else {
        unreachable!()
    };
    (child, validity)
}

/// Makes the masked array of `child`, of `original`'s type, with `validity` in its slot. It must be well formed. Fails only
/// with `OutOfMemory`.
pub(crate) fn masked_node(
    alloc: Global,
    original: &ArrayRef,
    child: ArrayRef,
    validity: Option<ArrayRef>,
) -> VortexResult<ArrayRef>
    requires { IsNode (dtype original.now) (len child) masked (shapes (slots_of (Some child ∷ validity ∷ []))) }
    ensures ok { IfOk result (λ t. t ≡ node (dtype original.now) (len child) masked (slots_of (Some child ∷ validity ∷ []))) }
    ensures err { OnlyOutOfMemory result }
{
    let len = child.len();
    let slots = vec![in alloc; Some(child), validity]?;
    let parts = ArrayParts::new(Masked, original.dtype().clone()?, len, MaskedData, slots);
    Ok(Array::from_parts_unchecked(alloc, parts)?.into_array())
}

/// Returns the codes and the values of `array`, which must be a dictionary.
pub(crate) fn dict_parts(array: &ArrayRef) -> (&ArrayRef, &ArrayRef)
    requires { is_dict (datum array.now) ≡ true }
    ensures shape { array.now ≡ dict_of result.0.now result.1.now }
    ensures well { IsWell array.now }
{
    array.well_formed_tree();
    let ArrayKind::Dict(codes, values) = array.kind() else {
        unreachable!()
    };
    (codes, values)
}

/// Makes the dictionary of `values` by `codes`, which must be integers. Fails only with `OutOfMemory`.
pub(crate) fn dict_node(alloc: Global, codes: ArrayRef, values: ArrayRef) -> VortexResult<ArrayRef>
    requires { is_integer (dtype codes) ≡ true }
    ensures ok { IfOk result (λ t. t ≡ dict_of codes values) }
    ensures err { OnlyOutOfMemory result }
{
    Ok(DictArray::try_new(alloc, codes, values)?.into_array())
}

/// Returns the constant of `array`'s type and length with the value `value`, which must be of that type. Fails only with
/// `OutOfMemory`.
#[tactic(auto, using(vx_value::proofs::SupportedLemmas::columns_fit))]
pub(crate) fn repeated(
    alloc: Global,
    array: &ArrayRef,
    value: Option<ScalarValue>,
) -> VortexResult<ArrayRef>
    requires { is_of (dtype array.now) (cell_of value) ≡ true }
    ensures ok { IfOk result (λ t. t ≡ constants (dtype array.now) (cell_of value) (len array.now)) }
    ensures err { OnlyOutOfMemory result }
{
    let scalar = Scalar::new_unchecked(array.dtype().clone()?, value);
    Ok(ConstantArray::new_unchecked(alloc, scalar, array.len())?.into_array())
}

/// Returns the constant of `len` rows with the value of `array`, which must be a constant. Fails only with `OutOfMemory`.
pub(crate) fn constant_like(alloc: Global, array: &ArrayRef, len: usize) -> VortexResult<ArrayRef>
    requires { is_constant (datum array.now) ≡ true }
    ensures ok { IfOk result (λ t. IsConstantLike array.now len t) }
    ensures err { OnlyOutOfMemory result }
{
    array.well_formed_tree();
    let ArrayKind::Constant(scalar) = array.kind() else {
        unreachable!()
    };
    Ok(ConstantArray::new_unchecked(alloc, scalar.clone()?, len)?.into_array())
}

/// Returns the column of type `dtype`, which must be one with columns, without rows. Fails only with `OutOfMemory`.
pub(crate) fn empty_column(alloc: Global, dtype: &DType) -> VortexResult<ArrayRef>
    requires { has_columns (type_of dtype.now) ≡ true }
    ensures ok { IfOk result (λ t. t ≡ empty_of (type_of dtype.now)) }
    ensures err { OnlyOutOfMemory result }
{
    Ok(Canonical::empty(alloc, dtype)?.into_array())
}

/// Returns `array`, which must be canonical, as a column.
fn as_column(array: ArrayRef) -> Canonical
    requires { is_canonical (datum array) ≡ true }
    ensures { canonical_tree result ≡ array }
{
    let Ok(column) = Canonical::try_from_array_ref(array) else {
        unreachable!()
    };
    column
}

/// Returns the rows of `array`, which must be canonical, in `range`, as a column that shares its buffers. Fails only with
/// `OutOfMemory`.
pub(crate) fn column_slice(
    alloc: Global,
    array: &ArrayRef,
    range: Range<usize>,
) -> VortexResult<ArrayRef>
    requires canonical { is_canonical (datum array.now) ≡ true }
    requires within { (range.start ≤ range.end) × (range.end ≤ len array.now) }
    ensures ok { IfOk result (λ t. IsColumnSlice range.start range.end array.now t) }
    ensures err { OnlyOutOfMemory result }
{
    let column = as_column(array.clone()?);
    let part = slice_canonical(alloc, &column, range)?;
    let _canonical = part.as_array();
    Ok(part.into_array())
}
