//! Constants expanded to canonical columns, and columns of nested types.

ghost use Rattle.std.specs.Prelude.{◌≡◌, IfOk, false, true, map, Some};
ghost use Rattle.std.specs.List.{All};
ghost use Rattle.vx_value.specs.Errors.{OnlyOutOfMemory};
ghost use Rattle.vx_value.specs.View.{type_of};
ghost use Rattle.vx_value.specs.Storage.{storage_of, is_nested};
ghost use Rattle.vx_value.specs.Supported.{has_columns};
ghost use Rattle.vx_value.specs.ScalarParts.{IsStruct, IsExtension};
ghost use Rattle.vx_tree.specs.Tree.{node, composed, constant_of, slots_of};
ghost use Rattle.vx_tree.specs.Well.{IsNode, shapes};
ghost use Rattle.vx_tree.specs.Canonicals.{canonical_tree};
ghost use Rattle.vx_tree.specs.Keeps.{KeepsExactly};
ghost use Rattle.vx_column.specs.Expanded.{repeated_validity, expanded_stored, expanded_value, expansion};

use crate::rows::{bool_column, decimal_column, primitive_column, unscaled_of, varbinview_column};
use std::alloc::Global;
use vx_mask::BitBuffer;
use vx_tree::{
    ArrayParts, ArrayRef, ArrayView, BinaryViews, Canonical, Constant, ConstantArray,
    DecimalValues, EmptyArrayData, Extension, ExtensionArray, IntoArray, Layout, NullArray,
    PrimitiveValues, Struct, StructArray, Validity, validity_to_child,
};
use vx_value::{ByteBuffer, DType, DecimalType, Scalar, Storage, VortexResult};

/// Expands `array` to a canonical column. Allocates the rows once, before any is written; the bytes of a text or a binary value
/// are stored once. The fields of a struct stay constants; an extension is expanded as the value that it is stored as. Fails only
/// with `OutOfMemory`.
#[tactic(auto, using(crate::proofs::RepeatedLemmas::expansion_of))]
pub fn constant_canonicalize(
    alloc: Global,
    array: ArrayView<'_, Constant>,
) -> VortexResult<Canonical>
    ensures ok { IfOk result (λ c. KeepsExactly array.entry.array.now (canonical_tree c)) }
    ensures layout { IfOk result (λ c. canonical_tree c ≡ expansion array.entry.array.now) }
    ensures err { OnlyOutOfMemory result }
{
    array.array().well_formed_tree();
    let scalar = array.data().scalar();
    if array.is_empty() {
        Canonical::empty(alloc, array.dtype())
    } else {
        repeat(alloc, scalar, array.len())
    }
}

/// Makes the column of `len` rows, each `scalar`, whose type must have columns. Fails only with `OutOfMemory`.
#[cycle(repeat)]
fn repeat(alloc: Global, scalar: &Scalar, len: usize) -> VortexResult<Canonical>
    requires { has_columns scalar.now.of_type ≡ true }
    ensures ok { IfOk result (λ c. KeepsExactly (constant_of scalar.now len) (canonical_tree c)) }
    ensures layout { IfOk result (λ c. canonical_tree c ≡ expanded_value scalar.now.of_type scalar.now.value len) }
    ensures err { OnlyOutOfMemory result }
{
    match scalar.dtype() {
        DType::Struct(_, _) => repeat_struct(alloc, scalar, len),
        DType::Extension(_) => repeat_extension(alloc, scalar, len),
        _ => repeat_flat(alloc, scalar, len),
    }
}

/// Makes the column of `len` rows, each `scalar`, a struct whose type has columns: constants of its fields. Fails only with
/// `OutOfMemory`.
fn repeat_struct(alloc: Global, scalar: &Scalar, len: usize) -> VortexResult<Canonical>
    requires structs { IsStruct scalar.now.of_type }
    requires columns { has_columns scalar.now.of_type ≡ true }
    ensures ok { IfOk result (λ c. KeepsExactly (constant_of scalar.now len) (canonical_tree c)) }
    ensures layout { IfOk result (λ c. canonical_tree c ≡ expanded_value scalar.now.of_type scalar.now.value len) }
    ensures err { OnlyOutOfMemory result }
{
    let validity = repeated_validity(scalar);
    let mut slots = repeat_each(alloc, scalar.fields(alloc)?, len)?;
    slots.push(validity_to_child(alloc, &validity, len)?)?;
    composed_column(alloc, Layout::Struct, scalar.dtype().clone()?, len, slots)
}

/// Returns slots of constants of `len` rows, each of one of `scalars`, whose types must have columns. Fails only with
/// `OutOfMemory`.
fn repeat_each(
    alloc: Global,
    scalars: Vec<Scalar>,
    len: usize,
) -> VortexResult<Vec<Option<ArrayRef>>>
    requires { All (λ s. has_columns s.of_type ≡ true) scalars.items }
    ensures ok { IfOk result (λ slots. slots.items ≡ map (λ s. Some (constant_of s len)) scalars.items) }
    ensures err { OnlyOutOfMemory result }
{
    let mut slots = Vec::with_capacity(alloc, scalars.len() + 1)?;
    for scalar in scalars {
        slots.push(Some(ConstantArray::new_unchecked(alloc, scalar, len)?.into_array()))?;
    }
    Ok(slots)
}

/// Makes the column of `len` rows, each `scalar`, of an extension type with columns: that of the value that it is stored as. Fails
/// only with `OutOfMemory`.
#[cycle(repeat)]
fn repeat_extension(alloc: Global, scalar: &Scalar, len: usize) -> VortexResult<Canonical>
    requires extension { IsExtension scalar.now.of_type }
    requires columns { has_columns scalar.now.of_type ≡ true }
    ensures ok { IfOk result (λ c. KeepsExactly (constant_of scalar.now len) (canonical_tree c)) }
    ensures layout { IfOk result (λ c. canonical_tree c ≡ expanded_value scalar.now.of_type scalar.now.value len) }
    ensures err { OnlyOutOfMemory result }
{
    let stored = scalar.storage()?;
    let storage = repeat(alloc, &stored, len)?.into_array();
    let slots = vec![in alloc; Some(storage)]?;
    composed_column(
        alloc,
        Layout::Extension,
        scalar.dtype().clone()?,
        len,
        slots,
    )
}

/// Makes the column of type `dtype` with this layout, number of rows and slots, which must fit. Fails only with `OutOfMemory`.
pub(crate) fn composed_column(
    alloc: Global,
    layout: Layout,
    dtype: DType,
    len: usize,
    slots: Vec<Option<ArrayRef>>,
) -> VortexResult<Canonical>
    requires node { IsNode (type_of dtype) len (composed layout) (shapes (slots_of slots.items)) }
    requires columns { has_columns (type_of dtype) ≡ true }
    ensures ok { IfOk result (λ c. canonical_tree c ≡ node (type_of dtype) len (composed layout) (slots_of slots.items)) }
    ensures err { OnlyOutOfMemory result }
{
    match layout {
        Layout::Struct => {
            let parts = ArrayParts::new(Struct, dtype, len, EmptyArrayData, slots);
            Ok(Canonical::Struct(StructArray::from_parts_unchecked(alloc, parts)?))
        }
        Layout::Extension => {
            let parts = ArrayParts::new(Extension, dtype, len, EmptyArrayData, slots);
            Ok(Canonical::Extension(ExtensionArray::from_parts_unchecked(alloc, parts)?))
        }
    }
}

/// Makes the column of `len` rows, each `scalar`, whose type must not be nested; null rows store `false`, 0 or no bytes. Fails
/// only with `OutOfMemory`.
fn repeat_flat(alloc: Global, scalar: &Scalar, len: usize) -> VortexResult<Canonical>
    requires { is_nested scalar.now.of_type ≡ false }
    ensures ok { IfOk result (λ c. KeepsExactly (constant_of scalar.now len) (canonical_tree c)) }
    ensures layout { IfOk result (λ c. canonical_tree c ≡ expanded_stored (storage_of scalar.now.of_type) scalar.now len) }
    ensures err { OnlyOutOfMemory result }
{
    let validity = repeated_validity(scalar);
    let storage = scalar.dtype().storage();
    match storage {
        Storage::Bits => {
            let bit = scalar.as_bool().unwrap_or(false);
            let bits = BitBuffer::repeat(alloc, bit, len)?;
            bool_column(alloc, bits, &validity)
        }
        Storage::Integers(ptype) => {
            let wide = scalar.as_integer().unwrap_or(0);
            let values = PrimitiveValues::repeat(alloc, ptype, wide, len)?;
            primitive_column(alloc, values, &validity)
        }
        Storage::Decimals { .. } => {
            let DType::Decimal(decimal, _) = scalar.dtype() else {
                unreachable!()
            };
            let width = DecimalType::smallest_decimal_value_type(decimal);
            let values = DecimalValues::repeat(alloc, width, unscaled_of(scalar), len)?;
            decimal_column(alloc, *decimal, values, &validity)
        }
        Storage::Text | Storage::Bytes => {
            let bytes = ByteBuffer::copy_from(alloc, scalar.as_bytes().unwrap_or(&[]))?;
            let rows = BinaryViews::repeat(alloc, bytes, len)?;
            varbinview_column(alloc, storage, rows, &validity)
        }
        Storage::Nulls => Ok(Canonical::Null(NullArray::new(alloc, len)?)),
        Storage::Nested => unreachable!(),
    }
}

/// Returns the validity of a column whose rows are all `scalar`.
fn repeated_validity(scalar: &Scalar) -> Validity
    ensures { result ≡ repeated_validity scalar.now }
{
    if scalar.is_null() {
        Validity::AllInvalid
    } else {
        Validity::from(scalar.dtype().nullability())
    }
}
