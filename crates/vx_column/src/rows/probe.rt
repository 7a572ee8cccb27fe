//! Single rows of a tree.

ghost use Rattle.std.specs.Prelude.{◌≡◌, ◌⊎◌, ◌≤◌, ◌<◌, ◌∷◌, ℕ, pos, None, IfOk, IfErr, IfSome, OnOk, [], length, map, slice_get, slice_index_or, Some, true, false};
ghost use Rattle.vx_value.specs.Errors.{OnlyOutOfMemory};
ghost use Rattle.vx_value.specs.Types as type;
ghost use Rattle.vx_value.specs.Types.{nullability_of};
ghost use Rattle.vx_value.specs.View.{type_of};
ghost use Rattle.vx_value.specs.Values.{Value, null, boolean, integer, decimal, bytes};
ghost use Rattle.vx_value.specs.Storage.{storage_of};
ghost use Rattle.vx_value.specs.IsOf.{is_of};
ghost use Rattle.vx_value.specs.Parts.{integer_in};
ghost use Rattle.vx_value.specs.Cell.{value, fault};
ghost use Rattle.vx_mask.specs.Masks.{bits_in};
ghost use Rattle.vx_mask.specs.Places.{true_count, true_place};
ghost use Rattle.vx_tree.specs.Natives.{values_of, ptype_of};
ghost use Rattle.vx_tree.specs.DecimalNumbers.{numbers_of, decimal_type_of};
ghost use Rattle.vx_tree.specs.ColumnTypes.{are_decimals_of, scale_of};
ghost use Rattle.vx_fn.specs.Meanings.{widen};
ghost use Rattle.vx_tree.specs.Tree.{node, function, chunked, interleave, dict_of, dtype, len, slots_of};
ghost use Rattle.vx_tree.specs.Cells.{rows};
ghost use Rattle.vx_tree.specs.Well.{IsNode, IsNodeOf, shapes};
ghost use Rattle.vx_tree.specs.SlotTypes.{missing_refusal};
ghost use Rattle.vx_column.specs.Arguments.{IsUnread};
ghost use Rattle.vx_column.specs.Nulls.{TellsRow, IsRowBy};
ghost use Rattle.vx_column.specs.Read.{IsRow, IsUnreadRow};
ghost use Rattle.vx_column.specs.ValidRows.{null_unless};
ghost use Rattle.vx_tree.specs.Views.{rows_of, bytes_at};

use crate::rows::children::{chunk_at, function_at, named_at, pair_at};
use crate::rows::nested::{extension_at, struct_at};
use std::alloc::{AllocError, Global};
use vx_mask::{BitBuffer, BitBuilder, Mask};
use vx_tree::{ArrayKind, ArrayRef, BinaryViews, DecimalValues, Layout, PrimitiveValues};
use vx_value::{
    ByteBuffer, DType, Nullability, Scalar, ScalarKind, ScalarValue, VortexError, VortexResult,
};

/// Returns the value of row `index`, counted from 0. Takes no turns.
///
/// # Errors
///
/// `OutOfBounds` if `array` has no such row; `Fault` if that row has no value; `OutOfMemory`.
#[inline]
pub fn execute_scalar(alloc: Global, array: &ArrayRef, index: usize) -> VortexResult<Scalar>
    ensures ok { IfOk result (IsRow array.now index) }
    ensures bounds { OnOk result (index < len array.now) }
    ensures err { IfErr result
        (λ e. ((e ≡ VortexError.OutOfBounds index index (len array.now)) × (len array.now ≤ index)) ⊎ IsUnreadRow array.now index e) }
{
    let len = array.len();
    if index >= len {
        return Err(VortexError::OutOfBounds {
            start: index,
            stop: index,
            len,
        });
    }
    match array.kind() {
        ArrayKind::Bool(bits, None) => Ok(bool_at(bits, index, array.dtype())),
        ArrayKind::Primitive(values, None) => Ok(integer_at(values, index, array.dtype())),
        _ => row_at(alloc, array, index),
    }
}

/// Returns the value of row `index`, which must exist: for a column, by the bits of its validity; for any other tree, by
/// recursion. It isn't inlined, so that the rows of a column without a validity take fewer instructions.
#[inline(never)]
fn row_at(alloc: Global, array: &ArrayRef, index: usize) -> VortexResult<Scalar>
    requires { index < len array.now }
    ensures ok { IfOk result (IsRow array.now index) }
    ensures err { IfErr result (IsUnreadRow array.now index) }
{
    let dtype = array.dtype();
    match array.kind() {
        ArrayKind::Bool(bits, validity) => match stored_validity(dtype, validity, index) {
            Some(true) => Ok(bool_at(bits, index, dtype)),
            Some(false) => null_of(dtype),
            None => scalar_at(alloc, array, index),
        },
        ArrayKind::Primitive(values, validity) => match stored_validity(dtype, validity, index) {
            Some(true) => Ok(integer_at(values, index, dtype)),
            Some(false) => null_of(dtype),
            None => scalar_at(alloc, array, index),
        },
        ArrayKind::Decimal(values, validity) => match stored_validity(dtype, validity, index) {
            Some(true) => Ok(decimal_at(values, index, array)),
            Some(false) => null_of(dtype),
            None => scalar_at(alloc, array, index),
        },
        _ => scalar_at(alloc, array, index),
    }
}

/// Returns whether row `index` is valid in a column of type `dtype` with `validity` in its slot, if no row is null or the
/// validity is stored as bits; else `None`.
#[inline]
fn stored_validity(dtype: &DType, validity: &Option<ArrayRef>, index: usize) -> Option<bool>
    requires { TellsRow (type_of dtype.now) validity.now index }
    ensures nullable { IfSome result (λ b. b ≡ false → nullability_of (type_of dtype.now) ≡ Nullability.Nullable) }
    ensures row { IfSome result (λ b. (v : Value) → IsRowBy validity.now index (value v) (null_unless b (value v))) }
{
    let Some(child) = validity else {
        return Some(true);
    };
    if let ArrayKind::Bool(bits, None) = child.kind() {
        Some(bits.value(index))
    } else {
        None
    }
}

/// Returns the value of row `index`, which must exist, of any tree.
#[tactic(auto, using(crate::proofs::CellsLemmas::constant_rows, crate::proofs::SliceLemmas::slice_rows, crate::proofs::FilterLemmas::filter_rows, crate::proofs::MaskedRowsLemmas::masked_fault, crate::proofs::ScalarFnValidityLemmas::validity_rows))]
#[cycle(scalar_at)]
pub(super) fn scalar_at(alloc: Global, array: &ArrayRef, index: usize) -> VortexResult<Scalar>
    requires { index < len array.now }
    ensures ok { IfOk result (IsRow array.now index) }
    ensures err { IfErr result (IsUnreadRow array.now index) }
{
    let dtype = array.dtype();
    match array.kind() {
        ArrayKind::Null => Ok(Scalar::null(DType::Null)),
        ArrayKind::Bool(bits, validity) => {
            unless_null(alloc, validity, index, bool_at(bits, index, dtype))
        }
        ArrayKind::Primitive(values, validity) => {
            unless_null(alloc, validity, index, integer_at(values, index, dtype))
        }
        ArrayKind::Decimal(values, validity) => {
            unless_null(alloc, validity, index, decimal_at(values, index, array))
        }
        ArrayKind::VarBinView(rows, validity) => {
            match bytes_at(alloc, rows, index, dtype) {
                Ok(stored) => unless_null(alloc, validity, index, stored),
                Err(e) => Err(e),
            }
        }
        ArrayKind::Constant(scalar) => Ok(scalar.clone()?),
        ArrayKind::Slice(child, start, _) => scalar_at(alloc, child, start + index),
        ArrayKind::Filter(child, mask) => scalar_at(alloc, child, place_in(mask, index)),
        ArrayKind::Masked(child, validity) => match scalar_at(alloc, child, index) {
            Ok(scalar) => match scalar.into_nullable(alloc) {
                Ok(scalar) => unless_null(alloc, validity, index, scalar),
                Err(e) => Err(e),
            },
            Err(e) => Err(e),
        },
        ArrayKind::ScalarFnValidity(child) => match scalar_at(alloc, child, index) {
            Ok(scalar) => Ok(Scalar::bool(!scalar.is_null(), Nullability::NonNullable)),
            Err(e) => Err(e),
        },
        ArrayKind::ScalarFn(scalar_fn, slots) => function_at(alloc, array, scalar_fn, slots, index),
        ArrayKind::Dict(codes, values) => named_at(alloc, array, codes, values, index),
        ArrayKind::Chunked(slots) => chunk_at(alloc, array, slots, index),
        ArrayKind::Interleave(slots) => pair_at(alloc, array, slots, index),
        ArrayKind::Composed(Layout::Struct, slots) => struct_at(alloc, array, slots, index),
        ArrayKind::Composed(Layout::Extension, slots) => extension_at(alloc, array, slots, index),
    }
}

/// Returns the index of the true bit of `mask` with `k` true bits before it, which must exist.
fn place_in(mask: &Mask, k: usize) -> usize
    requires { k < true_count (bits_in mask.now) }
    ensures place { true_place (bits_in mask.now) k ≡ Some result }
    ensures within { result < length (bits_in mask.now) }
{
    let Some(place) = mask.rank(k) else {
        unreachable!()
    };
    place
}

/// Returns row `index` of a column that stores `stored` there and has `validity` in its slot: null if the row is null, else
/// `stored`.
#[inline]
#[cycle(scalar_at)]
pub(super) fn unless_null(
    alloc: Global,
    validity: &Option<ArrayRef>,
    index: usize,
    stored: Scalar,
) -> VortexResult<Scalar>
    requires { TellsRow stored.of_type validity.now index }
    ensures ok { IfOk result (λ s. IsRowBy validity.now index (value stored.value) (value s.value)) }
    ensures typed { IfOk result (λ s. s.of_type ≡ stored.of_type) }
    ensures err { IfErr result
        (λ e. (e ≡ VortexError.OutOfMemory)
        ⊎ ((e ≡ VortexError.Fault) × IsRowBy validity.now index (value stored.value) fault)) }
{
    let Some(child) = validity else {
        return Ok(stored);
    };
    if let ArrayKind::Bool(bits, None) = child.kind() {
        return kept_or_null(stored, bits.value(index));
    }
    match scalar_at(alloc, child, index) {
        Ok(valid) => kept_or_null(stored, into_truth(valid)),
        Err(e) => Err(e),
    }
}

/// Returns `stored` if its row is `valid`, else null of its type, which must be nullable. Fails only with `OutOfMemory`.
#[inline]
fn kept_or_null(stored: Scalar, valid: bool) -> VortexResult<Scalar>
    requires { nullability_of stored.of_type ≡ Nullability.Nullable }
    ensures ok { IfOk result (λ s. value s.value ≡ null_unless valid (value stored.value)) }
    ensures typed { IfOk result (λ s. s.of_type ≡ stored.of_type) }
    ensures err { OnlyOutOfMemory result }
{
    if valid {
        Ok(stored)
    } else {
        null_of(stored.dtype())
    }
}

/// Returns null of type `dtype`, which must be nullable. Fails only with `OutOfMemory`.
#[inline]
pub(super) fn null_of(dtype: &DType) -> VortexResult<Scalar>
    requires { nullability_of (type_of dtype.now) ≡ Nullability.Nullable }
    ensures ok { IfOk result (λ s. s ≡ record { of_type = type_of dtype.now; value = null }) }
    ensures err { OnlyOutOfMemory result }
{
    Ok(Scalar::null(dtype.clone()?))
}

/// Returns the value of `scalar`, which must be a non-nullable boolean.
fn is_true(scalar: &Scalar) -> bool
    requires { scalar.now.of_type ≡ type.bool Nullability.NonNullable }
    ensures { scalar.now.value ≡ boolean result }
{
    match scalar.kind() {
        ScalarKind::Bool(bit, _) => bit,
        _ => unreachable!(),
    }
}

/// Returns the value of `scalar`, which must be a non-nullable boolean, and drops it.
#[inline]
fn into_truth(scalar: Scalar) -> bool
    requires { scalar.of_type ≡ type.bool Nullability.NonNullable }
    ensures { scalar.value ≡ boolean result }
{
    is_true(&scalar)
}

/// Returns the boolean that a column of type `dtype` stores in row `index`.
#[inline]
fn bool_at(bits: &BitBuffer, index: usize, dtype: &DType) -> Scalar
    requires { index < length bits.now }
    ensures row { slice_get (map (λ b. value (boolean b)) bits.now) index ≡ Some (value result.value) }
    ensures typed { result.of_type ≡ type.bool (nullability_of (type_of dtype.now)) }
{
    Scalar::bool(bits.value(index), dtype.nullability())
}

/// Returns the integer that a column of type `dtype` stores in row `index`.
#[inline]
fn integer_at(values: &PrimitiveValues, index: usize, dtype: &DType) -> Scalar
    requires { index < length (values_of values.now) }
    ensures row { slice_get (map (λ z. value (integer z)) (values_of values.now)) index ≡ Some (value result.value) }
    ensures typed { result.of_type ≡ type.primitive (ptype_of values.now) (nullability_of (type_of dtype.now)) }
{
    Scalar::primitive(values.wide_at(index), values.ptype(), dtype.nullability())
}

/// Returns the decimal that `array`, a column of decimals, stores in row `index` of its `values`.
fn decimal_at(values: &DecimalValues, index: usize, array: &ArrayRef) -> Scalar
    requires index { index < length (numbers_of values.now) }
    requires typed { are_decimals_of (storage_of (dtype array.now)) (decimal_type_of values.now) (numbers_of values.now) ≡ true }
    ensures row { slice_get (map (λ z. value (decimal z (scale_of (storage_of (dtype array.now))))) (numbers_of values.now)) index ≡ Some (value result.value) }
    ensures typed { result.of_type ≡ dtype array.now }
{
    let DType::Decimal(decimal, nullability) = array.dtype() else {
        unreachable!()
    };
    Scalar::decimal(values.wide_at(index), *decimal, *nullability)
}

/// Returns the bytes that a column of type `dtype`, one of text or bytes, stores in row `index`. Fails only with `OutOfMemory`.
#[tactic(auto, using(crate::proofs::ViewsLemmas::stored_row))]
fn bytes_at(alloc: Global, rows: &BinaryViews, index: usize, dtype: &DType) -> VortexResult<Scalar>
    requires index { index < length rows.now.views }
    requires typed { is_of (type_of dtype.now) (bytes (slice_index_or (rows_of rows.now) index [])) ≡ true }
    ensures row { IfOk result (λ s. slice_get (map (λ v. value (bytes (bytes_at rows.now.buffers v))) rows.now.views) index ≡ Some (value s.value)) }
    ensures typed { IfOk result (λ s. s.of_type ≡ type_of dtype.now) }
    ensures err { OnlyOutOfMemory result }
{
    let bytes = ByteBuffer::copy_from(alloc, rows.value(index))?;
    let dtype = dtype.clone()?;
    Ok(Scalar::new_unchecked(dtype, Some(ScalarValue::Bytes(bytes))))
}

/// Returns the rows of `array`, which must be non-nullable booleans. Shares stored bits; repeats a constant; takes slices and
/// filters of stored bits word by word; reads others row by row. `Fault` if a row has no value.
pub(crate) fn truths_in(alloc: Global, array: &ArrayRef) -> VortexResult<BitBuffer>
    requires { dtype array.now ≡ type.bool Nullability.NonNullable }
    ensures ok { IfOk result (λ bits. rows array.now ≡ map (λ b. value (boolean b)) bits) }
    ensures sized { IfOk result (λ bits. length bits ≡ len array.now) }
    ensures err { IfErr result (IsUnread array.now) }
{
    array.well_formed_tree();
    if let ArrayKind::Constant(scalar) = array.kind() {
        return Ok(BitBuffer::repeat(alloc, is_true(scalar), array.len())?);
    }
    match stored_truths(alloc, array)? {
        Some(bits) => Ok(bits),
        None => read_truths(alloc, array),
    }
}

/// Returns the rows of `array` if it is a column of booleans without a validity, or slices and filters of one; else `None`.
/// Fails only if there is no memory for them.
#[tactic(auto, using(crate::proofs::CellsLemmas::bits_long, crate::proofs::SliceLemmas::slice_told, crate::proofs::FilterLemmas::filter_told))]
#[cycle(stored_truths)]
fn stored_truths(alloc: Global, array: &ArrayRef) -> Result<Option<BitBuffer>, AllocError>
    ensures rows { IfOk result (λ o. IfSome o (λ bits. rows array.now ≡ map (λ b. value (boolean b)) bits)) }
    ensures sized { IfOk result (λ o. IfSome o (λ bits. length bits ≡ len array.now)) }
{
    array.well_formed_tree();
    match array.kind() {
        ArrayKind::Bool(bits, None) => Ok(Some(bits.clone()?)),
        ArrayKind::Slice(child, start, end) => match stored_truths(alloc, child) {
            Ok(Some(bits)) => Ok(Some(bits.slice(start..end)?)),
            Ok(None) => Ok(None),
            Err(e) => Err(e),
        },
        ArrayKind::Filter(child, mask) => match stored_truths(alloc, child) {
            Ok(Some(bits)) => Ok(Some(bits.filter(alloc, mask)?)),
            Ok(None) => Ok(None),
            Err(e) => Err(e),
        },
        _ => Ok(None),
    }
}

/// Reads the rows of `array`, which must be non-nullable booleans, one by one. `Fault` if a row has no value.
#[tactic(auto, using(crate::proofs::CellsLemmas::truths_more))]
fn read_truths(alloc: Global, array: &ArrayRef) -> VortexResult<BitBuffer>
    requires { dtype array.now ≡ type.bool Nullability.NonNullable }
    ensures ok { IfOk result (λ bits. rows array.now ≡ map (λ b. value (boolean b)) bits) }
    ensures sized { IfOk result (λ bits. length bits ≡ len array.now) }
    ensures err { IfErr result (IsUnread array.now) }
{
    array.well_formed_tree();
    let mut bits = BitBuilder::with_capacity(alloc, array.len())?;
    for index in 0..array.len() {
        match scalar_at(alloc, array, index) {
            Ok(scalar) => bits.push(into_truth(scalar))?,
            Err(e) => return Err(e),
        }
    }
    Ok(bits.finish(alloc)?)
}
