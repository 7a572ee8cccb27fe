//! Casts of columns.

ghost use Rattle.std.specs.Prelude.{◌≡◌, ◌⊎◌, ◌<◌, ◌∷◌, [], ℕ, true, false, map, IfOk, IfErr};
ghost use Rattle.vx_value.specs.Errors.{OnlyOutOfMemory};
ghost use Rattle.vx_value.specs.Types.{nullability_of};
ghost use Rattle.vx_value.specs.View.{type_of};
ghost use Rattle.vx_value.specs.Storage.{is_nested};
ghost use Rattle.vx_value.specs.Values.{null, integer};
ghost use Rattle.vx_value.specs.Casts.{cast_to, to_integer};
ghost use Rattle.vx_value.specs.IsOf.{in_range};
ghost use Rattle.vx_fn.specs.declared.function.ScalarFnRef.TheVariants.{Cast};
ghost use Rattle.vx_tree.specs.Natives.{values_of};
ghost use Rattle.vx_tree.specs.Canonicals.{canonical_tree};
ghost use Rattle.vx_tree.specs.Tree.{dtype};
ghost use Rattle.vx_column.specs.Arguments.{value_at, ptype_in, integer_in, HasStored, AreShown, AreIntegers};
ghost use Rattle.vx_column.specs.declared.rows.argument.ArgumentRows.TheVariants.{Nulls};
ghost use Rattle.vx_column.specs.Casts.{converted, IsCastTarget, HasRowsToConvert, IsConverted, IsNotConverted};
ghost use Rattle.vx_column.specs.Computed.{Takes, IsColumnOfCells, IsCanonicalResult, HasNoCanonicalResult};
ghost use Rattle.vx_column.specs.Operands.{number_in, HasRow, IsFaultyRow, IsPrimitiveColumnOf};
ghost use Rattle.vx_column.specs.ValidRows.{is_valid, HasValidity, nullability_in};

use crate::functions::cast::rescale::{cast_decimals, integers_to_decimals};
use crate::functions::cast::text::cast_to_text;
use crate::functions::kernel::{
    Calculation, IntegerCalculation, Operand, calculated_column, integer_rows, operand_of,
    stored_column,
};
use crate::rows::{Argument, ArgumentRows, BytesOperand, IntegerOperand, ValidRows, repeated_rows};
use std::alloc::Global;
use vx_mask::Buffer;
use vx_tree::{Canonical, NativeInteger, NativeNumber, PrimitiveValues, by_native, by_type};
use vx_value::{DType, Nullability, PType, Scalar, Storage, VortexError, VortexResult};

/// Casts `input`, `len` rows, to `target`, which must not be nested. Shares the values if both types store them the same; casts
/// no value under a null. `Fault` if a row has no value in `target`. (own)
#[tactic(auto, using(crate::proofs::KernelArgumentsLemmas::has_stored))]
pub(crate) fn cast(
    alloc: Global,
    target: &DType,
    input: &Argument<'_>,
    len: usize,
) -> VortexResult<Canonical>
    requires taken { Takes (Cast target.now) (input.now ∷ []) len }
    requires unnested { is_nested (type_of target.now) ≡ false }
    ensures ok { IfOk result (λ c. IsCanonicalResult (Cast target.now) (input.now ∷ []) len (canonical_tree c)) }
    ensures err { IfErr result (HasNoCanonicalResult (Cast target.now) (input.now ∷ []) len) }
{
    let valid = cast_valid_rows(&input.valid, target.nullability(), len)?;
    cast_rows(alloc, target, input.rows, &valid, len)
}

/// Returns `valid`, of `len` rows, as the rows of a column of this nullability. `Fault` if a row is null and the column isn't
/// nullable.
fn cast_valid_rows(
    valid: &ValidRows,
    nullability: Nullability,
    len: usize,
) -> VortexResult<ValidRows>
    requires { HasValidity valid.now len }
    ensures rows { IfOk result (λ r. (i : ℕ) → i < len → is_valid r i ≡ is_valid valid.now i) }
    ensures sized { IfOk result (λ r. HasValidity r len) }
    ensures nullability { IfOk result (λ r. nullability_in r ≡ nullability) }
    ensures err { IfErr result (λ e. (e ≡ VortexError.OutOfMemory) ⊎ ((e ≡ VortexError.Fault)
        × (nullability ≡ Nullability.NonNullable) × (i : ℕ) × (i < len) × (is_valid valid.now i ≡ false))) }
{
    match (valid, nullability) {
        (ValidRows::All(_), _) => Ok(ValidRows::All(nullability)),
        (ValidRows::Bits(bits), Nullability::Nullable) => Ok(ValidRows::Bits(bits.clone()?)),
        (ValidRows::Bits(bits), Nullability::NonNullable) => {
            if bits.true_count() == bits.len() {
                Ok(ValidRows::All(nullability))
            } else {
                Err(VortexError::Fault)
            }
        }
    }
}

/// Casts the `valid` rows of `rows`, `len` rows, to `target`, which must not be nested; the others are null. `Fault` if a valid
/// row has no value in `target`.
fn cast_rows(
    alloc: Global,
    target: &DType,
    rows: ArgumentRows<'_>,
    valid: &ValidRows,
    len: usize,
) -> VortexResult<Canonical>
    requires rows { HasStored rows len }
    requires valid { HasValidity valid.now len }
    requires shown { AreShown rows valid.now len }
    requires nullability { nullability_in valid.now ≡ nullability_of (type_of target.now) }
    requires target { IsCastTarget rows (type_of target.now) }
    requires unnested { is_nested (type_of target.now) ≡ false }
    ensures ok { IfOk result (λ c. (dtype (canonical_tree c) ≡ type_of target.now)
        × IsColumnOfCells valid.now (λ i. cast_to (type_of target.now) (value_at rows.entry i)) len (canonical_tree c)) }
    ensures err { IfErr result (IsFaultyRow (is_valid valid.now) (λ i. cast_to (type_of target.now) (value_at rows.entry i)) len) }
{
    match (rows, target) {
        (ArgumentRows::Nulls, _) => cast_nulls(alloc, target, valid, len),
        (ArgumentRows::Bits(_), _) => stored_column(alloc, rows, valid, len),
        (ArgumentRows::Integers(integers), DType::Primitive(ptype, _)) => {
            cast_integers(alloc, *ptype, integers, valid, len)
        }
        (ArgumentRows::Integers(integers), DType::Decimal(decimal, _)) => {
            integers_to_decimals(alloc, *decimal, integers, valid, len)
        }
        (ArgumentRows::Decimals(decimals), DType::Decimal(decimal, _)) => {
            cast_decimals(alloc, *decimal, decimals, valid, len)
        }
        (ArgumentRows::Bytes(bytes), DType::Utf8(_)) => cast_to_text(alloc, bytes, valid, len),
        (ArgumentRows::Bytes(bytes), DType::Binary(_)) => {
            let rows = bytes.rows;
            let storage = Storage::Bytes;
            let kept = ArgumentRows::Bytes(BytesOperand { storage, rows });
            stored_column(alloc, kept, valid, len)
        }
        _ => unreachable!(),
    }
}

/// Makes the column of `len` nulls of type `target`, which must be nullable and not nested. No row may be `valid`. Fails only
/// with `OutOfMemory`.
fn cast_nulls(
    alloc: Global,
    target: &DType,
    valid: &ValidRows,
    len: usize,
) -> VortexResult<Canonical>
    requires valid { HasValidity valid.now len }
    requires shown { AreShown Nulls valid.now len }
    requires nullability { nullability_in valid.now ≡ nullability_of (type_of target.now) }
    requires target { IsCastTarget Nulls (type_of target.now) }
    requires unnested { is_nested (type_of target.now) ≡ false }
    ensures ok { IfOk result (λ c. (dtype (canonical_tree c) ≡ type_of target.now)
        × IsColumnOfCells valid.now (λ i. cast_to (type_of target.now) null) len (canonical_tree c)) }
    ensures err { OnlyOutOfMemory result }
{
    let null = Scalar::null(target.clone()?);
    stored_column(alloc, repeated_rows(&null), valid, len)
}

/// Casts the `valid` rows of `integers`, `len` rows, to integers of type `target`; the others are null. `Fault` if a valid row
/// is out of range.
#[tactic(auto, using(crate::proofs::ValidRowsLemmas::counted))]
fn cast_integers(
    alloc: Global,
    target: PType,
    integers: IntegerOperand<'_>,
    valid: &ValidRows,
    len: usize,
) -> VortexResult<Canonical>
    requires integers { AreIntegers (ptype_in integers) integers len }
    requires valid { HasValidity valid.now len }
    ensures ok { IfOk result (λ c. IsPrimitiveColumnOf target valid.now (converted target (integer_in integers.entry)) len (canonical_tree c)) }
    ensures err { IfErr result (IsFaultyRow (is_valid valid.now) (converted target (integer_in integers.entry)) len) }
{
    if integers.ptype() == target {
        return keep_integers(alloc, integers, valid, len);
    }
    let values = integer_rows(alloc, integers, len)?;
    let conversion = Conversion {
        target,
        values: &values,
        valid,
        len,
    };
    convert(alloc, &conversion)
}

/// Makes the column of `integers`, `len` rows, null in each row that isn't `valid`. Shares their buffer. Fails only with
/// `OutOfMemory`.
fn keep_integers(
    alloc: Global,
    integers: IntegerOperand<'_>,
    valid: &ValidRows,
    len: usize,
) -> VortexResult<Canonical>
    requires integers { AreIntegers (ptype_in integers) integers len }
    requires valid { HasValidity valid.now len }
    ensures ok { IfOk result (λ c. IsPrimitiveColumnOf (ptype_in integers.entry) valid.now (converted (ptype_in integers.entry) (integer_in integers.entry)) len
        (canonical_tree c)) }
    ensures err { OnlyOutOfMemory result }
{
    know_integers(integers, len);
    stored_column(alloc, ArgumentRows::Integers(integers), valid, len)
}

/// States that `integers`, `len` rows, are in the range of their type.
pub(crate) fn know_integers(integers: IntegerOperand<'_>, len: usize)
    requires { AreIntegers (ptype_in integers) integers len }
    ensures { (i : ℕ) → i < len → in_range (ptype_in integers.entry) (integer_in integers.entry i) ≡ true }
{
    by_type!(integers.ptype(), know_ranges(integers, len))
}

/// States that `integers`, `len` rows, which must be of the type `T`, are in its range. The loop computes nothing, so the
/// compiler leaves it out.
fn know_ranges<T: NativeInteger>(integers: IntegerOperand<'_>, len: usize)
    requires { AreIntegers T.kind integers len }
    ensures { (i : ℕ) → i < len → in_range T.kind (integer_in integers.entry i) ≡ true }
{
    let numbers: Operand<'_, T> = operand_of(integers);
    for index in 0..len {
        numbers.row(index).number_in_range();
    }
}

/// A conversion of integers to the type `target`, in a column of `len` rows, null in each row that isn't `valid`.
#[derive(Drop)]
struct Conversion<'a> {
    target: PType,
    values: &'a PrimitiveValues,
    valid: &'a ValidRows,
    len: usize,
}

/// Makes the column of `conversion`. `Fault` if a valid row is out of range.
fn convert(alloc: Global, conversion: &Conversion<'_>) -> VortexResult<Canonical>
    requires { HasRowsToConvert conversion.now }
    ensures ok { IfOk result (λ c. IsConverted conversion.now (canonical_tree c)) }
    ensures err { IfErr result (IsNotConverted conversion.now) }
{
    by_type!(conversion.target, convert_into(alloc, conversion))
}

/// Makes the column of `conversion`, whose target must be `U`. `Fault` if a valid row is out of range.
fn convert_into<U: NativeInteger>(
    alloc: Global,
    conversion: &Conversion<'_>,
) -> VortexResult<Canonical>
    requires rows { HasRowsToConvert conversion.now }
    requires target { conversion.now.target ≡ U.kind }
    ensures ok { IfOk result (λ c. IsConverted conversion.now (canonical_tree c)) }
    ensures err { IfErr result (IsNotConverted conversion.now) }
{
    by_native!(
        conversion.values.buffer(),
        |buffer| convert_buffer::<_, U>(alloc, conversion, buffer)
    )
}

/// Makes the column of `conversion`, whose target must be `U` and whose values must be those in `buffer`. `Fault` if a valid
/// row is out of range.
fn convert_buffer<T: NativeNumber, U: NativeInteger>(
    alloc: Global,
    conversion: &Conversion<'_>,
    buffer: &Buffer<T>,
) -> VortexResult<Canonical>
    requires rows { HasRowsToConvert conversion.now }
    requires target { conversion.now.target ≡ U.kind }
    requires buffer { map T.value buffer.now ≡ values_of conversion.now.values.now }
    ensures ok { IfOk result (λ c. IsConverted conversion.now (canonical_tree c)) }
    ensures err { IfErr result (IsNotConverted conversion.now) }
{
    let numbers = Operand::Rows(buffer.as_slice());
    let calculation = Converted { numbers };
    calculated_column::<U, Converted<'_, T>>(alloc, &calculation, conversion.valid, conversion.len)
}

/// Numbers of type `T` that are converted.
#[derive(Clone, Copy)]
struct Converted<'a, T> {
    numbers: Operand<'a, T>,
}

impl<'a, T: NativeNumber, U: NativeInteger> Calculation<U> for Converted<'a, T> {
    ghost has_row = { λ s i. HasRow s.numbers i };

    ghost cell = { λ s i. to_integer U.kind (integer (number_in T.value s.numbers i)) };

    ghost stands_for = { λ s. integer };

    #[inline]
    fn calculate_row(&self, index: usize) -> Option<U> {
        U::from_wide(self.numbers.row(index).wide())
    }
}

impl<'a, T: NativeNumber, U: NativeInteger> IntegerCalculation<U> for Converted<'a, T> {
    fn are_integers(&self) {}
}
