//! Casts of numbers to decimals.

ghost use Rattle.std.specs.Prelude.{◌≡◌, map, length, IfOk, IfErr};
ghost use Rattle.vx_value.specs.Decimals.{smallest_width};
ghost use Rattle.vx_value.specs.Values.{decimal as decimal_value};
ghost use Rattle.vx_tree.specs.Buffers.{numbers_in};
ghost use Rattle.vx_tree.specs.Canonicals.{canonical_tree};
ghost use Rattle.vx_column.specs.Arguments.{ptype_in, integer_in, unscaled_in, AreIntegers, AreDecimals};
ghost use Rattle.vx_column.specs.ValidRows.{is_valid, HasValidity};
ghost use Rattle.vx_column.specs.Casts.{rescaled_row, rescaled_item};
ghost use Rattle.vx_column.specs.Operands.{number_in, HasRow, IsFaultyRow, IsDecimalColumnOf};

use crate::functions::kernel::{
    Calculation, DecimalCalculation, Operand, calculated_decimals, decimal_rows, integer_rows,
    stored_column,
};
use crate::rows::{ArgumentRows, DecimalOperand, IntegerOperand, ValidRows};
use std::alloc::Global;
use vx_mask::Buffer;
use vx_tree::{
    Canonical, NativeBuffer, NativeDecimalType, NativeNumber, by_decimal_type, by_native,
};
use vx_value::{DecimalDType, DecimalType, Rescaling, VortexError, VortexResult};

/// Casts the `valid` rows of `integers`, `len` rows, to decimals of type `target`; the others are null. `Fault` if a valid row
/// has no value in `target`.
#[tactic(auto, using(crate::proofs::ValidRowsLemmas::counted))]
pub(crate) fn integers_to_decimals(
    alloc: Global,
    target: DecimalDType,
    integers: IntegerOperand<'_>,
    valid: &ValidRows,
    len: usize,
) -> VortexResult<Canonical>
    requires integers { AreIntegers (ptype_in integers) integers len }
    requires valid { HasValidity valid.now len }
    ensures ok { IfOk result (λ c. IsDecimalColumnOf target valid.now (rescaled_row target 0 (integer_in integers.entry)) len (canonical_tree c)) }
    ensures err { IfErr result (IsFaultyRow (is_valid valid.now) (rescaled_row target 0 (integer_in integers.entry)) len) }
{
    let values = integer_rows(alloc, integers, len)?;
    let rescaling = Rescaling::new(target, 0);
    rescale_numbers(alloc, rescaling, values.buffer(), valid, len)
}

/// Casts the `valid` rows of `decimals`, `len` rows, to decimals of type `target`; the others are null. Shares the numbers if
/// they are of that type. `Fault` if a valid row has no value in `target`.
#[tactic(auto, using(crate::proofs::ValidRowsLemmas::counted))]
pub(crate) fn cast_decimals(
    alloc: Global,
    target: DecimalDType,
    decimals: DecimalOperand<'_>,
    valid: &ValidRows,
    len: usize,
) -> VortexResult<Canonical>
    requires decimals { AreDecimals decimals len }
    requires valid { HasValidity valid.now len }
    ensures ok { IfOk result (λ c.
        IsDecimalColumnOf target valid.now (rescaled_row target decimals.entry.decimal.scale (unscaled_in decimals.entry)) len (canonical_tree c)) }
    ensures err { IfErr result
        (IsFaultyRow (is_valid valid.now) (rescaled_row target decimals.entry.decimal.scale (unscaled_in decimals.entry)) len) }
{
    if decimals.decimal == target {
        return stored_column(alloc, ArgumentRows::Decimals(decimals), valid, len);
    }
    let values = decimal_rows(alloc, decimals, len)?;
    let rescaling = Rescaling::new(target, decimals.decimal.scale());
    rescale_numbers(alloc, rescaling, values.buffer(), valid, len)
}

/// Casts the `valid` rows of `numbers`, `len` rows; the others are null. `Fault` if a valid row has no value in the type.
fn rescale_numbers(
    alloc: Global,
    rescaling: Rescaling,
    numbers: &NativeBuffer,
    valid: &ValidRows,
    len: usize,
) -> VortexResult<Canonical>
    requires rows { length (numbers_in numbers.now) ≡ len }
    requires valid { HasValidity valid.now len }
    ensures ok { IfOk result (λ c. IsDecimalColumnOf rescaling.target valid.now (rescaled_item rescaling (numbers_in numbers.now)) len (canonical_tree c)) }
    ensures err { IfErr result (IsFaultyRow (is_valid valid.now) (rescaled_item rescaling (numbers_in numbers.now)) len) }
{
    let width = DecimalType::smallest_decimal_value_type(&rescaling.target());
    by_decimal_type!(width, rescale_into(alloc, rescaling, numbers, valid, len))
}

/// Casts the `valid` rows of `numbers`, `len` rows, to decimals that must be stored in the width of `U`; the others are null.
/// `Fault` if a valid row has no value in the type.
fn rescale_into<U: NativeDecimalType>(
    alloc: Global,
    rescaling: Rescaling,
    numbers: &NativeBuffer,
    valid: &ValidRows,
    len: usize,
) -> VortexResult<Canonical>
    requires kind { U.kind ≡ smallest_width rescaling.target.precision }
    requires rows { length (numbers_in numbers.now) ≡ len }
    requires valid { HasValidity valid.now len }
    ensures ok { IfOk result (λ c. IsDecimalColumnOf rescaling.target valid.now (rescaled_item rescaling (numbers_in numbers.now)) len (canonical_tree c)) }
    ensures err { IfErr result (IsFaultyRow (is_valid valid.now) (rescaled_item rescaling (numbers_in numbers.now)) len) }
{
    by_native!(
        numbers,
        |buffer| rescale_buffer::<_, U>(alloc, rescaling, buffer, valid, len)
    )
}

/// Casts the `valid` rows of `buffer`, `len` rows, to decimals that must be stored in the width of `U`; the others are null.
/// `Fault` if a valid row has no value in the type.
fn rescale_buffer<T: NativeNumber, U: NativeDecimalType>(
    alloc: Global,
    rescaling: Rescaling,
    buffer: &Buffer<T>,
    valid: &ValidRows,
    len: usize,
) -> VortexResult<Canonical>
    requires kind { U.kind ≡ smallest_width rescaling.target.precision }
    requires rows { length (map T.value buffer.now) ≡ len }
    requires valid { HasValidity valid.now len }
    ensures ok { IfOk result (λ c. IsDecimalColumnOf rescaling.target valid.now (rescaled_item rescaling (map T.value buffer.now)) len (canonical_tree c)) }
    ensures err { IfErr result (IsFaultyRow (is_valid valid.now) (rescaled_item rescaling (map T.value buffer.now)) len) }
{
    let numbers = Operand::Rows(buffer.as_slice());
    let rescaled = Rescaled { rescaling, numbers };
    calculated_decimals::<U, Rescaled<'_, T>>(alloc, &rescaled, valid, len)
}

/// Numbers that are cast to decimals.
#[derive(Clone, Copy)]
struct Rescaled<'a, T> {
    rescaling: Rescaling,
    numbers: Operand<'a, T>,
}

impl<'a, T: NativeNumber, U: NativeDecimalType> Calculation<U> for Rescaled<'a, T> {
    ghost has_row = { λ s i. HasRow s.numbers i × (U.kind ≡ smallest_width s.rescaling.target.precision) };

    ghost cell = { λ s i. rescaled_row s.rescaling.target s.rescaling.scale (number_in T.value s.numbers) i };

    ghost stands_for = { λ s z. decimal_value z s.rescaling.target.scale };

    #[inline]
    fn calculate_row(&self, index: usize) -> Option<U> {
        let number = self.numbers.row(index).wide();
        match self.rescaling.rescale(number) {
            Some(unscaled) => U::narrow(unscaled),
            None => None,
        }
    }
}

impl<'a, T: NativeNumber, U: NativeDecimalType> DecimalCalculation<U> for Rescaled<'a, T> {
    ghost of_type = { λ s. s.rescaling.target };

    fn decimal(&self) -> DecimalDType {
        self.rescaling.target()
    }
}
