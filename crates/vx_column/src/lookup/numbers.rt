//! Integers and decimals gathered by the numbers of their rows.

ghost use Rattle.std.specs.Prelude.{◌≡◌, ◌<◌, ℕ, length, true, IfOk};
ghost use Rattle.vx_value.specs.Errors.{OnlyOutOfMemory};
ghost use Rattle.vx_value.specs.Decimals.{smallest_width, has_digits};
ghost use Rattle.vx_value.specs.Values.{integer, decimal};
ghost use Rattle.vx_value.specs.Cell.{value};
ghost use Rattle.vx_tree.specs.Canonicals.{canonical_tree};
ghost use Rattle.vx_column.specs.Arguments.{ptype_in, AreIntegers, AreDecimals};
ghost use Rattle.vx_column.specs.LookedUp.{place_at, IsGathered, decimal_cell};
ghost use Rattle.vx_column.specs.Operands.{number_in};
ghost use Rattle.vx_column.specs.ValidRows.{HasValidity};
ghost use Rattle.vx_column.specs.declared.rows.argument.ArgumentRows.TheVariants.{Integers, Decimals};

use crate::functions::kernel::{
    Calculation, DecimalCalculation, IntegerCalculation, Operand, calculated_column,
    calculated_decimals, decimal_operand_of, operand_of,
};
use crate::rows::{DecimalOperand, IntegerOperand, ValidRows};
use std::alloc::Global;
use vx_tree::{
    Canonical, NativeDecimalType, NativeInteger, NativeNumber, by_decimal_type, by_type,
};
use vx_value::{DecimalDType, DecimalType, VortexResult};

/// Makes the column of the rows of `integers` at `places`, `len` of them; null in each row that isn't `valid`. Fails only with
/// `OutOfMemory`.
pub(crate) fn gather_integers(
    alloc: Global,
    integers: IntegerOperand<'_>,
    places: &[u64],
    valid: &ValidRows,
    len: usize,
) -> VortexResult<Canonical>
    requires integers { (n : ℕ) × AreIntegers (ptype_in integers) integers n }
    requires places { length places.now ≡ len }
    requires valid { HasValidity valid.now len }
    ensures ok { IfOk result (λ c. IsGathered (Integers integers.entry) places.now valid.now len (canonical_tree c)) }
    ensures err { OnlyOutOfMemory result }
{
    by_type!(
        integers.ptype(),
        gather_natives(alloc, integers, places, valid, len)
    )
}

/// Makes the column of the rows of `integers` at `places`, `len` of them, which must be of the type `T`; null in each row that
/// isn't `valid`. Fails only with `OutOfMemory`.
fn gather_natives<T: NativeInteger>(
    alloc: Global,
    integers: IntegerOperand<'_>,
    places: &[u64],
    valid: &ValidRows,
    len: usize,
) -> VortexResult<Canonical>
    requires integers { (n : ℕ) × AreIntegers T.kind integers n }
    requires places { length places.now ≡ len }
    requires valid { HasValidity valid.now len }
    ensures ok { IfOk result (λ c. IsGathered (Integers integers.entry) places.now valid.now len (canonical_tree c)) }
    ensures err { OnlyOutOfMemory result }
{
    let values: Operand<'_, T> = operand_of(integers);
    let gathered = Gathered { values, places };
    calculated_column(alloc, &gathered, valid, len)
}

/// Makes the column of the rows of `decimals` at `places`, `len` of them; null in each row that isn't `valid`. Fails only with
/// `OutOfMemory`.
pub(crate) fn gather_decimals(
    alloc: Global,
    decimals: DecimalOperand<'_>,
    places: &[u64],
    valid: &ValidRows,
    len: usize,
) -> VortexResult<Canonical>
    requires decimals { (n : ℕ) × AreDecimals decimals n }
    requires places { length places.now ≡ len }
    requires valid { HasValidity valid.now len }
    ensures ok { IfOk result (λ c. IsGathered (Decimals decimals.entry) places.now valid.now len (canonical_tree c)) }
    ensures err { OnlyOutOfMemory result }
{
    let width = DecimalType::smallest_decimal_value_type(&decimals.decimal);
    by_decimal_type!(width, gather_unscaled(alloc, decimals, places, valid, len))
}

/// Makes the column of the rows of `decimals` at `places`, `len` of them, which must be stored in the width of `T`; null in
/// each row that isn't `valid`. Fails only with `OutOfMemory`.
fn gather_unscaled<T: NativeDecimalType>(
    alloc: Global,
    decimals: DecimalOperand<'_>,
    places: &[u64],
    valid: &ValidRows,
    len: usize,
) -> VortexResult<Canonical>
    requires kind { T.kind ≡ smallest_width decimals.decimal.precision }
    requires decimals { (n : ℕ) × AreDecimals decimals n }
    requires places { length places.now ≡ len }
    requires valid { HasValidity valid.now len }
    ensures ok { IfOk result (λ c. IsGathered (Decimals decimals.entry) places.now valid.now len (canonical_tree c)) }
    ensures err { OnlyOutOfMemory result }
{
    let values: Operand<'_, T> = decimal_operand_of(decimals);
    let numbers = Gathered { values, places };
    let decimal = decimals.decimal;
    let gathered = GatheredDecimals { numbers, decimal };
    calculated_decimals(alloc, &gathered, valid, len)
}

/// Numbers at the places of others.
#[derive(Clone, Copy)]
struct Gathered<'a, T> {
    values: Operand<'a, T>,
    places: &'a [u64],
}

impl<'a, T: NativeNumber> Gathered<'a, T> {
    /// Returns the number at place `index`, which must exist; 0 if the place is past the last row.
    #[inline]
    fn number(&self, index: usize) -> T
        requires { index < length self.now.places.now }
        ensures { T.value result ≡ number_in T.value self.now.values (place_at self.now.places.now index) }
    {
        let place = self.places[index] as usize;
        match self.values {
            Operand::Rows(rows) if place < rows.len() => rows[place],
            Operand::Rows(_) => T::zero(),
            Operand::Value(number) => number,
        }
    }
}

impl<'a, T: NativeInteger> Calculation<T> for Gathered<'a, T> {
    ghost has_row = { λ s i. i < length s.places.now };

    ghost cell = { λ s i. value (integer (number_in T.value s.values (place_at s.places.now i))) };

    ghost stands_for = { λ s. integer };

    #[inline]
    fn calculate_row(&self, index: usize) -> Option<T> {
        Some(self.number(index))
    }
}

impl<'a, T: NativeInteger> IntegerCalculation<T> for Gathered<'a, T> {
    fn are_integers(&self) {}
}

/// Decimals at the places of others, without their points.
#[derive(Clone, Copy)]
struct GatheredDecimals<'a, T> {
    numbers: Gathered<'a, T>,
    decimal: DecimalDType,
}

impl<'a, T: NativeDecimalType> Calculation<T> for GatheredDecimals<'a, T> {
    ghost has_row = { λ s i. (i < length s.numbers.places.now)
        × (has_digits s.decimal.precision (number_in T.value s.numbers.values (place_at s.numbers.places.now i)) ≡ true) };

    ghost cell = { λ s i. decimal_cell s.decimal (number_in T.value s.numbers.values (place_at s.numbers.places.now i)) };

    ghost stands_for = { λ s z. decimal z s.decimal.scale };

    #[inline]
    fn calculate_row(&self, index: usize) -> Option<T> {
        Some(self.numbers.number(index))
    }
}

impl<'a, T: NativeDecimalType> DecimalCalculation<T> for GatheredDecimals<'a, T> {
    ghost of_type = { λ s. s.decimal };

    fn decimal(&self) -> DecimalDType {
        self.decimal
    }
}
