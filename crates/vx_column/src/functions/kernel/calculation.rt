//! Columns of integers and of decimals, calculated row by row.

ghost use Rattle.std.specs.Prelude.{◌≡◌, ◌<◌, ℕ, ℤ, pos, true, map, length, IfOk, IfErr, IfNone, MatchOption};
ghost use Rattle.vx_value.specs.Decimals.{has_digits, smallest_width};
ghost use Rattle.vx_value.specs.declared.decimal.DecimalDType.{DecimalDType as DecimalTypeOf};
ghost use Rattle.vx_value.specs.Values.{Value, integer, decimal};
ghost use Rattle.vx_value.specs.Cell.{Cell, value, fault};
ghost use Rattle.vx_mask.specs.Logic.{bit_row};
ghost use Rattle.vx_tree.specs.Canonicals.{canonical_tree};
ghost use Rattle.vx_column.specs.Operands.{zero_unless, calculated_rows, IsFaultyRow, IsPrimitiveColumnOf, IsDecimalColumnOf};
ghost use Rattle.vx_column.specs.ValidRows.{is_valid, HasValidity};

use crate::functions::kernel::valid::{valid_decimals, valid_integers};
use crate::rows::ValidRows;
use std::alloc::Global;
use vx_mask::{BitBuffer, Buffer};
use vx_tree::{Canonical, NativeDecimalType, NativeInteger, NativeNumber};
use vx_value::{DecimalDType, VortexError, VortexResult};

/// A calculation of numbers of the type `U`, one for each row. (own)
pub(crate) trait Calculation<U: NativeNumber> {
    // row i exists
    ghost has_row: { Self → ℕ → Type 0 };

    // the cell at row i
    ghost cell: { Self → ℕ → Cell };

    // the value that a number stands for
    ghost stands_for: { Self → ℤ → Value };

    /// Calculates row `index`, which must exist; `None` if it has no value.
    fn calculate_row(&self, index: usize) -> Option<U>
        requires { has_row self.now index }
        ensures { MatchOption result (cell self.now index ≡ fault) (λ r. cell self.now index ≡ value (stands_for self.now (U.value r))) };
}

/// A calculation of integers. (own)
pub(crate) trait IntegerCalculation<U: NativeInteger>: Calculation<U> {
    /// States that each number stands for itself.
    fn are_integers(&self)
        ensures { Self.stands_for self.now ≡ integer };
}

/// A calculation of decimals of one type, numbers without their points. (own)
pub(crate) trait DecimalCalculation<U: NativeDecimalType>: Calculation<U> {
    // the type of the decimals
    ghost of_type: { Self → DecimalTypeOf };

    /// Returns the type of the decimals.
    fn decimal(&self) -> DecimalDType
        ensures value { result ≡ of_type self.now }
        ensures numbers { Self.stands_for self.now ≡ (λ z. decimal z (of_type self.now).scale) }
        ensures digits { (i : ℕ) (z : ℤ) → Self.cell self.now i ≡ value (decimal z (of_type self.now).scale)
            → has_digits (of_type self.now).precision z ≡ true };
}

/// Makes the column of `calculation`, `len` rows, null in each row that isn't `valid`. Calculates only valid rows; `Fault` if
/// one has no value. (own)
pub(crate) fn calculated_column<U: NativeInteger, C: IntegerCalculation<U>>(
    alloc: Global,
    calculation: &C,
    valid: &ValidRows,
    len: usize,
) -> VortexResult<Canonical>
    requires rows { (i : ℕ) → i < len → C.has_row calculation.now i }
    requires valid { HasValidity valid.now len }
    ensures ok { IfOk result (λ c. IsPrimitiveColumnOf U.kind valid.now (C.cell calculation.now) len (canonical_tree c)) }
    ensures err { IfErr result (IsFaultyRow (is_valid valid.now) (C.cell calculation.now) len) }
{
    let numbers = calculate_rows::<U, C>(alloc, calculation, valid, len)?;
    calculation.are_integers();
    let values = U::wrap(Buffer::from_vec(alloc, numbers)?);
    valid_integers(alloc, values, valid, len)
}

/// Makes the column of `calculation`, `len` rows of decimals, which must be stored in the width of `U`; null in each row that
/// isn't `valid`. Calculates only valid rows; `Fault` if one has no value. (own)
pub(crate) fn calculated_decimals<U: NativeDecimalType, C: DecimalCalculation<U>>(
    alloc: Global,
    calculation: &C,
    valid: &ValidRows,
    len: usize,
) -> VortexResult<Canonical>
    requires kind { U.kind ≡ smallest_width (C.of_type calculation.now).precision }
    requires rows { (i : ℕ) → i < len → C.has_row calculation.now i }
    requires valid { HasValidity valid.now len }
    ensures ok { IfOk result (λ c. IsDecimalColumnOf (C.of_type calculation.now) valid.now (C.cell calculation.now) len (canonical_tree c)) }
    ensures err { IfErr result (IsFaultyRow (is_valid valid.now) (C.cell calculation.now) len) }
{
    let numbers = calculate_rows::<U, C>(alloc, calculation, valid, len)?;
    let decimal = calculation.decimal();
    let values = U::wrap_decimals(Buffer::from_vec(alloc, numbers)?);
    valid_decimals(alloc, decimal, values, valid, len)
}

/// Calculates the `valid` rows of `calculation`, `len` rows; the others are 0. `Fault` if a valid row has no value. (own)
pub(crate) fn calculate_rows<U: NativeNumber, C: Calculation<U>>(
    alloc: Global,
    calculation: &C,
    valid: &ValidRows,
    len: usize,
) -> VortexResult<Vec<U>>
    requires rows { (i : ℕ) → i < len → C.has_row calculation.now i }
    requires valid { HasValidity valid.now len }
    ensures ok { IfOk result (λ v. map (λ x. value (C.stands_for calculation.now (U.value x))) v.items
        ≡ calculated_rows (C.stands_for calculation.now (pos 0)) (is_valid valid.now) (C.cell calculation.now) len) }
    ensures err { IfErr result (IsFaultyRow (is_valid valid.now) (C.cell calculation.now) len) }
{
    match valid {
        ValidRows::All(_) => calculate_all::<U, C>(alloc, calculation, len),
        ValidRows::Bits(valid) => calculate_valid::<U, C>(alloc, calculation, valid, len),
    }
}

/// Calculates each of `len` rows. `Fault` if a row has no value.
fn calculate_all<U: NativeNumber, C: Calculation<U>>(
    alloc: Global,
    calculation: &C,
    len: usize,
) -> VortexResult<Vec<U>>
    requires { (i : ℕ) → i < len → C.has_row calculation.now i }
    ensures ok { IfOk result (λ v. map (λ x. value (C.stands_for calculation.now (U.value x))) v.items
        ≡ calculated_rows (C.stands_for calculation.now (pos 0)) (λ i. true) (C.cell calculation.now) len) }
    ensures err { IfErr result (IsFaultyRow (λ i. true) (C.cell calculation.now) len) }
{
    let mut numbers = Vec::with_capacity(alloc, len)?;
    for index in 0..len {
        let Some(number) = calculation.calculate_row(index) else {
            return Err(VortexError::Fault);
        };
        numbers.push_reserved(number);
    }
    Ok(numbers)
}

/// Calculates the rows at the true bits of `valid`, `len` rows; the others are 0. `Fault` if a valid row has no value.
fn calculate_valid<U: NativeNumber, C: Calculation<U>>(
    alloc: Global,
    calculation: &C,
    valid: &BitBuffer,
    len: usize,
) -> VortexResult<Vec<U>>
    requires rows { (i : ℕ) → i < len → C.has_row calculation.now i }
    requires valid { length valid.now ≡ len }
    ensures ok { IfOk result (λ v. map (λ x. value (C.stands_for calculation.now (U.value x))) v.items
        ≡ calculated_rows (C.stands_for calculation.now (pos 0)) (bit_row valid.now) (C.cell calculation.now) len) }
    ensures err { IfErr result (IsFaultyRow (bit_row valid.now) (C.cell calculation.now) len) }
{
    let mut numbers = Vec::with_capacity(alloc, len)?;
    for index in 0..len {
        let is_valid = valid.value(index);
        let Some(number) = calculate_unless_null::<U, C>(calculation, index, is_valid) else {
            return Err(VortexError::Fault);
        };
        numbers.push_reserved(number);
    }
    Ok(numbers)
}

/// Calculates row `index`, which must exist, or returns 0 if it isn't valid. `None` if the row has no value.
#[inline]
fn calculate_unless_null<U: NativeNumber, C: Calculation<U>>(
    calculation: &C,
    index: usize,
    is_valid: bool,
) -> Option<U>
    requires { C.has_row calculation.now index }
    ensures cell { let cell = zero_unless (C.stands_for calculation.now (pos 0)) is_valid (C.cell calculation.now index) in
        MatchOption result (cell ≡ fault) (λ r. cell ≡ value (C.stands_for calculation.now (U.value r))) }
    ensures fault { IfNone result (is_valid ≡ true) }
{
    if is_valid {
        calculation.calculate_row(index)
    } else {
        Some(U::zero())
    }
}
