//! Opened columns, read row by row.

ghost use Rattle.std.specs.Prelude.{◌≡◌, ◌<◌, ℕ, true, IfOk};
ghost use Rattle.vx_value.specs.Errors.{OnlyOutOfMemory};
ghost use Rattle.vx_value.specs.Cell.{value};
ghost use Rattle.vx_value.specs.Values.{bytes as bytes_value};
ghost use Rattle.vx_value.specs.IsOf.{in_range};
ghost use Rattle.vx_value.specs.Decimals.{has_digits};
ghost use Rattle.vx_value.specs.View.{type_of};
ghost use Rattle.vx_value.specs.Nullabilities.{with_nullability};
ghost use Rattle.vx_tree.specs.ColumnTypes.{bytes_type};
ghost use Rattle.vx_column.specs.Arguments.{IsSized, AreStored, AreBytes, AreDecimals, AreIntegers, ptype_in, integer_in, unscaled_in, bytes_in, type_of_argument, type_of_rows, cell_at, value_at};

use crate::rows::argument::{
    Argument, ArgumentRows, BytesOperand, DecimalOperand, DecimalRows, IntegerOperand, IntegerRows,
};
use crate::rows::valid::ValidRows;
use std::alloc::Global;
use vx_mask::BitOperand;
use vx_tree::bytes_type;
use vx_value::{ByteBuffer, DType, Nullability, Scalar, ScalarValue, Storage, VortexResult};

impl Argument<'_> {
    /// Returns the value of row `index`, which must exist. Fails only with `OutOfMemory`. (own)
    #[inline]
    pub fn scalar(&self, alloc: Global, index: usize) -> VortexResult<Scalar>
        requires { (n : ℕ) × (index < n) × IsSized n self.now }
        ensures row { IfOk result (λ s. value s.value ≡ cell_at self.now index) }
        ensures typed { IfOk result (λ s. s.of_type ≡ type_of_argument self.now) }
        ensures err { OnlyOutOfMemory result }
    {
        match &self.valid {
            ValidRows::All(nullability) => self.rows.scalar(alloc, *nullability, index),
            ValidRows::Bits(bits) if bits.value(index) => {
                self.rows.scalar(alloc, Nullability::Nullable, index)
            }
            ValidRows::Bits(_) => Ok(Scalar::null(self.rows.nullable_type())),
        }
    }
}

impl ArgumentRows<'_> {
    /// Returns the nullable type of the values.
    fn nullable_type(self) -> DType
        requires { (n : ℕ) × AreStored Nullability.Nullable self n }
        ensures { type_of result ≡ type_of_rows Nullability.Nullable self.entry }
    {
        let nullability = Nullability::Nullable;
        match self {
            ArgumentRows::Nulls => DType::Null,
            ArgumentRows::Bits(_) => DType::Bool(nullability),
            ArgumentRows::Integers(integers) => DType::Primitive(integers.ptype(), nullability),
            ArgumentRows::Decimals(decimals) => DType::Decimal(decimals.decimal, nullability),
            ArgumentRows::Bytes(bytes) => bytes_type(bytes.storage, nullability),
        }
    }

    /// Returns the value that is stored in row `index`, which must exist, of a column of this nullability. Fails only with
    /// `OutOfMemory`.
    #[inline]
    fn scalar(self, alloc: Global, nullability: Nullability, index: usize) -> VortexResult<Scalar>
        requires { (n : ℕ) × (index < n) × AreStored nullability self n }
        ensures row { IfOk result (λ s. s.value ≡ value_at self.entry index) }
        ensures typed { IfOk result (λ s. s.of_type ≡ type_of_rows nullability self.entry) }
        ensures err { OnlyOutOfMemory result }
    {
        match self {
            ArgumentRows::Nulls => Ok(Scalar::null(DType::Null)),
            ArgumentRows::Bits(BitOperand::Bits(bits)) => {
                Ok(Scalar::bool(bits.value(index), nullability))
            }
            ArgumentRows::Bits(BitOperand::Bit(bit)) => Ok(Scalar::bool(bit, nullability)),
            ArgumentRows::Integers(integers) => {
                Ok(Scalar::primitive(integers.value(index), integers.ptype(), nullability))
            }
            ArgumentRows::Decimals(decimals) => {
                Ok(Scalar::decimal(decimals.value(index), decimals.decimal, nullability))
            }
            ArgumentRows::Bytes(bytes) => bytes_scalar(alloc, &bytes, nullability, index),
        }
    }
}

impl IntegerOperand<'_> {
    /// Returns the integer at row `index`, which must exist.
    #[inline]
    fn value(self, index: usize) -> i128
        requires { (n : ℕ) × (index < n) × AreIntegers (ptype_in self) self n }
        ensures value { result ≡ integer_in self.entry index }
        ensures ranged { in_range (ptype_in self.entry) result ≡ true }
    {
        match self.rows {
            IntegerRows::Rows(values) => values.wide_at(index),
            IntegerRows::Value(_, wide) => wide,
        }
    }
}

impl DecimalOperand<'_> {
    /// Returns the decimal at row `index`, which must exist, without its point.
    #[inline]
    fn value(self, index: usize) -> i128
        requires { (n : ℕ) × (index < n) × AreDecimals self n }
        ensures value { result ≡ unscaled_in self.entry index }
        ensures digits { has_digits self.entry.decimal.precision result ≡ true }
    {
        match self.rows {
            DecimalRows::Rows(values) => values.wide_at(index),
            DecimalRows::Value(unscaled) => unscaled,
        }
    }
}

/// Returns row `index` of `bytes`, which must exist, as a value of this nullability. Fails only with `OutOfMemory`.
fn bytes_scalar(
    alloc: Global,
    bytes: &BytesOperand<'_>,
    nullability: Nullability,
    index: usize,
) -> VortexResult<Scalar>
    requires { (n : ℕ) × (index < n) × AreBytes bytes.now n }
    ensures row { IfOk result (λ s. s.value ≡ bytes_value (bytes_in bytes.now index)) }
    ensures typed { IfOk result (λ s. s.of_type ≡ with_nullability nullability (bytes_type bytes.now.storage)) }
    ensures err { OnlyOutOfMemory result }
{
    let value = ByteBuffer::copy_from(alloc, bytes.value(index))?;
    let dtype = bytes_type(bytes.storage, nullability);
    Ok(Scalar::new_unchecked(dtype, Some(ScalarValue::Bytes(value))))
}
