//! Columns of the rows that an argument stores.

ghost use Rattle.std.specs.Prelude.{◌≡◌, true, map, IfOk};
ghost use Rattle.std.specs.List.{range_with_len};
ghost use Rattle.vx_value.specs.Errors.{OnlyOutOfMemory};
ghost use Rattle.vx_value.specs.Nullabilities.{with_nullability};
ghost use Rattle.vx_value.specs.Cell.{value};
ghost use Rattle.vx_tree.specs.DecimalNumbers.{numbers_of, decimal_type_of};
ghost use Rattle.vx_mask.specs.Operands.{bit_in, HasBits};
ghost use Rattle.vx_tree.specs.Natives.{values_of, ptype_of};
ghost use Rattle.vx_tree.specs.ColumnTypes.{are_decimals_of};
ghost use Rattle.vx_tree.specs.Canonicals.{canonical_tree};
ghost use Rattle.vx_tree.specs.Tree.{dtype};
ghost use Rattle.vx_column.specs.Arguments.{integer_in, ptype_in, unscaled_in, bytes_in, plain_type, value_at, stored_decimals, HasStored, AreIntegers, AreDecimals, AreBytes};
ghost use Rattle.vx_column.specs.Computed.{IsColumnOfCells};
ghost use Rattle.vx_column.specs.ValidRows.{HasValidity, nullability_in};
ghost use Rattle.vx_tree.specs.Views.{rows_of};

use crate::functions::kernel::valid::{valid_bools, valid_bytes, valid_decimals, valid_integers};
use crate::rows::{
    ArgumentRows, BytesOperand, BytesRows, DecimalOperand, DecimalRows, IntegerOperand,
    IntegerRows, ValidRows,
};
use std::alloc::{AllocError, Global};
use vx_mask::{BitBuffer, BitOperand};
use vx_tree::{BinaryViews, Canonical, DecimalValues, NullArray, PrimitiveValues};
use vx_value::{ByteBuffer, DecimalType, VortexResult};

/// Returns `bits` as `len` rows: shares a buffer, repeats a single bit. (own)
pub(crate) fn bit_rows(
    alloc: Global,
    bits: BitOperand<'_>,
    len: usize,
) -> Result<BitBuffer, AllocError>
    requires { HasBits bits len }
    ensures { IfOk result (λ b. b ≡ map (λ i. bit_in bits.entry i) (range_with_len 0 len)) }
{
    match bits {
        BitOperand::Bits(rows) => Ok(rows.clone()?),
        BitOperand::Bit(bit) => BitBuffer::repeat(alloc, bit, len),
    }
}

/// Returns `integers` as `len` rows: shares a buffer, repeats a single integer. Fails only with
/// `OutOfMemory`. (own)
pub(crate) fn integer_rows(
    alloc: Global,
    integers: IntegerOperand<'_>,
    len: usize,
) -> VortexResult<PrimitiveValues>
    requires { AreIntegers (ptype_in integers) integers len }
    ensures kind { IfOk result (λ v. ptype_of v ≡ ptype_in integers.entry) }
    ensures values { IfOk result (λ v. values_of v ≡ map (λ i. integer_in integers.entry i) (range_with_len 0 len)) }
    ensures err { OnlyOutOfMemory result }
{
    match integers.rows {
        IntegerRows::Rows(values) => Ok(values.clone()?),
        IntegerRows::Value(ptype, wide) => PrimitiveValues::repeat(alloc, ptype, wide, len),
    }
}

/// Returns `decimals` as `len` rows: shares a buffer, repeats a single number. Fails only with
/// `OutOfMemory`. (own)
pub(crate) fn decimal_rows(
    alloc: Global,
    decimals: DecimalOperand<'_>,
    len: usize,
) -> VortexResult<DecimalValues>
    requires { AreDecimals decimals len }
    ensures stored { IfOk result (λ v. are_decimals_of (stored_decimals decimals.entry.decimal) (decimal_type_of v) (numbers_of v) ≡ true) }
    ensures values { IfOk result (λ v. numbers_of v ≡ map (λ i. unscaled_in decimals.entry i) (range_with_len 0 len)) }
    ensures err { OnlyOutOfMemory result }
{
    match decimals.rows {
        DecimalRows::Rows(values) => Ok(values.clone()?),
        DecimalRows::Value(unscaled) => {
            let width = DecimalType::smallest_decimal_value_type(&decimals.decimal);
            DecimalValues::repeat(alloc, width, unscaled, len)
        }
    }
}

/// Returns `bytes` as `len` rows: shares a column, copies the bytes of a single value once. Fails only with
/// `OutOfMemory`. (own)
pub(crate) fn byte_rows(
    alloc: Global,
    bytes: BytesOperand<'_>,
    len: usize,
) -> VortexResult<BinaryViews>
    requires { AreBytes bytes len }
    ensures ok { IfOk result (λ r. rows_of r ≡ map (λ i. bytes_in bytes.entry i) (range_with_len 0 len)) }
    ensures err { OnlyOutOfMemory result }
{
    match bytes.rows {
        BytesRows::Rows(rows) => Ok(rows.clone()?),
        BytesRows::Value(value) => {
            let value = ByteBuffer::copy_from(alloc, value)?;
            BinaryViews::repeat(alloc, value, len)
        }
    }
}

/// Makes the column of `rows`, `len` rows, null in each row that isn't `valid`. Shares the buffer of `rows`, or repeats a
/// single value; copies bits if there may be nulls. Fails only with `OutOfMemory`. (own)
pub(crate) fn stored_column(
    alloc: Global,
    rows: ArgumentRows<'_>,
    valid: &ValidRows,
    len: usize,
) -> VortexResult<Canonical>
    requires rows { HasStored rows len }
    requires valid { HasValidity valid.now len }
    ensures ok { IfOk result (λ c. (dtype (canonical_tree c) ≡ with_nullability (nullability_in valid.now) (plain_type rows.entry))
        × IsColumnOfCells valid.now (λ i. value (value_at rows.entry i)) len (canonical_tree c)) }
    ensures err { OnlyOutOfMemory result }
{
    match rows {
        ArgumentRows::Nulls => Ok(Canonical::Null(NullArray::new(alloc, len)?)),
        ArgumentRows::Bits(bits) => {
            let bits = bit_rows(alloc, bits, len)?;
            valid_bools(alloc, bits, valid, len)
        }
        ArgumentRows::Integers(integers) => {
            let values = integer_rows(alloc, integers, len)?;
            valid_integers(alloc, values, valid, len)
        }
        ArgumentRows::Decimals(decimals) => {
            let values = decimal_rows(alloc, decimals, len)?;
            valid_decimals(alloc, decimals.decimal, values, valid, len)
        }
        ArgumentRows::Bytes(bytes) => {
            let rows = byte_rows(alloc, bytes, len)?;
            valid_bytes(alloc, bytes.storage, rows, valid, len)
        }
    }
}
