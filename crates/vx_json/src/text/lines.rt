//! The lines of a column's rows.

ghost use Rattle.std.specs.Prelude.{◌≡◌, ◌<◌, [], true, ◌++◌, ℕ, pos, List, length, map, slice_index_or, OnOk, string_bytes};
ghost use Rattle.std.specs.Fmt.{signed_decimal};
ghost use Rattle.std.specs.Str.{is_utf8};
ghost use Rattle.hex.specs.Hex.{encode_lower};
ghost use Rattle.serde_json.specs.Data.{string};
ghost use Rattle.serde_json.specs.Written.{compact_text};
ghost use Rattle.vx_value.specs.Errors.{OnlyOutOfMemory};
ghost use Rattle.vx_mask.specs.Logic.{bit_row};
ghost use Rattle.vx_tree.specs.Natives.{values_of, ptype_of};
ghost use Rattle.vx_tree.specs.DecimalNumbers.{numbers_of, decimal_type_of};
ghost use Rattle.vx_tree.specs.ColumnTypes.{are_bytes_of};
ghost use Rattle.vx_column.specs.Arguments.{IsSized};
ghost use Rattle.vx_column.specs.ValidRows.{is_valid, HasValidity};
ghost use Rattle.vx_json.specs.RowText.{boolean_text, in_quotes};
ghost use Rattle.vx_json.specs.Lines.{lines, integer_lines, decimal_lines, bytes_lines, row_text_at, row_lines, unless_null};
ghost use Rattle.vx_tree.specs.Views.{rows_of};

use crate::text::printed::PrintedNumber;
use crate::text::rows::{push_decimal, push_hex, push_integer, push_row, push_utf8};
use vx_column::{
    Argument, ArgumentRows, BytesOperand, BytesRows, DecimalOperand, DecimalRows, IntegerOperand,
    IntegerRows, ValidRows,
};
use vx_mask::{BitBuffer, BitOperand};
use vx_tree::{
    BinaryViews, DecimalValues, NativeDecimalType, NativeInteger, PrimitiveValues, by_decimal_type,
    by_type,
};
use vx_value::{Storage, VortexResult};

/// Rows that each have a text. (own)
trait TextRows {
    // row i exists
    ghost has_row: { Self → ℕ → Type 0 };

    // the text of row i
    ghost text_at: { Self → ℕ → List ℕ };

    /// Appends the text of row `index`, which must exist. Fails only with `OutOfMemory`; part of the text may have been
    /// appended.
    fn push_text(&self, text: &mut String, index: usize) -> VortexResult<()>
        requires { has_row self.now index }
        ensures ok { OnOk result (string_bytes text.new ≡ string_bytes text.old ++ text_at self.now index) }
        ensures err { OnlyOutOfMemory result };
}

/// The texts of a column of booleans, as if no row were null.
impl TextRows for BitBuffer {
    ghost has_row = { λ bits i. i < length bits };

    ghost text_at = { λ bits i. boolean_text (bit_row bits i) };

    #[inline]
    fn push_text(&self, text: &mut String, index: usize) -> VortexResult<()> {
        let row = if self.value(index) { "true" } else { "false" };
        Ok(text.push_str(row)?)
    }
}

/// The values of a column of integers.
#[derive(Clone, Copy)]
struct Integers<'a, T> {
    values: &'a [T],
}

/// The texts of the integers, as if no row were null.
impl<'a, T: PrintedNumber> TextRows for Integers<'a, T> {
    ghost has_row = { λ s i. i < length s.values.now };

    ghost text_at = { λ s i. signed_decimal (slice_index_or (map T.value s.values.now) i (pos 0)) };

    #[inline]
    fn push_text(&self, text: &mut String, index: usize) -> VortexResult<()> {
        Ok(push_integer(text, self.values[index])?)
    }
}

/// The numbers of a column of decimals, without their points.
#[derive(Clone, Copy)]
struct Decimals<'a, T> {
    numbers: &'a [T],
}

/// The texts of the decimals, as if no row were null.
impl<'a, T: PrintedNumber> TextRows for Decimals<'a, T> {
    ghost has_row = { λ s i. i < length s.numbers.now };

    ghost text_at = { λ s i. in_quotes (signed_decimal (slice_index_or (map T.value s.numbers.now) i (pos 0))) };

    #[inline]
    fn push_text(&self, text: &mut String, index: usize) -> VortexResult<()> {
        Ok(push_decimal(text, self.numbers[index])?)
    }
}

/// The rows of a column of text.
#[derive(Clone, Copy)]
struct Texts<'a> {
    rows: &'a BinaryViews,
}

/// The texts of the rows, as if no row were null.
impl TextRows for Texts<'_> {
    ghost has_row = { λ s i. (i < length s.rows.now.views) × (is_utf8 (slice_index_or (rows_of s.rows.now) i []) ≡ true) };

    ghost text_at = { λ s i. compact_text (string (slice_index_or (rows_of s.rows.now) i [])) };

    #[inline]
    fn push_text(&self, text: &mut String, index: usize) -> VortexResult<()> {
        Ok(push_utf8(text, self.rows.value(index))?)
    }
}

/// The rows of a column of bytes.
#[derive(Clone, Copy)]
struct ByteRows<'a> {
    rows: &'a BinaryViews,
}

/// The texts of the rows, as if no row were null.
impl TextRows for ByteRows<'_> {
    ghost has_row = { λ s i. i < length s.rows.now.views };

    ghost text_at = { λ s i. in_quotes (encode_lower (slice_index_or (rows_of s.rows.now) i [])) };

    #[inline]
    fn push_text(&self, text: &mut String, index: usize) -> VortexResult<()> {
        Ok(push_hex(text, self.rows.value(index))?)
    }
}

/// The texts of any column, with a scalar for each row.
impl TextRows for Argument<'_> {
    ghost has_row = { λ a i. (n : ℕ) × (i < n) × IsSized n a };

    ghost text_at = { λ a i. unless_null (is_valid a.valid i) (row_text_at a i) };

    #[inline]
    fn push_text(&self, text: &mut String, index: usize) -> VortexResult<()> {
        let alloc = *text.allocator();
        Ok(push_row(text, &self.scalar(alloc, index)?)?)
    }
}

/// Appends a line for each of `len` rows: its text if the row is `valid`, else `null`. Fails only with `OutOfMemory`; some of
/// the lines may have been appended.
fn push_lines<R: TextRows>(
    text: &mut String,
    rows: &R,
    valid: &ValidRows,
    len: usize,
) -> VortexResult<()>
    requires rows { (i : ℕ) → i < len → R.has_row rows.now i }
    requires valid { HasValidity valid.now len }
    ensures ok { OnOk result (string_bytes text.new ≡ string_bytes text.old ++ lines (is_valid valid.now) (R.text_at rows.now) len) }
    ensures err { OnlyOutOfMemory result }
{
    for index in 0..len {
        if valid.is_valid(index) {
            rows.push_text(text, index)?;
            text.push('\n')?;
        } else {
            text.push_str("null\n")?;
        }
    }
    Ok(())
}

/// Appends a line for each of `values`, which must be of type `T`: the text if the row is `valid`, else `null`.
fn push_natives<T: NativeInteger + PrintedNumber>(
    text: &mut String,
    values: &PrimitiveValues,
    valid: &ValidRows,
) -> VortexResult<()>
    requires kind { ptype_of values.now ≡ T.kind }
    requires valid { HasValidity valid.now (length (values_of values.now)) }
    ensures ok { OnOk result (string_bytes text.new ≡ string_bytes text.old ++ integer_lines valid.now (values_of values.now)) }
    ensures err { OnlyOutOfMemory result }
{
    let integers = Integers {
        values: T::numbers(values).as_slice(),
    };
    push_lines(text, &integers, valid, values.len())?;
    Ok(())
}

/// Appends a line for each of `values`: the text if the row is `valid`, else `null`.
fn push_integers(text: &mut String, values: &PrimitiveValues, valid: &ValidRows) -> VortexResult<()>
    requires { HasValidity valid.now (length (values_of values.now)) }
    ensures ok { OnOk result (string_bytes text.new ≡ string_bytes text.old ++ integer_lines valid.now (values_of values.now)) }
    ensures err { OnlyOutOfMemory result }
{
    by_type!(values.ptype(), push_natives(text, values, valid))
}

/// Appends a line for each of `values`, decimals without their points as integers of type `T`: the text if the row is `valid`,
/// else `null`.
fn push_native_decimals<T: NativeDecimalType + PrintedNumber>(
    text: &mut String,
    values: &DecimalValues,
    valid: &ValidRows,
) -> VortexResult<()>
    requires kind { decimal_type_of values.now ≡ T.kind }
    requires valid { HasValidity valid.now (length (numbers_of values.now)) }
    ensures ok { OnOk result (string_bytes text.new ≡ string_bytes text.old ++ decimal_lines valid.now (numbers_of values.now)) }
    ensures err { OnlyOutOfMemory result }
{
    let decimals = Decimals {
        numbers: T::decimals(values).as_slice(),
    };
    push_lines(text, &decimals, valid, values.len())?;
    Ok(())
}

/// Appends a line for each of `values`, decimals without their points: the text if the row is `valid`, else `null`.
fn push_decimals(text: &mut String, values: &DecimalValues, valid: &ValidRows) -> VortexResult<()>
    requires { HasValidity valid.now (length (numbers_of values.now)) }
    ensures ok { OnOk result (string_bytes text.new ≡ string_bytes text.old ++ decimal_lines valid.now (numbers_of values.now)) }
    ensures err { OnlyOutOfMemory result }
{
    by_decimal_type!(
        values.values_type(),
        push_native_decimals(text, values, valid)
    )
}

/// Appends a line for each of `rows`, `len` rows of text or bytes (`storage` says which): the text if the row is `valid`, else
/// `null`.
fn push_bytes(
    text: &mut String,
    storage: Storage,
    rows: &BinaryViews,
    valid: &ValidRows,
    len: usize,
) -> VortexResult<()>
    requires rows { (length rows.now.views ≡ len) × (are_bytes_of storage (rows_of rows.now) ≡ true) }
    requires valid { HasValidity valid.now len }
    ensures ok { OnOk result (string_bytes text.new ≡ string_bytes text.old ++ bytes_lines storage valid.now (rows_of rows.now) len) }
    ensures err { OnlyOutOfMemory result }
{
    match storage {
        Storage::Text => push_lines(text, &Texts { rows }, valid, len),
        _ => push_lines(text, &ByteRows { rows }, valid, len),
    }
}

/// Appends a line for each of the `len` rows of `argument`. Rows of columns are written without a scalar. Fails only with
/// `OutOfMemory`; some of the lines may have been appended.
pub(crate) fn push_rows(text: &mut String, argument: &Argument<'_>, len: usize) -> VortexResult<()>
    requires { IsSized len argument.now }
    ensures ok { OnOk result (string_bytes text.new ≡ string_bytes text.old ++ row_lines argument.now len) }
    ensures err { OnlyOutOfMemory result }
{
    let valid = &argument.valid;
    match argument.rows {
        ArgumentRows::Bits(BitOperand::Bits(bits)) => push_lines(text, bits, valid, len)?,
        ArgumentRows::Integers(
            IntegerOperand {
                rows: IntegerRows::Rows(values),
                dtype: _,
            },
        ) => push_integers(text, values, valid)?,
        ArgumentRows::Decimals(
            DecimalOperand {
                rows: DecimalRows::Rows(values),
                decimal: _,
            },
        ) => push_decimals(text, values, valid)?,
        ArgumentRows::Bytes(
            BytesOperand {
                rows: BytesRows::Rows(rows),
                storage,
            },
        ) => push_bytes(text, storage, rows, valid, len)?,
        _ => push_lines(text, argument, valid, len)?,
    }
    Ok(())
}
