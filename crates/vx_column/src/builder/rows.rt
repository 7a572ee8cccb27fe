//! Rows of columns appended to growing values, by kind.

ghost use Rattle.std.specs.Prelude.{◌≡◌, ◌<◌, ◌+◌, ◌^◌, ◌++◌, [], ℕ, false, pos, length, slice_index_or, if◌then◌else◌, OnOk, OnErr};
ghost use Rattle.vx_value.specs.Errors.{OnlyOutOfMemory};
ghost use Rattle.vx_value.specs.Decimals.{smallest_width};
ghost use Rattle.vx_mask.specs.Operands.{bit_in, HasBits};
ghost use Rattle.vx_column.specs.Arguments.{integer_in, ptype_in, unscaled_in, bytes_in, HasStored, AreIntegers, AreDecimals, AreBytes};
ghost use Rattle.vx_column.specs.ValidRows.{is_valid, HasValidity};
ghost use Rattle.vx_column.specs.Growing.{rows_or, AreRanged};

use crate::functions::cast::know_integers;
use crate::functions::kernel::{bit_rows, decimal_rows, integer_rows, keep_valid};
use crate::rows::{
    ArgumentRows, BytesOperand, DecimalOperand, DecimalRows, IntegerOperand, IntegerRows, ValidRows,
};
use std::alloc::Global;
use vx_mask::{BitBuilder, BitOperand};
use vx_tree::{BinaryBuilder, NativeKind, NativeValues, NativeVec};
use vx_value::{DecimalType, PType, VortexResult};

/// States that `rows`, `len` of them, are in the range of their type if they are integers.
pub(super) fn know_rows(rows: ArgumentRows<'_>, len: usize)
    requires { HasStored rows len }
    ensures { AreRanged rows.entry len }
{
    if let ArgumentRows::Integers(integers) = rows {
        know_integers(integers, len);
    }
}

/// Appends `bits`, `len` rows, with `false` in place of each that isn't `valid`: by words, or as copies of a single bit. Fails
/// only with `OutOfMemory`; the bits are then unchanged.
pub(super) fn push_bits(
    kept: &mut BitBuilder,
    alloc: Global,
    bits: BitOperand<'_>,
    valid: &ValidRows,
    len: usize,
) -> VortexResult<()>
    requires bits { HasBits bits len }
    requires valid { HasValidity valid.now len }
    requires fits { length kept.old + len < 2 ^ 64 }
    ensures ok { OnOk result (kept.new ≡ kept.old ++ rows_or false valid.now (bit_in bits.entry) len) }
    ensures err { OnErr result (kept.new ≡ kept.old) }
    ensures memory { OnlyOutOfMemory result }
{
    if let (BitOperand::Bit(bit), ValidRows::All(_)) = (bits, valid) {
        return Ok(kept.push_copies(bit, len)?);
    }
    let bits = keep_valid(alloc, bit_rows(alloc, bits, len)?, valid, len)?;
    Ok(kept.append(&bits)?)
}

/// Appends `integers`, `len` rows, with 0 in place of each that isn't `valid`: in one copy if all are. Fails only with
/// `OutOfMemory`; the numbers are then unchanged.
pub(super) fn push_integers(
    kept: &mut NativeVec<PType>,
    alloc: Global,
    integers: IntegerOperand<'_>,
    valid: &ValidRows,
    len: usize,
) -> VortexResult<()>
    requires integers { AreIntegers (ptype_in integers) integers len }
    requires kind { ptype_in integers ≡ kept.old.kind }
    requires valid { HasValidity valid.now len }
    ensures ok { OnOk result (kept.new ≡ record { kind = kept.old.kind; numbers = kept.old.numbers ++ rows_or (pos 0) valid.now (integer_in integers.entry) len }) }
    ensures err { OnErr result (kept.new ≡ kept.old) }
    ensures memory { OnlyOutOfMemory result }
{
    if let (IntegerRows::Value(_, wide), ValidRows::All(_)) = (integers.rows, valid) {
        return kept.push_copies(wide, len);
    }
    let numbers = integer_rows(alloc, integers, len)?;
    push_numbers(kept, &numbers, valid)
}

/// Appends `decimals`, `len` rows, without their points, with 0 in place of each that isn't `valid`: in one copy if all are.
/// Fails only with `OutOfMemory`; the numbers are then unchanged.
pub(super) fn push_decimals(
    kept: &mut NativeVec<DecimalType>,
    alloc: Global,
    decimals: DecimalOperand<'_>,
    valid: &ValidRows,
    len: usize,
) -> VortexResult<()>
    requires decimals { AreDecimals decimals len }
    requires kind { smallest_width decimals.decimal.precision ≡ kept.old.kind }
    requires valid { HasValidity valid.now len }
    ensures ok { OnOk result (kept.new ≡ record { kind = kept.old.kind; numbers = kept.old.numbers ++ rows_or (pos 0) valid.now (unscaled_in decimals.entry) len }) }
    ensures err { OnErr result (kept.new ≡ kept.old) }
    ensures memory { OnlyOutOfMemory result }
{
    if let (DecimalRows::Value(unscaled), ValidRows::All(_)) = (decimals.rows, valid) {
        return kept.push_copies(unscaled, len);
    }
    let numbers = decimal_rows(alloc, decimals, len)?;
    push_numbers(kept, &numbers, valid)
}

/// Appends `numbers`, which must be of the same type, with 0 in place of each that isn't `valid`. Fails only with `OutOfMemory`;
/// the numbers are then unchanged.
fn push_numbers<K: NativeKind>(
    kept: &mut NativeVec<K>,
    numbers: &NativeValues<K>,
    valid: &ValidRows,
) -> VortexResult<()>
    requires kind { numbers.now.kind ≡ kept.old.kind }
    requires valid { HasValidity valid.now (length numbers.now.numbers) }
    ensures ok { OnOk result (kept.new ≡ record {
      kind = kept.old.kind;
      numbers = kept.old.numbers
          ++ rows_or (pos 0) valid.now (λ i. slice_index_or numbers.now.numbers i (pos 0)) (length numbers.now.numbers);
    }) }
    ensures err { OnErr result (kept.new ≡ kept.old) }
    ensures memory { OnlyOutOfMemory result }
{
    match valid {
        ValidRows::All(_) => kept.append(numbers),
        ValidRows::Bits(bits) => kept.append_valid(numbers, bits),
    }
}

/// Appends `bytes`, `len` rows, copying the bytes of each that is `valid`; a row that isn't has none. Makes room for all of them
/// first. Fails only with `OutOfMemory`; the rows are then unchanged.
pub(super) fn push_bytes(
    kept: &mut BinaryBuilder,
    bytes: BytesOperand<'_>,
    valid: &ValidRows,
    len: usize,
) -> VortexResult<()>
    requires bytes { AreBytes bytes len }
    requires valid { HasValidity valid.now len }
    ensures ok { OnOk result (kept.new ≡ kept.old ++ rows_or [] valid.now (bytes_in bytes.entry) len) }
    ensures err { OnErr result (kept.new ≡ kept.old) }
    ensures memory { OnlyOutOfMemory result }
{
    let told = kept.len();
    kept.reserve(len, count_bytes(&bytes, valid, len))?;
    if let Err(e) = push_each(kept, &bytes, valid, len) {
        kept.truncate(told);
        return Err(e);
    }
    Ok(())
}

/// Returns how many bytes the valid ones of `len` rows have together, or `usize::MAX` if there are more.
fn count_bytes(bytes: &BytesOperand<'_>, valid: &ValidRows, len: usize) -> usize
    requires bytes { AreBytes bytes.now len }
    requires valid { HasValidity valid.now len }
{
    let mut count = 0usize;
    for index in 0..len {
        count = count.saturating_add(valid_bytes(bytes, valid, index).len());
    }
    count
}

/// Appends `bytes` as `push_bytes` does, but after an error some of the rows may be appended.
fn push_each(
    kept: &mut BinaryBuilder,
    bytes: &BytesOperand<'_>,
    valid: &ValidRows,
    len: usize,
) -> VortexResult<()>
    requires bytes { AreBytes bytes.now len }
    requires valid { HasValidity valid.now len }
    ensures ok { OnOk result (kept.new ≡ kept.old ++ rows_or [] valid.now (bytes_in bytes.now) len) }
    ensures err { OnErr result ((n : ℕ) × (kept.new ≡ kept.old ++ rows_or [] valid.now (bytes_in bytes.now) n)) }
    ensures memory { OnlyOutOfMemory result }
{
    for index in 0..len {
        kept.push(valid_bytes(bytes, valid, index))?;
    }
    Ok(())
}

/// Returns the bytes of row `index`, which must exist, or none if it isn't `valid`.
#[inline]
fn valid_bytes<'a>(bytes: &'a BytesOperand<'_>, valid: &ValidRows, index: usize) -> &'a [u8]
    requires bytes { (n : ℕ) × (index < n) × AreBytes bytes.now n }
    requires valid { (n : ℕ) × (index < n) × HasValidity valid.now n }
    ensures { result.now ≡ (if is_valid valid.now index then bytes_in bytes.now index else []) }
{
    if valid.is_valid(index) {
        bytes.value(index)
    } else {
        &[]
    }
}
