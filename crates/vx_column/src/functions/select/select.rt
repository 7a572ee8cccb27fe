//! Rows chosen between two arguments by bits.

ghost use Rattle.std.specs.Prelude.{◌≡◌, ◌<◌, ◌∷◌, [], ℕ, map, length, IfOk, if◌then◌else◌};
ghost use Rattle.std.specs.List.{range_with_len};
ghost use Rattle.vx_value.specs.Errors.{OnlyOutOfMemory};
ghost use Rattle.vx_mask.specs.Operands.{bit_in, HasBits};
ghost use Rattle.vx_value.specs.Nullabilities.{union};
ghost use Rattle.vx_value.specs.Decimals.{smallest_width};
ghost use Rattle.vx_fn.specs.declared.function.ScalarFnRef.TheVariants.{Zip, FillNull};
ghost use Rattle.vx_tree.specs.Canonicals.{canonical_tree};
ghost use Rattle.vx_column.specs.Arguments.{plain_type, ptype_in, bytes_in, HasStored, AreBytes};
ghost use Rattle.vx_column.specs.Computed.{Takes, IsCanonicalResult};
ghost use Rattle.vx_column.specs.Operands.{number_in, HasRow, HasRows};
ghost use Rattle.vx_column.specs.Selected.{selected, selected_rows, AreSides, AreSelected, IsSelected};
ghost use Rattle.vx_column.specs.declared.rows.argument.ArgumentRows.TheVariants.{Integers, Decimals};
ghost use Rattle.vx_column.specs.ValidRows.{is_valid, HasValidity, nullability_in};
ghost use Rattle.vx_tree.specs.Views.{rows_of};

use crate::functions::kernel::{
    Operand, bit_rows, decimal_operand_of, operand_of, stored_column, valid_bools, valid_bytes,
    valid_decimals, valid_integers,
};
use crate::rows::{
    Argument, ArgumentRows, BytesOperand, DecimalOperand, IntegerOperand, ValidRows,
};
use std::alloc::{AllocError, Global};
use vx_mask::{BitAnd, BitBuffer, BitLt, BitOperand, BitOr, Buffer};
use vx_tree::{
    BinaryBuilder, BinaryViews, Canonical, NativeDecimalType, NativeInteger, NativeNumber,
    by_decimal_type, by_type,
};
use vx_value::{DecimalType, Nullability, VortexResult};

/// Chooses `if_true` if `mask` is true, and `if_false` if it is false or null, row by row, `len` rows each. Fails only with
/// `OutOfMemory`. (own)
#[tactic(auto, using(crate::proofs::ValidRowsLemmas::counted))]
pub(crate) fn zip(
    alloc: Global,
    if_true: &Argument<'_>,
    if_false: &Argument<'_>,
    mask: &Argument<'_>,
    len: usize,
) -> VortexResult<Canonical>
    requires { Takes Zip (if_true.now ∷ if_false.now ∷ mask.now ∷ []) len }
    ensures ok { IfOk result (λ c. IsCanonicalResult Zip (if_true.now ∷ if_false.now ∷ mask.now ∷ []) len (canonical_tree c)) }
    ensures err { OnlyOutOfMemory result }
{
    let ArgumentRows::Bits(bits) = mask.rows else {
        unreachable!()
    };
    match &mask.valid {
        ValidRows::All(_) => select(alloc, bits, if_true, if_false, len),
        ValidRows::Bits(valid) => {
            let choice = BitBuffer::zip::<BitAnd>(alloc, BitOperand::Bits(valid), bits, len)?;
            select(alloc, BitOperand::Bits(&choice), if_true, if_false, len)
        }
    }
}

/// Replaces each null of `input` by the row of `fill_value`, `len` rows each. Fails only with `OutOfMemory`. (own)
pub(crate) fn fill_null(
    alloc: Global,
    input: &Argument<'_>,
    fill_value: &Argument<'_>,
    len: usize,
) -> VortexResult<Canonical>
    requires { Takes FillNull (input.now ∷ fill_value.now ∷ []) len }
    ensures ok { IfOk result (λ c. IsCanonicalResult FillNull (input.now ∷ fill_value.now ∷ []) len (canonical_tree c)) }
    ensures err { OnlyOutOfMemory result }
{
    let values = Argument {
        rows: input.rows,
        valid: ValidRows::All(Nullability::NonNullable),
    };
    select(alloc, input.valid.as_operand(), &values, fill_value, len)
}

/// Chooses `if_true` if `choice` is true, else `if_false`, row by row, `len` rows each, whose values must be of one type.
/// Shares the rows of one side if `choice` is a single bit. Fails only with `OutOfMemory`.
fn select(
    alloc: Global,
    choice: BitOperand<'_>,
    if_true: &Argument<'_>,
    if_false: &Argument<'_>,
    len: usize,
) -> VortexResult<Canonical>
    requires choice { HasBits choice len }
    requires if_true { HasStored if_true.now.rows len }
    requires if_false { HasStored if_false.now.rows len }
    requires true_valid { HasValidity if_true.now.valid len }
    requires false_valid { HasValidity if_false.now.valid len }
    requires same { plain_type if_true.now.rows ≡ plain_type if_false.now.rows }
    ensures ok { IfOk result (λ c. IsSelected choice.entry if_true.now if_false.now len (canonical_tree c)) }
    ensures err { OnlyOutOfMemory result }
{
    let valid = select_valid(alloc, choice, &if_true.valid, &if_false.valid, len)?;
    match choice {
        BitOperand::Bit(true) => stored_column(alloc, if_true.rows, &valid, len),
        BitOperand::Bit(false) => stored_column(alloc, if_false.rows, &valid, len),
        BitOperand::Bits(bits) => {
            select_rows(alloc, bits, if_true.rows, if_false.rows, &valid, len)
        }
    }
}

/// Chooses the valid rows of a column.
#[tactic(auto, using(crate::proofs::ValidRowsLemmas::counted))]
fn select_valid(
    alloc: Global,
    choice: BitOperand<'_>,
    if_true: &ValidRows,
    if_false: &ValidRows,
    len: usize,
) -> Result<ValidRows, AllocError>
    requires choice { HasBits choice len }
    requires if_true { HasValidity if_true.now len }
    requires if_false { HasValidity if_false.now len }
    ensures rows { IfOk result (λ r. (i : ℕ) → i < len → is_valid r i ≡ selected choice.entry (is_valid if_true.now) (is_valid if_false.now) i) }
    ensures sized { IfOk result (λ r. HasValidity r len) }
    ensures nullability { IfOk result (λ r. nullability_in r ≡ union (nullability_in if_true.now) (nullability_in if_false.now)) }
{
    match (if_true, if_false) {
        (ValidRows::All(first), ValidRows::All(second)) => Ok(ValidRows::All(first.union(*second))),
        _ => {
            let bits = select_bits(
                alloc,
                choice,
                if_true.as_operand(),
                if_false.as_operand(),
                len,
            )?;
            Ok(ValidRows::Bits(bits))
        }
    }
}

/// Makes the column of `if_true` at the true bits of `choice`, else `if_false`, `len` rows each, which must be of one type;
/// null in each row that isn't `valid`. Fails only with `OutOfMemory`.
#[tactic(auto, using(crate::proofs::ValidRowsLemmas::counted))]
fn select_rows(
    alloc: Global,
    choice: &BitBuffer,
    if_true: ArgumentRows<'_>,
    if_false: ArgumentRows<'_>,
    valid: &ValidRows,
    len: usize,
) -> VortexResult<Canonical>
    requires { AreSides choice.now if_true if_false valid.now len }
    ensures ok { IfOk result (λ c. AreSelected choice.now if_true.entry if_false.entry valid.now len (canonical_tree c)) }
    ensures err { OnlyOutOfMemory result }
{
    match (if_true, if_false) {
        (ArgumentRows::Nulls, ArgumentRows::Nulls) => stored_column(alloc, if_true, valid, len),
        (ArgumentRows::Bits(if_true), ArgumentRows::Bits(if_false)) => {
            let bits = select_bits(alloc, BitOperand::Bits(choice), if_true, if_false, len)?;
            valid_bools(alloc, bits, valid, len)
        }
        (ArgumentRows::Integers(if_true), ArgumentRows::Integers(if_false)) => {
            by_type!(
                if_true.ptype(),
                select_natives(alloc, choice, if_true, if_false, valid, len)
            )
        }
        (ArgumentRows::Decimals(if_true), ArgumentRows::Decimals(if_false)) => {
            by_decimal_type!(
                DecimalType::smallest_decimal_value_type(&if_true.decimal),
                select_unscaled(alloc, choice, if_true, if_false, valid, len)
            )
        }
        (ArgumentRows::Bytes(if_true), ArgumentRows::Bytes(if_false)) => {
            let rows = select_views(alloc, choice, if_true, if_false, len)?;
            valid_bytes(alloc, if_true.storage, rows, valid, len)
        }
        _ => unreachable!(),
    }
}

/// Chooses between bits, word by word; shares those of one side if `choice` is a single bit.
#[tactic(auto, using(crate::proofs::ValidRowsLemmas::counted))]
fn select_bits(
    alloc: Global,
    choice: BitOperand<'_>,
    if_true: BitOperand<'_>,
    if_false: BitOperand<'_>,
    len: usize,
) -> Result<BitBuffer, AllocError>
    requires choice { HasBits choice len }
    requires if_true { HasBits if_true len }
    requires if_false { HasBits if_false len }
    ensures { IfOk result (λ b. b ≡ map (selected choice.entry (bit_in if_true.entry) (bit_in if_false.entry)) (range_with_len 0 len)) }
{
    match (choice, if_true) {
        (BitOperand::Bit(true), _) => bit_rows(alloc, if_true, len),
        (BitOperand::Bit(false), _) => bit_rows(alloc, if_false, len),
        (_, BitOperand::Bit(true)) => BitBuffer::zip::<BitOr>(alloc, choice, if_false, len),
        _ => {
            let chosen = BitBuffer::zip::<BitAnd>(alloc, choice, if_true, len)?;
            let others = BitBuffer::zip::<BitLt>(alloc, choice, if_false, len)?;
            let chosen = BitOperand::Bits(&chosen);
            BitBuffer::zip::<BitOr>(alloc, chosen, BitOperand::Bits(&others), len)
        }
    }
}

/// Makes the column of `if_true` at the true bits of `choice`, else `if_false`, `len` rows each, which must be of type `T`;
/// null in each row that isn't `valid`. Fails only with `OutOfMemory`.
fn select_natives<T: NativeInteger>(
    alloc: Global,
    choice: &BitBuffer,
    if_true: IntegerOperand<'_>,
    if_false: IntegerOperand<'_>,
    valid: &ValidRows,
    len: usize,
) -> VortexResult<Canonical>
    requires kind { T.kind ≡ ptype_in if_true }
    requires sides { AreSides choice.now (Integers if_true) (Integers if_false) valid.now len }
    ensures ok { IfOk result (λ c. AreSelected choice.now (Integers if_true.entry) (Integers if_false.entry) valid.now len (canonical_tree c)) }
    ensures err { OnlyOutOfMemory result }
{
    let left: Operand<'_, T> = operand_of(if_true);
    let numbers = select_numbers(alloc, choice, left, operand_of(if_false), len)?;
    valid_integers(alloc, T::wrap(numbers), valid, len)
}

/// Makes the column of `if_true` at the true bits of `choice`, else `if_false`, `len` rows each, which must be of one type and
/// stored in the width of `T`; null in each row that isn't `valid`. Fails only with `OutOfMemory`.
fn select_unscaled<T: NativeDecimalType>(
    alloc: Global,
    choice: &BitBuffer,
    if_true: DecimalOperand<'_>,
    if_false: DecimalOperand<'_>,
    valid: &ValidRows,
    len: usize,
) -> VortexResult<Canonical>
    requires kind { T.kind ≡ smallest_width if_true.decimal.precision }
    requires sides { AreSides choice.now (Decimals if_true) (Decimals if_false) valid.now len }
    ensures ok { IfOk result (λ c. AreSelected choice.now (Decimals if_true.entry) (Decimals if_false.entry) valid.now len (canonical_tree c)) }
    ensures err { OnlyOutOfMemory result }
{
    let left: Operand<'_, T> = decimal_operand_of(if_true);
    let numbers = select_numbers(alloc, choice, left, decimal_operand_of(if_false), len)?;
    let values = T::wrap_decimals(numbers);
    valid_decimals(alloc, if_true.decimal, values, valid, len)
}

/// Chooses `left` at the true bits of `choice`, else `right`, `len` rows each.
fn select_numbers<T: NativeNumber>(
    alloc: Global,
    choice: &BitBuffer,
    left: Operand<'_, T>,
    right: Operand<'_, T>,
    len: usize,
) -> Result<Buffer<T>, AllocError>
    requires choice { length choice.now ≡ len }
    requires left { HasRows left len }
    requires right { HasRows right len }
    ensures { IfOk result (λ b. map T.value b ≡ selected_rows choice.now (number_in T.value left.entry) (number_in T.value right.entry) len) }
{
    let mut numbers = Vec::with_capacity(alloc, len)?;
    for index in 0..len {
        let is_true = choice.value(index);
        numbers.push_reserved(select_row(&left, &right, index, is_true));
    }
    Buffer::from_vec(alloc, numbers)
}

/// Returns row `index`, which must exist, of `left` if `choice` is true, else of `right`.
#[inline]
fn select_row<T: NativeNumber>(
    left: &Operand<'_, T>,
    right: &Operand<'_, T>,
    index: usize,
    choice: bool,
) -> T
    requires left { HasRow left.now index }
    requires right { HasRow right.now index }
    ensures { T.value result ≡ (if choice then number_in T.value left.now index else number_in T.value right.now index) }
{
    let first = left.row(index);
    let second = right.row(index);
    if choice { first } else { second }
}

/// Chooses `left` at the true bits of `choice`, else `right`, `len` rows each. Copies the bytes of each row once. Fails
/// only with `OutOfMemory`.
fn select_views(
    alloc: Global,
    choice: &BitBuffer,
    left: BytesOperand<'_>,
    right: BytesOperand<'_>,
    len: usize,
) -> VortexResult<BinaryViews>
    requires choice { length choice.now ≡ len }
    requires left { AreBytes left len }
    requires right { AreBytes right len }
    ensures ok { IfOk result (λ r. rows_of r ≡ selected_rows choice.now (bytes_in left.entry) (bytes_in right.entry) len) }
    ensures err { OnlyOutOfMemory result }
{
    let mut rows = BinaryBuilder::with_capacity(alloc, len)?;
    for index in 0..len {
        let is_true = choice.value(index);
        rows.push(select_value(&left, &right, index, is_true))?;
    }
    rows.finish(alloc)
}

/// Returns the bytes of row `index`, which must exist, of `left` if `choice` is true, else of `right`.
#[inline]
fn select_value<'a>(
    left: &'a BytesOperand<'_>,
    right: &'a BytesOperand<'_>,
    index: usize,
    choice: bool,
) -> &'a [u8]
    requires left { (n : ℕ) × (index < n) × AreBytes left.now n }
    requires right { (n : ℕ) × (index < n) × AreBytes right.now n }
    ensures { result.now ≡ (if choice then bytes_in left.now index else bytes_in right.now index) }
{
    if choice {
        left.value(index)
    } else {
        right.value(index)
    }
}
