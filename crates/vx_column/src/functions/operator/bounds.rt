//! Whether rows lie between two bounds.

ghost use Rattle.std.specs.Prelude.{◌≡◌, ◌<◌, ◌∷◌, [], ℕ, true, IfOk};
ghost use Rattle.vx_value.specs.Errors.{OnlyOutOfMemory};
ghost use Rattle.vx_value.specs.Decimals.{smallest_width};
ghost use Rattle.vx_fn.specs.Comparisons.{is_ordered};
ghost use Rattle.vx_fn.specs.declared.function.ScalarFnRef.TheVariants.{Between};
ghost use Rattle.vx_tree.specs.Canonicals.{canonical_tree};
ghost use Rattle.vx_column.specs.Arguments.{ptype_in, plain_type};
ghost use Rattle.vx_column.specs.Bounds.{AreBounded, bound_by, is_between, is_bounded, AreBetween};
ghost use Rattle.vx_column.specs.Checks.{checked_rows};
ghost use Rattle.vx_column.specs.Computed.{Takes, IsCanonicalResult};
ghost use Rattle.vx_column.specs.ValidRows.{is_valid, HasValidity};
ghost use Rattle.vx_column.specs.declared.rows.argument.ArgumentRows.TheVariants.{Bits, Integers, Decimals};

use crate::functions::kernel::{Operand, decimal_operand_of, keep_valid, operand_of, valid_bools};
use crate::functions::operator::boolean::operate_bits;
use crate::functions::operator::checks::{RowCheck, check_rows};
use crate::functions::operator::comparison::{Below, Comparison, NotAbove, OrderedRows};
use crate::rows::{
    Argument, ArgumentRows, BytesOperand, DecimalOperand, IntegerOperand, ValidRows,
};
use std::alloc::{AllocError, Global};
use std::marker::PhantomData;
use vx_fn::{BetweenOptions, Operator, StrictComparison};
use vx_mask::{BitAnd, BitBuffer, BitOperand};
use vx_tree::{Canonical, NativeDecimalType, NativeInteger, by_decimal_type, by_type};
use vx_value::{DecimalType, VortexResult};

/// Checks whether each row of `array` lies between `lower` and `upper`, `len` rows each; a row is null if one of the three is.
/// Fails only with `OutOfMemory`. (own)
#[tactic(auto, using(crate::proofs::ValidRowsLemmas::counted))]
pub(crate) fn between(
    alloc: Global,
    options: BetweenOptions,
    array: &Argument<'_>,
    lower: &Argument<'_>,
    upper: &Argument<'_>,
    len: usize,
) -> VortexResult<Canonical>
    requires { Takes (Between options) (array.now ∷ lower.now ∷ upper.now ∷ []) len }
    ensures ok { IfOk result (λ c. IsCanonicalResult (Between options) (array.now ∷ lower.now ∷ upper.now ∷ []) len (canonical_tree c)) }
    ensures err { OnlyOutOfMemory result }
{
    let bounds_valid = lower.valid.and(alloc, &upper.valid, len)?;
    let valid = array.valid.and(alloc, &bounds_valid, len)?;
    let bits = between_rows(
        alloc, options, array.rows, lower.rows, upper.rows, &valid, len,
    )?;
    valid_bools(alloc, bits, &valid, len)
}

/// Checks the `valid` rows, `len` rows each, which must be of one type that has an order; the other bits are `false`.
fn between_rows(
    alloc: Global,
    options: BetweenOptions,
    array: ArgumentRows<'_>,
    lower: ArgumentRows<'_>,
    upper: ArgumentRows<'_>,
    valid: &ValidRows,
    len: usize,
) -> Result<BitBuffer, AllocError>
    requires rows { AreBounded array lower upper valid.now len }
    requires ordered { is_ordered (plain_type array) ≡ true }
    ensures { IfOk result (AreBetween options valid.now array.entry lower.entry upper.entry len) }
{
    match (array, lower, upper) {
        (ArgumentRows::Bits(array), ArgumentRows::Bits(lower), ArgumentRows::Bits(upper)) => {
            between_bits(alloc, options, array, lower, upper, valid, len)
        }
        (
            ArgumentRows::Integers(array),
            ArgumentRows::Integers(lower),
            ArgumentRows::Integers(upper),
        ) => between_integers(alloc, options, array, lower, upper, valid, len),
        (
            ArgumentRows::Decimals(array),
            ArgumentRows::Decimals(lower),
            ArgumentRows::Decimals(upper),
        ) => between_decimals(alloc, options, array, lower, upper, valid, len),
        (ArgumentRows::Bytes(array), ArgumentRows::Bytes(lower), ArgumentRows::Bytes(upper)) => {
            between_ordered::<BytesOperand<'_>>(alloc, options, array, lower, upper, valid, len)
        }
        _ => unreachable!(),
    }
}

/// Returns the operator that compares with a bound.
fn bound_operator(comparison: StrictComparison) -> Operator
    ensures { result ≡ bound_by comparison }
{
    match comparison {
        StrictComparison::Strict => Operator::Lt,
        StrictComparison::NonStrict => Operator::Lte,
    }
}

/// Checks the `valid` rows of booleans, `len` rows each, word by word; the other bits are `false`.
#[tactic(auto, using(crate::proofs::ValidRowsLemmas::counted))]
fn between_bits(
    alloc: Global,
    options: BetweenOptions,
    array: BitOperand<'_>,
    lower: BitOperand<'_>,
    upper: BitOperand<'_>,
    valid: &ValidRows,
    len: usize,
) -> Result<BitBuffer, AllocError>
    requires { AreBounded (Bits array) (Bits lower) (Bits upper) valid.now len }
    ensures { IfOk result (AreBetween options valid.now (Bits array.entry) (Bits lower.entry) (Bits upper.entry) len) }
{
    let above = operate_bits(
        alloc,
        bound_operator(options.lower_strict),
        lower,
        array,
        len,
    )?;
    let below = operate_bits(
        alloc,
        bound_operator(options.upper_strict),
        array,
        upper,
        len,
    )?;
    let above = BitOperand::Bits(&above);
    let bits = BitBuffer::zip::<BitAnd>(alloc, above, BitOperand::Bits(&below), len)?;
    keep_valid(alloc, bits, valid, len)
}

/// Checks the `valid` rows of integers, `len` rows each, which must be of one type; the other bits are `false`.
fn between_integers(
    alloc: Global,
    options: BetweenOptions,
    array: IntegerOperand<'_>,
    lower: IntegerOperand<'_>,
    upper: IntegerOperand<'_>,
    valid: &ValidRows,
    len: usize,
) -> Result<BitBuffer, AllocError>
    requires { AreBounded (Integers array) (Integers lower) (Integers upper) valid.now len }
    ensures { IfOk result (AreBetween options valid.now (Integers array.entry) (Integers lower.entry) (Integers upper.entry) len) }
{
    by_type!(
        array.ptype(),
        between_natives(alloc, options, array, lower, upper, valid, len)
    )
}

/// Checks the `valid` rows of integers, `len` rows each, which must be of type `T`; the other bits are `false`.
fn between_natives<T: NativeInteger>(
    alloc: Global,
    options: BetweenOptions,
    array: IntegerOperand<'_>,
    lower: IntegerOperand<'_>,
    upper: IntegerOperand<'_>,
    valid: &ValidRows,
    len: usize,
) -> Result<BitBuffer, AllocError>
    requires kind { T.kind ≡ ptype_in array }
    requires rows { AreBounded (Integers array) (Integers lower) (Integers upper) valid.now len }
    ensures { IfOk result (AreBetween options valid.now (Integers array.entry) (Integers lower.entry) (Integers upper.entry) len) }
{
    let array: Operand<'_, T> = operand_of(array);
    let (lower, upper) = (operand_of(lower), operand_of(upper));
    between_ordered(alloc, options, array, lower, upper, valid, len)
}

/// Checks the `valid` rows of decimals, `len` rows each, which must be of one type; the other bits are `false`.
fn between_decimals(
    alloc: Global,
    options: BetweenOptions,
    array: DecimalOperand<'_>,
    lower: DecimalOperand<'_>,
    upper: DecimalOperand<'_>,
    valid: &ValidRows,
    len: usize,
) -> Result<BitBuffer, AllocError>
    requires { AreBounded (Decimals array) (Decimals lower) (Decimals upper) valid.now len }
    ensures { IfOk result (AreBetween options valid.now (Decimals array.entry) (Decimals lower.entry) (Decimals upper.entry) len) }
{
    by_decimal_type!(
        DecimalType::smallest_decimal_value_type(&array.decimal),
        between_unscaled(alloc, options, array, lower, upper, valid, len)
    )
}

/// Checks the `valid` rows of decimals, `len` rows each, which must be of one type and stored in the width of `T`. Decimals of
/// one scale are ordered as their numbers without the points. The other bits are `false`.
fn between_unscaled<T: NativeDecimalType>(
    alloc: Global,
    options: BetweenOptions,
    array: DecimalOperand<'_>,
    lower: DecimalOperand<'_>,
    upper: DecimalOperand<'_>,
    valid: &ValidRows,
    len: usize,
) -> Result<BitBuffer, AllocError>
    requires kind { T.kind ≡ smallest_width array.decimal.precision }
    requires rows { AreBounded (Decimals array) (Decimals lower) (Decimals upper) valid.now len }
    ensures { IfOk result (AreBetween options valid.now (Decimals array.entry) (Decimals lower.entry) (Decimals upper.entry) len) }
{
    let array: Operand<'_, T> = decimal_operand_of(array);
    let (lower, upper) = (decimal_operand_of(lower), decimal_operand_of(upper));
    between_ordered(alloc, options, array, lower, upper, valid, len)
}

/// Checks the `valid` rows, `len` rows each; the other bits are `false`.
fn between_ordered<R: OrderedRows>(
    alloc: Global,
    options: BetweenOptions,
    array: R,
    lower: R,
    upper: R,
    valid: &ValidRows,
    len: usize,
) -> Result<BitBuffer, AllocError>
    requires array { (i : ℕ) → i < len → R.has_row array i }
    requires lower { (i : ℕ) → i < len → R.has_row lower i }
    requires upper { (i : ℕ) → i < len → R.has_row upper i }
    requires valid { HasValidity valid.now len }
    ensures { IfOk result (λ b.
        b ≡ checked_rows (is_valid valid.now) (is_between options (R.row_value array) (R.row_value lower) (R.row_value upper)) len) }
{
    match (options.lower_strict, options.upper_strict) {
        (StrictComparison::Strict, StrictComparison::Strict) => {
            check_rows(
                alloc,
                Bounded::<R, Below, Below>::of(array, lower, upper),
                valid,
                len,
            )
        }
        (StrictComparison::Strict, StrictComparison::NonStrict) => {
            check_rows(
                alloc,
                Bounded::<R, Below, NotAbove>::of(array, lower, upper),
                valid,
                len,
            )
        }
        (StrictComparison::NonStrict, StrictComparison::Strict) => {
            check_rows(
                alloc,
                Bounded::<R, NotAbove, Below>::of(array, lower, upper),
                valid,
                len,
            )
        }
        (StrictComparison::NonStrict, StrictComparison::NonStrict) => {
            check_rows(
                alloc,
                Bounded::<R, NotAbove, NotAbove>::of(array, lower, upper),
                valid,
                len,
            )
        }
    }
}

/// A comparison of `lower` and `array` by `L`, and of `array` and `upper` by `U`, row by row.
#[derive(Drop)]
struct Bounded<R, L, U> {
    array: R,
    lower: R,
    upper: R,
    operators: PhantomData<(L, U)>,
}

impl<R, L, U> Bounded<R, L, U> {
    /// Returns the comparison of `array` with its bounds.
    fn of(array: R, lower: R, upper: R) -> Bounded<R, L, U>
        ensures array { result.array ≡ array }
        ensures lower { result.lower ≡ lower }
        ensures upper { result.upper ≡ upper }
    {
        Bounded {
            array,
            lower,
            upper,
            operators: PhantomData,
        }
    }
}

impl<R: OrderedRows, L: Comparison, U: Comparison> RowCheck for Bounded<R, L, U> {
    ghost has_row = { λ s i. R.has_row s.array i × R.has_row s.lower i × R.has_row s.upper i };

    ghost answer = { λ s. is_bounded L.operator U.operator (R.row_value s.array) (R.row_value s.lower) (R.row_value s.upper) };

    #[inline]
    fn check_row(&self, index: usize) -> bool {
        let above = self.lower.compare_at::<L>(&self.array, index);
        let below = self.array.compare_at::<U>(&self.upper, index);
        above & below
    }
}
