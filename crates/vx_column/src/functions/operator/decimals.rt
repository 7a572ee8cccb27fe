//! Operators applied to decimals of one type.

ghost use Rattle.std.specs.Prelude.{◌≡◌, false, IfOk, IfErr};
ghost use Rattle.vx_value.specs.Casts.{sized};
ghost use Rattle.vx_value.specs.Decimals.{smallest_width};
ghost use Rattle.vx_value.specs.Values.{decimal};
ghost use Rattle.vx_fn.specs.Arithmetic.{calculated_by};
ghost use Rattle.vx_fn.specs.Binary.{is_comparison};
ghost use Rattle.vx_tree.specs.Canonicals.{canonical_tree};
ghost use Rattle.vx_column.specs.declared.rows.argument.ArgumentRows.TheVariants.{Decimals};
ghost use Rattle.vx_column.specs.Filled.{Operates, IsOperatorResult, HasNoOperatorResult};
ghost use Rattle.vx_column.specs.Digits.{is_within, AreLimits, HasLimits};
ghost use Rattle.vx_column.specs.Operands.{number_in, HasRow};

use crate::functions::kernel::{
    Calculation, DecimalCalculation, Operand, calculated_decimals, decimal_operand_of,
};
use crate::functions::operator::arithmetic::{Arithmetic, Difference, Sum};
use crate::functions::operator::checked::CheckedNumber;
use crate::functions::operator::comparison::compare_ordered;
use crate::rows::{DecimalOperand, ValidRows};
use std::alloc::Global;
use std::marker::PhantomData;
use vx_fn::Operator;
use vx_tree::{Canonical, NativeDecimalType, narrowed};
use vx_value::{DecimalDType, VortexResult};

/// Applies `operator` to the `valid` rows of `lhs` and `rhs`, `len` rows each, which must be of one type and stored in the
/// width of `T`. Decimals of one scale are ordered as their numbers without the points. The other rows are null. `Fault` if a
/// valid row has no value.
pub(crate) fn operate_decimals<T: NativeDecimalType + CheckedNumber>(
    alloc: Global,
    operator: Operator,
    lhs: DecimalOperand<'_>,
    rhs: DecimalOperand<'_>,
    valid: &ValidRows,
    len: usize,
) -> VortexResult<Canonical>
    requires kind { T.kind ≡ smallest_width lhs.decimal.precision }
    requires operands { Operates operator (Decimals lhs) (Decimals rhs) valid.now len }
    ensures ok { IfOk result (λ c. IsOperatorResult operator (Decimals lhs.entry) (Decimals rhs.entry) valid.now len (canonical_tree c)) }
    ensures err { IfErr result (HasNoOperatorResult operator (Decimals lhs.entry) (Decimals rhs.entry) valid.now len) }
{
    match operator {
        Operator::Add => calculate_decimals::<T, Sum>(alloc, lhs, rhs, valid, len),
        Operator::Sub => calculate_decimals::<T, Difference>(alloc, lhs, rhs, valid, len),
        _ => {
            let left: Operand<'_, T> = decimal_operand_of(lhs);
            compare_ordered(alloc, operator, left, decimal_operand_of(rhs), valid, len)
        }
    }
}

/// The least and the greatest number of a precision.
#[derive(Clone, Copy)]
struct DigitLimits<T> {
    least: T,
    greatest: T,
}

impl<T: NativeDecimalType> DigitLimits<T> {
    /// Returns the limits of the numbers of `decimal`, which must be stored in the width of `T`.
    fn of(decimal: DecimalDType) -> DigitLimits<T>
        requires { T.kind ≡ smallest_width decimal.precision }
        ensures { AreLimits decimal.precision (T.value result.least) (T.value result.greatest) }
    {
        let beyond = 10_i128.pow(decimal.precision() as u32);
        DigitLimits {
            least: narrowed(1 - beyond),
            greatest: narrowed(beyond - 1),
        }
    }

    /// Returns whether `number` is within the limits.
    #[inline]
    fn contains(&self, number: T) -> bool
        ensures { result ≡ is_within (T.value self.now.least) (T.value self.now.greatest) (T.value number) }
    {
        self.least <= number && number <= self.greatest
    }
}

/// An arithmetic operator applied to the rows of two operands, decimals of the type `decimal`.
#[derive(Drop)]
struct DecimalOperation<'a, T, A> {
    left: Operand<'a, T>,
    right: Operand<'a, T>,
    decimal: DecimalDType,
    limits: DigitLimits<T>,
    operator: PhantomData<A>,
}

impl<'a, T: NativeDecimalType + CheckedNumber, A: Arithmetic> Calculation<T>
    for DecimalOperation<'a, T, A> {
    ghost has_row = { λ s i. HasRow s.left i × HasRow s.right i
        × HasLimits T.kind s.decimal.precision (T.value s.limits.least) (T.value s.limits.greatest) };

    ghost cell = { λ s i. calculated_by A.operator (sized s.decimal.precision s.decimal.scale) (number_in T.value s.left i) (number_in T.value s.right i) };

    ghost stands_for = { λ s z. decimal z s.decimal.scale };

    #[inline]
    fn calculate_row(&self, index: usize) -> Option<T> {
        let Some(number) = A::calculate_row(self.left.row(index), self.right.row(index)) else {
            return None;
        };
        if self.limits.contains(number) {
            Some(number)
        } else {
            None
        }
    }
}

impl<'a, T: NativeDecimalType + CheckedNumber, A: Arithmetic> DecimalCalculation<T>
    for DecimalOperation<'a, T, A> {
    ghost of_type = { λ s. s.decimal };

    fn decimal(&self) -> DecimalDType {
        self.decimal
    }
}

/// Applies `A` to the `valid` rows of `lhs` and `rhs`, `len` rows each, which must be of one type and stored in the width of
/// `T`; the other rows are null. `Fault` if a valid row has no value.
fn calculate_decimals<T: NativeDecimalType + CheckedNumber, A: Arithmetic>(
    alloc: Global,
    lhs: DecimalOperand<'_>,
    rhs: DecimalOperand<'_>,
    valid: &ValidRows,
    len: usize,
) -> VortexResult<Canonical>
    requires operator { is_comparison A.operator ≡ false }
    requires kind { T.kind ≡ smallest_width lhs.decimal.precision }
    requires operands { Operates A.operator (Decimals lhs) (Decimals rhs) valid.now len }
    ensures ok { IfOk result (λ c. IsOperatorResult A.operator (Decimals lhs.entry) (Decimals rhs.entry) valid.now len (canonical_tree c)) }
    ensures err { IfErr result (HasNoOperatorResult A.operator (Decimals lhs.entry) (Decimals rhs.entry) valid.now len) }
{
    let operation: DecimalOperation<'_, T, A> = DecimalOperation {
        left: decimal_operand_of(lhs),
        right: decimal_operand_of(rhs),
        decimal: lhs.decimal,
        limits: DigitLimits::of(lhs.decimal),
        operator: PhantomData,
    };
    calculated_decimals(alloc, &operation, valid, len)
}
