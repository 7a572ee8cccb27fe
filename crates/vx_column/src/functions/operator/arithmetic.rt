//! Arithmetic on integers.

ghost use Rattle.std.specs.Prelude.{◌≡◌, ℤ, false, IfOk, IfErr, IfSome, MatchOption};
ghost use Rattle.vx_value.specs.Values.{integer};
ghost use Rattle.vx_value.specs.Cell.{Cell, fault};
ghost use Rattle.vx_fn.specs.Binary.{is_comparison};
ghost use Rattle.vx_fn.specs.Arithmetic.{calculated, calculated_by};
ghost use Rattle.vx_fn.specs.declared.function.Operator.{Operator as OperatorOf};
ghost use Rattle.vx_fn.specs.declared.function.Operator.TheVariants.{Add, Sub, Mul, Div};
ghost use Rattle.vx_tree.specs.Canonicals.{canonical_tree};
ghost use Rattle.vx_column.specs.Arguments.{ptype_in};
ghost use Rattle.vx_column.specs.Digits.{IsWithin};
ghost use Rattle.vx_column.specs.Filled.{Operates, IsOperatorResult, HasNoOperatorResult};
ghost use Rattle.vx_column.specs.Operands.{number_in, HasRow};
ghost use Rattle.vx_column.specs.declared.rows.argument.ArgumentRows.TheVariants.{Integers};

use crate::functions::kernel::{
    Calculation, IntegerCalculation, Operand, calculated_column, operand_of,
};
use crate::functions::operator::checked::CheckedNumber;
use crate::rows::{IntegerOperand, ValidRows};
use std::alloc::Global;
use std::marker::PhantomData;
use vx_tree::{Canonical, NativeInteger};
use vx_value::VortexResult;

/// An arithmetic operator.
pub(crate) trait Arithmetic {
    // its variant of `Operator`
    ghost operator: { OperatorOf };

    /// Computes one row; `None` if `T` can't hold the result, or the divisor is 0.
    fn calculate_row<T: CheckedNumber>(lhs: T, rhs: T) -> Option<T>
        ensures calculated { (fit : ℤ → Cell) → IsWithin T.fits fit → MatchOption result
            (calculated_by operator fit (T.value lhs) (T.value rhs) ≡ fault)
            (λ r. calculated_by operator fit (T.value lhs) (T.value rhs) ≡ fit (T.value r)) }
        ensures fits { IfSome result (λ r. T.fits (T.value r)) };
}

/// `x + y`.
pub(crate) struct Sum;

impl Arithmetic for Sum {
    ghost operator = { Add };

    #[inline]
    fn calculate_row<T: CheckedNumber>(lhs: T, rhs: T) -> Option<T> {
        lhs.checked_add(&rhs)
    }
}

/// `x - y`.
pub(crate) struct Difference;

impl Arithmetic for Difference {
    ghost operator = { Sub };

    #[inline]
    fn calculate_row<T: CheckedNumber>(lhs: T, rhs: T) -> Option<T> {
        lhs.checked_sub(&rhs)
    }
}

/// `x * y`.
pub(crate) struct Product;

impl Arithmetic for Product {
    ghost operator = { Mul };

    #[inline]
    fn calculate_row<T: CheckedNumber>(lhs: T, rhs: T) -> Option<T> {
        lhs.checked_mul(&rhs)
    }
}

/// `x / y` truncated toward zero.
pub(crate) struct Quotient;

impl Arithmetic for Quotient {
    ghost operator = { Div };

    #[inline]
    fn calculate_row<T: CheckedNumber>(lhs: T, rhs: T) -> Option<T> {
        if rhs.widened() == 0 {
            return None;
        }
        lhs.checked_div(&rhs)
    }
}

/// An arithmetic operator applied to the rows of two operands.
#[derive(Drop)]
struct Operation<'a, T, A> {
    left: Operand<'a, T>,
    right: Operand<'a, T>,
    operator: PhantomData<A>,
}

impl<'a, T: NativeInteger + CheckedNumber, A: Arithmetic> Calculation<T> for Operation<'a, T, A> {
    ghost has_row = { λ s i. HasRow s.left i × HasRow s.right i };

    ghost cell = { λ s i. calculated A.operator T.kind (number_in T.value s.left i) (number_in T.value s.right i) };

    ghost stands_for = { λ s. integer };

    #[inline]
    fn calculate_row(&self, index: usize) -> Option<T> {
        A::calculate_row(self.left.row(index), self.right.row(index))
    }
}

impl<'a, T: NativeInteger + CheckedNumber, A: Arithmetic> IntegerCalculation<T>
    for Operation<'a, T, A> {
    fn are_integers(&self) {}
}

/// Applies `A` to the `valid` rows of `lhs` and `rhs`, `len` rows each, which must be of type `T`; the other rows are null.
/// `Fault` if a valid row has no value.
pub(crate) fn calculate<T: NativeInteger + CheckedNumber, A: Arithmetic>(
    alloc: Global,
    lhs: IntegerOperand<'_>,
    rhs: IntegerOperand<'_>,
    valid: &ValidRows,
    len: usize,
) -> VortexResult<Canonical>
    requires operator { is_comparison A.operator ≡ false }
    requires kind { T.kind ≡ ptype_in lhs }
    requires operands { Operates A.operator (Integers lhs) (Integers rhs) valid.now len }
    ensures ok { IfOk result (λ c. IsOperatorResult A.operator (Integers lhs.entry) (Integers rhs.entry) valid.now len (canonical_tree c)) }
    ensures err { IfErr result (HasNoOperatorResult A.operator (Integers lhs.entry) (Integers rhs.entry) valid.now len) }
{
    let operation: Operation<'_, T, A> = Operation {
        left: operand_of(lhs),
        right: operand_of(rhs),
        operator: PhantomData,
    };
    calculated_column(alloc, &operation, valid, len)
}
