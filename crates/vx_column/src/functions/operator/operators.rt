//! Operators applied to two columns.

ghost use Rattle.std.specs.Prelude.{◌≡◌, ◌∷◌, [], IfOk, IfErr};
ghost use Rattle.vx_fn.specs.declared.function.ScalarFnRef.TheVariants.{Binary};
ghost use Rattle.vx_tree.specs.Canonicals.{canonical_tree};
ghost use Rattle.vx_column.specs.Arguments.{ptype_in, AreShown};
ghost use Rattle.vx_column.specs.Computed.{Takes, IsCanonicalResult, HasNoCanonicalResult};
ghost use Rattle.vx_column.specs.Filled.{Operates, IsOperatorResult, HasNoOperatorResult};
ghost use Rattle.vx_column.specs.declared.rows.argument.ArgumentRows.TheVariants.{Integers};

use crate::functions::kernel::{Operand, operand_of, valid_bools};
use crate::functions::operator::arithmetic::{Difference, Product, Quotient, Sum, calculate};
use crate::functions::operator::boolean::operate_bools;
use crate::functions::operator::checked::CheckedNumber;
use crate::functions::operator::comparison::compare_ordered;
use crate::functions::operator::decimals::operate_decimals;
use crate::functions::operator::logic::{join, truths_of};
use crate::rows::{Argument, ArgumentRows, BytesOperand, IntegerOperand, ValidRows};
use std::alloc::Global;
use vx_fn::Operator;
use vx_mask::BitBuffer;
use vx_tree::{Canonical, NativeInteger, by_decimal_type, by_type};
use vx_value::{DecimalType, VortexResult};

/// Applies `operator` to `lhs` and `rhs`, `len` rows each, whose types it must accept. `Fault` if a row has no value. (own)
pub(crate) fn operate(
    alloc: Global,
    operator: Operator,
    lhs: &Argument<'_>,
    rhs: &Argument<'_>,
    len: usize,
) -> VortexResult<Canonical>
    requires { Takes (Binary operator) (lhs.now ∷ rhs.now ∷ []) len }
    ensures ok { IfOk result (λ c. IsCanonicalResult (Binary operator) (lhs.now ∷ rhs.now ∷ []) len (canonical_tree c)) }
    ensures err { IfErr result (HasNoCanonicalResult (Binary operator) (lhs.now ∷ rhs.now ∷ []) len) }
{
    if operator.is_logical() {
        return join(alloc, operator, truths_of(lhs), truths_of(rhs), len);
    }
    let valid = lhs.valid.and(alloc, &rhs.valid, len)?;
    operate_rows(alloc, operator, lhs.rows, rhs.rows, &valid, len)
}

/// Applies `operator` to the `valid` rows of `lhs` and `rhs`, `len` rows each, which must be of one type; rows of type null
/// must not be valid. The other rows are null. `Fault` if a valid row has no value.
fn operate_rows(
    alloc: Global,
    operator: Operator,
    lhs: ArgumentRows<'_>,
    rhs: ArgumentRows<'_>,
    valid: &ValidRows,
    len: usize,
) -> VortexResult<Canonical>
    requires operands { Operates operator lhs rhs valid.now len }
    requires shown { AreShown lhs valid.now len }
    ensures ok { IfOk result (λ c. IsOperatorResult operator lhs.entry rhs.entry valid.now len (canonical_tree c)) }
    ensures err { IfErr result (HasNoOperatorResult operator lhs.entry rhs.entry valid.now len) }
{
    match (lhs, rhs) {
        (ArgumentRows::Nulls, ArgumentRows::Nulls) => {
            let bits = BitBuffer::repeat(alloc, false, len)?;
            valid_bools(alloc, bits, valid, len)
        }
        (ArgumentRows::Bits(lhs), ArgumentRows::Bits(rhs)) => {
            operate_bools(alloc, operator, lhs, rhs, valid, len)
        }
        (ArgumentRows::Integers(lhs), ArgumentRows::Integers(rhs)) => {
            by_type!(
                lhs.ptype(),
                operate_natives(alloc, operator, lhs, rhs, valid, len)
            )
        }
        (ArgumentRows::Decimals(lhs), ArgumentRows::Decimals(rhs)) => {
            by_decimal_type!(
                DecimalType::smallest_decimal_value_type(&lhs.decimal),
                operate_decimals(alloc, operator, lhs, rhs, valid, len)
            )
        }
        (ArgumentRows::Bytes(lhs), ArgumentRows::Bytes(rhs)) => {
            compare_ordered::<BytesOperand<'_>>(alloc, operator, lhs, rhs, valid, len)
        }
        _ => unreachable!(),
    }
}

/// Applies `operator` to the `valid` rows of `lhs` and `rhs`, `len` rows each, which must be of type `T`. `Fault` if a valid
/// row has no value.
fn operate_natives<T: NativeInteger + CheckedNumber>(
    alloc: Global,
    operator: Operator,
    lhs: IntegerOperand<'_>,
    rhs: IntegerOperand<'_>,
    valid: &ValidRows,
    len: usize,
) -> VortexResult<Canonical>
    requires kind { T.kind ≡ ptype_in lhs }
    requires operands { Operates operator (Integers lhs) (Integers rhs) valid.now len }
    ensures ok { IfOk result (λ c. IsOperatorResult operator (Integers lhs.entry) (Integers rhs.entry) valid.now len (canonical_tree c)) }
    ensures err { IfErr result (HasNoOperatorResult operator (Integers lhs.entry) (Integers rhs.entry) valid.now len) }
{
    match operator {
        Operator::Add => calculate::<T, Sum>(alloc, lhs, rhs, valid, len),
        Operator::Sub => calculate::<T, Difference>(alloc, lhs, rhs, valid, len),
        Operator::Mul => calculate::<T, Product>(alloc, lhs, rhs, valid, len),
        Operator::Div => calculate::<T, Quotient>(alloc, lhs, rhs, valid, len),
        _ => {
            let left: Operand<'_, T> = operand_of(lhs);
            compare_ordered(alloc, operator, left, operand_of(rhs), valid, len)
        }
    }
}
