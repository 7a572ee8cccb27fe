//! Operators on booleans, and negation.

ghost use Rattle.std.specs.Prelude.{◌≡◌, ◌∷◌, [], map, Some, IfOk, IsSome};
ghost use Rattle.std.specs.List.{range_with_len};
ghost use Rattle.vx_value.specs.Errors.{OnlyOutOfMemory};
ghost use Rattle.vx_mask.specs.Operands.{bit_in, HasBits};
ghost use Rattle.vx_value.specs.Types.{bool};
ghost use Rattle.vx_fn.specs.Binary.{operator_type};
ghost use Rattle.vx_column.specs.Bits.{bit_by};
ghost use Rattle.vx_value.specs.Cell.{value};
ghost use Rattle.vx_fn.specs.declared.function.ScalarFnRef.TheVariants.{Not};
ghost use Rattle.vx_tree.specs.Canonicals.{canonical_tree};
ghost use Rattle.vx_column.specs.Arguments.{value_at};
ghost use Rattle.vx_column.specs.Computed.{Takes, IsCanonicalResult};
ghost use Rattle.vx_column.specs.Filled.{Operates, IsRowwiseResult, IsOperatorResult};
ghost use Rattle.vx_column.specs.ValidRows.{HasValidity};
ghost use Rattle.vx_column.specs.declared.rows.argument.ArgumentRows.TheVariants.{Bits};

use crate::functions::kernel::valid_bools;
use crate::rows::{Argument, ArgumentRows, ValidRows};
use std::alloc::{AllocError, Global};
use vx_fn::Operator;
use vx_mask::{
    BitAnd, BitBuffer, BitEq, BitGt, BitGte, BitLt, BitLte, BitNotEq, BitOperand, BitOr,
};
use vx_tree::Canonical;
use vx_value::{Nullability, VortexResult};

/// Applies `operator`, which must take booleans, row by row.
pub(crate) fn operate_bits(
    alloc: Global,
    operator: Operator,
    lhs: BitOperand<'_>,
    rhs: BitOperand<'_>,
    len: usize,
) -> Result<BitBuffer, AllocError>
    requires lhs { HasBits lhs len }
    requires rhs { HasBits rhs len }
    requires taken { IsSome (operator_type operator (bool Nullability.NonNullable)) }
    ensures { IfOk result (λ b. b ≡ map (λ i. bit_by operator (bit_in lhs.entry i) (bit_in rhs.entry i)) (range_with_len 0 len)) }
{
    match operator {
        Operator::Eq => BitBuffer::zip::<BitEq>(alloc, lhs, rhs, len),
        Operator::NotEq => BitBuffer::zip::<BitNotEq>(alloc, lhs, rhs, len),
        Operator::Gt => BitBuffer::zip::<BitGt>(alloc, lhs, rhs, len),
        Operator::Gte => BitBuffer::zip::<BitGte>(alloc, lhs, rhs, len),
        Operator::Lt => BitBuffer::zip::<BitLt>(alloc, lhs, rhs, len),
        Operator::Lte => BitBuffer::zip::<BitLte>(alloc, lhs, rhs, len),
        Operator::And => BitBuffer::zip::<BitAnd>(alloc, lhs, rhs, len),
        Operator::Or => BitBuffer::zip::<BitOr>(alloc, lhs, rhs, len),
        _ => unreachable!(),
    }
}

/// Applies `operator`, which must take booleans, to the `valid` rows; the others are null. Fails only with `OutOfMemory`.
#[tactic(auto, using(crate::proofs::ValidRowsLemmas::counted))]
pub(crate) fn operate_bools(
    alloc: Global,
    operator: Operator,
    lhs: BitOperand<'_>,
    rhs: BitOperand<'_>,
    valid: &ValidRows,
    len: usize,
) -> VortexResult<Canonical>
    requires { Operates operator (Bits lhs) (Bits rhs) valid.now len }
    ensures ok { IfOk result (λ c. IsOperatorResult operator (Bits lhs.entry) (Bits rhs.entry) valid.now len (canonical_tree c)) }
    ensures err { OnlyOutOfMemory result }
{
    let bits = operate_bits(alloc, operator, lhs, rhs, len)?;
    valid_bools(alloc, bits, valid, len)
}

/// Negates each row of `input`, `len` booleans; null stays null. Fails only with `OutOfMemory`. (own)
pub(crate) fn negate(alloc: Global, input: &Argument<'_>, len: usize) -> VortexResult<Canonical>
    requires { Takes Not (input.now ∷ []) len }
    ensures ok { IfOk result (λ c. IsCanonicalResult Not (input.now ∷ []) len (canonical_tree c)) }
    ensures err { OnlyOutOfMemory result }
{
    let ArgumentRows::Bits(bits) = input.rows else {
        unreachable!()
    };
    negate_bits(alloc, bits, &input.valid, len)
}

/// Negates the `valid` rows of `input`, `len` booleans; the others are null. Fails only with `OutOfMemory`.
#[tactic(auto, using(crate::proofs::ValidRowsLemmas::counted))]
fn negate_bits(
    alloc: Global,
    input: BitOperand<'_>,
    valid: &ValidRows,
    len: usize,
) -> VortexResult<Canonical>
    requires input { HasBits input len }
    requires valid { HasValidity valid.now len }
    ensures ok { IfOk result (λ c. IsRowwiseResult Not (bool Nullability.NonNullable ∷ []) (Some (bool Nullability.NonNullable))
        (λ i. value (value_at (Bits input.entry) i) ∷ []) valid.now len (canonical_tree c)) }
    ensures err { OnlyOutOfMemory result }
{
    let bits = BitBuffer::zip::<BitNotEq>(alloc, input, BitOperand::Bit(true), len)?;
    valid_bools(alloc, bits, valid, len)
}
