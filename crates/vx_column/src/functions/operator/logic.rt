//! Logic on booleans that may be null.

ghost use Rattle.std.specs.Prelude.{◌≡◌, ◌∷◌, [], true, map, IfOk};
ghost use Rattle.std.specs.List.{range_with_len};
ghost use Rattle.vx_value.specs.Errors.{OnlyOutOfMemory};
ghost use Rattle.vx_value.specs.Nullabilities.{union};
ghost use Rattle.vx_fn.specs.Binary.{is_logical};
ghost use Rattle.vx_fn.specs.declared.function.ScalarFnRef.TheVariants.{Binary};
ghost use Rattle.vx_tree.specs.Canonicals.{canonical_tree};
ghost use Rattle.vx_mask.specs.declared.operand.BitOperand.{BitOperand as Operand};
ghost use Rattle.vx_column.specs.declared.rows.argument.ArgumentRows.TheVariants.{Bits};
ghost use Rattle.vx_column.specs.Bits.{bit_by};
ghost use Rattle.vx_column.specs.Computed.{IsCanonicalResult};
ghost use Rattle.vx_column.specs.Truths.{HasTruths, argument_in, row_over};
ghost use Rattle.vx_column.specs.ValidRows.{nullability_in};

use crate::functions::kernel::valid_bools;
use crate::functions::operator::boolean::operate_bits;
use crate::rows::{Argument, ArgumentRows, ValidRows};
use std::alloc::{AllocError, Global};
use vx_fn::Operator;
use vx_mask::{BitAnd, BitBuffer, BitEq, BitLte, BitOperand, BitOperation};
use vx_tree::Canonical;
use vx_value::{Nullability, VortexResult};

/// Truth values: bits, and which of them are known.
#[derive(Clone, Copy)]
pub(crate) struct Truths<'a> {
    pub(crate) bits: BitOperand<'a>,
    pub(crate) valid: &'a ValidRows,
}

/// Returns the rows of `argument`, which must be booleans, as truth values.
pub(crate) fn truths_of<'a>(argument: &'a Argument<'_>) -> Truths<'a>
    requires { (bits : Operand) × (argument.now.rows ≡ Bits bits) }
    ensures { argument_in result ≡ argument.now }
{
    let ArgumentRows::Bits(bits) = argument.rows else {
        unreachable!()
    };
    Truths {
        bits,
        valid: &argument.valid,
    }
}

/// Joins `lhs` and `rhs`, `len` rows each, by `operator`, which must be logical; in one pass if neither has a null row. Fails
/// only with `OutOfMemory`.
#[tactic(auto, using(crate::proofs::ValidRowsLemmas::counted))]
pub(crate) fn join(
    alloc: Global,
    operator: Operator,
    lhs: Truths<'_>,
    rhs: Truths<'_>,
    len: usize,
) -> VortexResult<Canonical>
    requires lhs { HasTruths lhs len }
    requires rhs { HasTruths rhs len }
    requires logical { is_logical operator ≡ true }
    ensures ok { IfOk result (λ c. IsCanonicalResult (Binary operator) (argument_in lhs.entry ∷ argument_in rhs.entry ∷ []) len (canonical_tree c)) }
    ensures err { OnlyOutOfMemory result }
{
    match (lhs.valid, rhs.valid) {
        (ValidRows::All(first), ValidRows::All(second)) => {
            let bits = operate_bits(alloc, operator, lhs.bits, rhs.bits, len)?;
            valid_bools(alloc, bits, &ValidRows::All(first.union(*second)), len)
        }
        _ => join_nullable(alloc, operator, lhs, rhs, len),
    }
}

/// Joins `lhs` and `rhs`, `len` rows each, of which one is nullable, by `operator`, which must be logical. A row of the result
/// is known if it is the same with unknown rows taken as false and as true. Fails only with `OutOfMemory`.
#[tactic(auto, using(crate::proofs::ValidRowsLemmas::counted))]
fn join_nullable(
    alloc: Global,
    operator: Operator,
    lhs: Truths<'_>,
    rhs: Truths<'_>,
    len: usize,
) -> VortexResult<Canonical>
    requires lhs { HasTruths lhs len }
    requires rhs { HasTruths rhs len }
    requires logical { is_logical operator ≡ true }
    requires nullable { union (nullability_in lhs.valid.now) (nullability_in rhs.valid.now) ≡ Nullability.Nullable }
    ensures ok { IfOk result (λ c. IsCanonicalResult (Binary operator) (argument_in lhs.entry ∷ argument_in rhs.entry ∷ []) len (canonical_tree c)) }
    ensures err { OnlyOutOfMemory result }
{
    let sure = join_over::<BitAnd>(alloc, operator, lhs, rhs, len)?;
    let possible = join_over::<BitLte>(alloc, operator, lhs, rhs, len)?;
    let (low, high) = (BitOperand::Bits(&sure), BitOperand::Bits(&possible));
    let known = BitBuffer::zip::<BitEq>(alloc, low, high, len)?;
    valid_bools(alloc, sure, &ValidRows::Bits(known), len)
}

/// Joins `lhs` and `rhs`, `len` rows each, by `operator`, which must be logical. The bits joined are those of `N` applied to
/// whether a row is known and to its bit.
#[tactic(auto, using(crate::proofs::ValidRowsLemmas::counted))]
fn join_over<N: BitOperation>(
    alloc: Global,
    operator: Operator,
    lhs: Truths<'_>,
    rhs: Truths<'_>,
    len: usize,
) -> Result<BitBuffer, AllocError>
    requires lhs { HasTruths lhs len }
    requires rhs { HasTruths rhs len }
    requires logical { is_logical operator ≡ true }
    ensures { IfOk result (λ b. b ≡ map (λ i. bit_by operator (row_over N.bit lhs.entry i) (row_over N.bit rhs.entry i)) (range_with_len 0 len)) }
{
    let first = BitBuffer::zip::<N>(alloc, lhs.valid.as_operand(), lhs.bits, len)?;
    let second = BitBuffer::zip::<N>(alloc, rhs.valid.as_operand(), rhs.bits, len)?;
    operate_bits(
        alloc,
        operator,
        BitOperand::Bits(&first),
        BitOperand::Bits(&second),
        len,
    )
}
