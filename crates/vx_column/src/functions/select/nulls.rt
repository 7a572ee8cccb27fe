//! Tests for null, and masks.

ghost use Rattle.std.specs.Prelude.{◌≡◌, ◌∷◌, [], IfOk};
ghost use Rattle.vx_value.specs.Errors.{OnlyOutOfMemory};
ghost use Rattle.vx_fn.specs.declared.function.ScalarFnRef.TheVariants.{IsNull, IsNotNull, Mask};
ghost use Rattle.vx_tree.specs.Canonicals.{canonical_tree};
ghost use Rattle.vx_column.specs.Arguments.{IsSized};
ghost use Rattle.vx_column.specs.Computed.{Takes, IsCanonicalResult};

use crate::functions::kernel::{bit_rows, stored_column, valid_bools};
use crate::rows::{Argument, ArgumentRows, ValidRows};
use std::alloc::Global;
use vx_mask::{BitAnd, BitBuffer, BitNotEq, BitOperand};
use vx_tree::Canonical;
use vx_value::{Nullability, VortexResult};

/// Tests each row of `input`, `len` rows, for null. Fails only with `OutOfMemory`. (own)
#[tactic(auto, using(crate::proofs::ValidRowsLemmas::counted))]
pub(crate) fn is_null(alloc: Global, input: &Argument<'_>, len: usize) -> VortexResult<Canonical>
    requires { IsSized len input.now }
    ensures ok { IfOk result (λ c. IsCanonicalResult IsNull (input.now ∷ []) len (canonical_tree c)) }
    ensures err { OnlyOutOfMemory result }
{
    let valid = input.valid.as_operand();
    let bits = BitBuffer::zip::<BitNotEq>(alloc, valid, BitOperand::Bit(true), len)?;
    valid_bools(alloc, bits, &ValidRows::All(Nullability::NonNullable), len)
}

/// Tests each row of `input`, `len` rows, for not being null. Shares the bits of its validity. Fails only with `OutOfMemory`.
/// (own)
#[tactic(auto, using(crate::proofs::ValidRowsLemmas::counted))]
pub(crate) fn is_not_null(
    alloc: Global,
    input: &Argument<'_>,
    len: usize,
) -> VortexResult<Canonical>
    requires { IsSized len input.now }
    ensures ok { IfOk result (λ c. IsCanonicalResult IsNotNull (input.now ∷ []) len (canonical_tree c)) }
    ensures err { OnlyOutOfMemory result }
{
    let bits = bit_rows(alloc, input.valid.as_operand(), len)?;
    valid_bools(alloc, bits, &ValidRows::All(Nullability::NonNullable), len)
}

/// Returns `input` with null in each row for which `mask` isn't true, `len` rows each. Computes only the validity. Fails only
/// with `OutOfMemory`. (own)
#[tactic(auto, using(crate::proofs::ValidRowsLemmas::counted, crate::proofs::KernelArgumentsLemmas::has_stored))]
pub(crate) fn mask(
    alloc: Global,
    input: &Argument<'_>,
    mask: &Argument<'_>,
    len: usize,
) -> VortexResult<Canonical>
    requires { Takes Mask (input.now ∷ mask.now ∷ []) len }
    ensures ok { IfOk result (λ c. IsCanonicalResult Mask (input.now ∷ mask.now ∷ []) len (canonical_tree c)) }
    ensures err { OnlyOutOfMemory result }
{
    let ArgumentRows::Bits(keep) = mask.rows else {
        unreachable!()
    };
    let bits = BitBuffer::zip::<BitAnd>(alloc, input.valid.as_operand(), keep, len)?;
    stored_column(alloc, input.rows, &ValidRows::Bits(bits), len)
}
