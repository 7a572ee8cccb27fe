//! The rows of columns that aren't null.

ghost use Rattle.std.specs.Prelude.{◌≡◌, ◌&&◌, ◌<◌, ℕ, length, IfOk};
ghost use Rattle.vx_value.specs.Errors.{OnlyOutOfMemory};
ghost use Rattle.vx_value.specs.Nullabilities.{union};
ghost use Rattle.vx_mask.specs.Logic.{bit_row};
ghost use Rattle.vx_mask.specs.Operands.{bit_in, HasBits};
ghost use Rattle.vx_column.specs.ValidRows.{is_valid, HasValidity, nullability_in, IsValidityOf};

use std::alloc::Global;
use vx_mask::{BitAnd, BitBuffer, BitOperand};
use vx_tree::Validity;
use vx_value::{Nullability, VortexResult};

/// The rows that aren't null.
#[derive(Debug, Drop)]
pub enum ValidRows {
    /// Every row of a column of this nullability.
    All(Nullability),
    /// The rows at the true bits of a nullable column.
    Bits(BitBuffer),
}

impl ValidRows {
    /// Returns the rows of a nullable column at the true bits of `bits`: `All` if every bit is true.
    #[tactic(auto, using(crate::proofs::ValidRowsLemmas::counted_row))]
    pub fn from_bits(bits: BitBuffer) -> ValidRows
        ensures rows { (i : ℕ) → i < length bits → is_valid result i ≡ bit_row bits i }
        ensures sized { HasValidity result (length bits) }
        ensures nullability { nullability_in result ≡ Nullability.Nullable }
    {
        if bits.true_count() == bits.len() {
            ValidRows::All(Nullability::Nullable)
        } else {
            ValidRows::Bits(bits)
        }
    }

    /// Returns whether row `index`, which must exist, is valid. (own)
    #[inline]
    pub fn is_valid(&self, index: usize) -> bool
        requires { (n : ℕ) × (index < n) × HasValidity self.now n }
        ensures { result ≡ is_valid self.now index }
    {
        match self {
            ValidRows::All(_) => true,
            ValidRows::Bits(bits) => bits.value(index),
        }
    }

    /// Returns a bit for each row, true if the row is valid.
    pub fn as_operand(&self) -> BitOperand<'_>
        ensures bits { (i : ℕ) → bit_in result i ≡ is_valid self.now i }
        ensures sized { (n : ℕ) → HasValidity self.now n → HasBits result n }
    {
        match self {
            ValidRows::All(_) => BitOperand::Bit(true),
            ValidRows::Bits(bits) => BitOperand::Bits(bits),
        }
    }

    /// Returns the rows that are valid in both of two columns of `len` rows. Fails only with `OutOfMemory`.
    pub fn and(&self, alloc: Global, other: &ValidRows, len: usize) -> VortexResult<ValidRows>
        requires first { HasValidity self.now len }
        requires second { HasValidity other.now len }
        ensures rows { IfOk result (λ r. (i : ℕ) → i < len → is_valid r i ≡ is_valid self.now i && is_valid other.now i) }
        ensures sized { IfOk result (λ r. HasValidity r len) }
        ensures nullability { IfOk result (λ r. nullability_in r ≡ union (nullability_in self.now) (nullability_in other.now)) }
        ensures err { OnlyOutOfMemory result }
    {
        match (self, other) {
            (ValidRows::All(first), ValidRows::All(second)) => {
                Ok(ValidRows::All(first.union(*second)))
            }
            (ValidRows::All(_), ValidRows::Bits(bits)) => Ok(ValidRows::Bits(bits.clone()?)),
            (ValidRows::Bits(bits), ValidRows::All(_)) => Ok(ValidRows::Bits(bits.clone()?)),
            (ValidRows::Bits(first), ValidRows::Bits(second)) => {
                let first = BitOperand::Bits(first);
                let second = BitOperand::Bits(second);
                let bits = BitBuffer::zip::<BitAnd>(alloc, first, second, len)?;
                Ok(ValidRows::Bits(bits))
            }
        }
    }

    /// Returns the validity of a column of `len` rows that are valid as these are. Fails only with `OutOfMemory`.
    #[tactic(auto, using(crate::proofs::KeepsLemmas::any_rows, crate::proofs::ValidRowsLemmas::bits_rows))]
    pub fn validity(&self, alloc: Global, len: usize) -> VortexResult<Validity>
        requires { HasValidity self.now len }
        ensures ok { IfOk result (IsValidityOf self.now len) }
        ensures err { OnlyOutOfMemory result }
    {
        match self {
            ValidRows::All(nullability) => Ok(Validity::from(*nullability)),
            ValidRows::Bits(bits) => Validity::from_bits(alloc, bits.clone()?),
        }
    }
}
