//! The operands of `BitBuffer::zip`.

ghost use Rattle.std.specs.Prelude.{◌≡◌, ◌+◌, ◌*◌, ◌<◌, ◌==◌, ℕ};
ghost use Rattle.std.specs.Int.{bit_at};
ghost use Rattle.vx_mask.specs.Operands.{bit_in, HasRow};

use crate::bits::{BitBuffer, filled_word};

/// An operand of `BitBuffer::zip`: bits, or one bit for every row. (own)
#[derive(Clone, Copy, Debug)]
pub enum BitOperand<'a> {
    /// A bit for each row.
    Bits(&'a BitBuffer),
    /// One bit for every row.
    Bit(bool),
}

impl BitOperand<'_> {
    /// Returns the 64 bits from row `64 * k` on, with the first one in the lowest place. Bits past the last row are
    /// unspecified. (own)
    #[inline]
    #[tactic(auto, using(crate::proofs::BitsLemmas::bit_of_word))]
    pub(crate) fn word(self, k: usize) -> u64
        requires { HasRow self (64 * k) }
        ensures { (i : ℕ) → i < 64 → HasRow self.entry (64 * k + i) → (bit_at result i == 1) ≡ bit_in self.entry (64 * k + i) }
    {
        match self {
            BitOperand::Bits(bits) => bits.word(k),
            BitOperand::Bit(bit) => filled_word(bit),
        }
    }
}
