//! Operations on the bits of whole buffers, 64 at a time.

ghost use Rattle.std.specs.Prelude.{◌≡◌, IfOk, length, map, not};
ghost use Rattle.std.specs.List.{range_with_len};
ghost use Rattle.vx_mask.specs.Logic.{bit_row};
ghost use Rattle.vx_mask.specs.Operands.{bit_in, HasBits};

use crate::bits::BitBuffer;
use crate::operand::BitOperand;
use crate::operation::{BitNotEq, BitOperation};
use std::alloc::{AllocError, Global};

impl BitBuffer {
    /// Applies the operation to each row of `lhs` and of `rhs`, `len` rows each. Fails only if there is no memory for the
    /// result. (own)
    pub fn zip<O: BitOperation>(
        alloc: Global,
        lhs: BitOperand<'_>,
        rhs: BitOperand<'_>,
        len: usize,
    ) -> Result<BitBuffer, AllocError>
        requires lhs { HasBits lhs len }
        requires rhs { HasBits rhs len }
        ensures { IfOk result (λ b. b ≡ map (λ i. O.bit (bit_in lhs.entry i) (bit_in rhs.entry i)) (range_with_len 0 len)) }
    {
        let many = len.div_ceil(64);
        let mut words = Vec::with_capacity(alloc, many)?;
        for k in 0..many {
            let left = lhs.word(k);
            let right = rhs.word(k);
            words.push_reserved(O::word(left, right));
        }
        BitBuffer::from_words(alloc, words, len)
    }

    /// Negates each bit. Fails only if there is no memory for the result. (own)
    pub fn negate(&self, alloc: Global) -> Result<BitBuffer, AllocError>
        ensures { IfOk result (λ b. b ≡ map (λ i. not (bit_row self.now i)) (range_with_len 0 (length self.now))) }
    {
        BitBuffer::zip::<BitNotEq>(
            alloc,
            BitOperand::Bits(self),
            BitOperand::Bit(true),
            self.len(),
        )
    }
}
