//! Bits that replace the true bits of other bits, 64 at a time.

ghost use Rattle.std.specs.Prelude.{◌≡◌, ◌+◌, ◌≤◌, IfOk, length, drop};
ghost use Rattle.vx_mask.specs.Places.{true_count, combined};
ghost use Rattle.vx_mask.specs.Words.{low_bits};

use crate::bit_slice::BitSlice;
use crate::bits::BitBuffer;
use crate::word::{ones_in, spread};
use std::alloc::{AllocError, Global};

impl BitSlice<'_> {
    /// Replaces the true bits of the word `outer` by the bits from `index` on, in order. Returns the word, and how many true
    /// bits `outer` has.
    #[inline]
    fn spread_over(&self, outer: u64, index: usize) -> (u64, usize)
        requires { index + true_count (low_bits 64 outer) ≤ length self.now }
        ensures word { low_bits 64 result.0 ≡ combined (low_bits 64 outer) (drop index self.now) }
        ensures ones { result.1 ≡ true_count (low_bits 64 outer) }
    {
        if outer == 0 {
            return (0, 0);
        }
        let word = self.word_from(index);
        if outer == u64::MAX {
            (word, 64)
        } else {
            (spread(outer, word), ones_in(outer))
        }
    }

    /// Replaces the true bits by the bits of `inner`, in order. Fails only if there is no memory for the result.
    fn combined(&self, alloc: Global, inner: &BitSlice<'_>) -> Result<BitBuffer, AllocError>
        requires { length inner.now ≡ true_count self.now }
        ensures { IfOk result (λ b. b ≡ combined self.now inner.now) }
    {
        let full = self.len() / 64;
        let mut words = Vec::with_capacity(alloc, full + 1)?;
        let mut used = 0;
        for k in 0..full {
            let (word, ones) = inner.spread_over(self.full_word(k), used);
            words.push_reserved(word);
            used += ones;
        }
        let (word, _) = inner.spread_over(self.last_word(), used);
        words.push_reserved(word);
        BitBuffer::from_words(alloc, words, self.len())
    }
}

impl BitBuffer {
    /// Replaces the true bits by the bits of `inner`, in order. Fails only if there is no memory for the result.
    pub(crate) fn intersect_by_rank(
        &self,
        alloc: Global,
        inner: &BitBuffer,
    ) -> Result<BitBuffer, AllocError>
        requires { length inner.now ≡ true_count self.now }
        ensures { IfOk result (λ b. b ≡ combined self.now inner.now) }
    {
        self.as_bits().combined(alloc, &inner.as_bits())
    }
}
