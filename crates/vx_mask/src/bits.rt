//! Bit buffers: ranges of bits in shared words.

ghost use Rattle.std.specs.Prelude.{◌≡◌, ◌+◌, ◌-◌, ◌*◌, ◌/◌, ◌%◌, ◌<◌, ◌≤◌, ◌↔◌, ◌==◌, ◌++◌, ℕ, false, if◌then◌else◌, IsTrue, IfOk, Some};
ghost use Rattle.std.specs.Prelude.{length, replicate, slice_range, slice_get, take, vec_len};
ghost use Rattle.std.specs.Int.{bit_at};
ghost use Rattle.vx_mask.specs.Bits.{bit_of, bits_of, bit_of_both};
ghost use Rattle.vx_mask.specs.Logic.{bit_row};
ghost use Rattle.vx_mask.specs.Words.{low_bits};

use crate::bit_slice::BitSlice;
use std::alloc::{AllocError, Global};
use std::fmt;
use std::marker::Model;
use std::ops::Range;
use std::rc::Rc;

/// A range of bits in shared storage of 64-bit words, with the first bit of a word in its lowest place.
///
/// Clones and slices share the words. A range may begin and end within a word.
#[derive(Drop)]
pub struct BitBuffer {
    words: Rc<Vec<u64>>,
    start: usize,
    len: usize,
}

impl Model for BitBuffer {
    ghost use Rattle.std.specs.Prelude.{◌+◌, ◌*◌, ◌^◌, ◌<◌, ◌≤◌, Bool, List, take, drop, vec_len};
    ghost use Rattle.vx_mask.specs.Bits.{bits_of};

    ghost Value = { List Bool };

    ghost view = { λ b. take b.len (drop b.start (bits_of b.words.value.items)) };

    ghost invariant = { λ b. (b.start + b.len ≤ 64 * vec_len b.words.value) × (b.start + b.len < 2 ^ 64) };
}

/// Checks whether bit `place` of `word` is set, counted from the lowest one.
#[inline]
#[tactic(auto, using(std::proofs::lemmas::Nat::Bits::shr_and_one))]
fn is_bit_set(word: u64, place: usize) -> bool
    requires { place < 64 }
    ensures { result ≡ (bit_at word place == 1) }
{
    (word >> place) & 1 == 1
}

/// Returns a word whose 64 bits are all `bit`.
#[inline]
pub(crate) fn filled_word(bit: bool) -> u64
    ensures { result ≡ (if bit then u64.MAX else 0) }
{
    if bit { u64::MAX } else { 0 }
}

#[tactic(auto, using(crate::proofs::BitsLemmas::length_part))]
impl BitBuffer {
    /// Makes a buffer of the first `len` bits of `words`.
    pub(crate) fn from_words(
        alloc: Global,
        words: Vec<u64>,
        len: usize,
    ) -> Result<BitBuffer, AllocError>
        requires { len ≤ 64 * vec_len words }
        ensures { IfOk result (λ b. b ≡ take len (bits_of words.items)) }
    {
        let words = Rc::new(alloc, words)?;
        Ok(BitBuffer {
            words,
            start: 0,
            len,
        })
    }

    /// Makes a buffer of `len` bits that are all `bit`. Fails only if there is no memory for them. (own)
    #[tactic(auto, using(crate::proofs::BitsLemmas::repeated))]
    pub fn repeat(alloc: Global, bit: bool, len: usize) -> Result<BitBuffer, AllocError>
        ensures { IfOk result (λ b. b ≡ replicate len bit) }
    {
        let words = vec![in alloc; filled_word(bit); len.div_ceil(64)]?;
        BitBuffer::from_words(alloc, words, len)
    }

    /// Returns the length in bits.
    #[inline]
    pub fn len(&self) -> usize
        ensures { result ≡ length self.now }
    {
        self.len
    }

    /// Checks whether the buffer has no bits.
    pub fn is_empty(&self) -> bool
        ensures { IsTrue result ↔ (length self.now ≡ 0) }
    {
        self.len == 0
    }

    /// Returns the bit at `index`, counted from the start of the range, or `None` past the end. (own)
    #[inline]
    pub fn get(&self, index: usize) -> Option<bool>
        ensures { result ≡ slice_get self.now index }
    {
        if index < self.len {
            Some(self.value(index))
        } else {
            None
        }
    }

    /// Returns the bit at `index`, counted from the start of the range.
    #[inline]
    #[tactic(auto, using(crate::proofs::BitsLemmas::bit_within, crate::proofs::BitsLemmas::length_part))]
    pub fn value(&self, index: usize) -> bool
        requires { index < length self.now }
        ensures { slice_get self.now index ≡ Some result }
    {
        let place = self.start + index;
        is_bit_set(self.words.as_ref()[place / 64], place % 64)
    }

    /// Returns the 64 bits from index `64 * k` on, with the first one in the lowest place. Bits past the end are
    /// unspecified. (own)
    #[inline]
    pub fn word(&self, k: usize) -> u64
        requires { 64 * k < length self.now }
        ensures { (i : ℕ) → i < 64 → 64 * k + i < length self.now → (bit_at result i == 1) ≡ bit_row self.now (64 * k + i) }
    {
        self.as_bits().word(k)
    }

    /// Returns the 64 bits from index `64 * k` on, with the first one in the lowest place. All are within the range.
    #[inline]
    pub(crate) fn full_word(&self, k: usize) -> u64
        requires { 64 * k + 64 ≤ length self.now }
        ensures { (i : ℕ) → i < 64 → 64 * k + i < length self.now → (bit_at result i == 1) ≡ bit_row self.now (64 * k + i) }
    {
        self.as_bits().full_word(k)
    }

    /// Returns the bits from the last multiple of 64 on, with the first one in the lowest place, and 0 past the end.
    #[inline]
    pub(crate) fn last_word(&self) -> u64
        ensures { take (64 * (length self.now / 64)) self.now ++ low_bits 64 result ≡ self.now ++ replicate (64 - length self.now % 64) false }
    {
        self.as_bits().last_word()
    }

    /// Borrows the bits.
    #[inline]
    pub(crate) fn as_bits(&self) -> BitSlice<'_>
        ensures { result ≡ self.now }
    {
        BitSlice::new(self.words.as_ref(), self.start, self.len)
    }

    /// Returns the bits at `range` without copying them: the result shares the storage. Fails only if the storage
    /// can't be shared once more.
    pub fn slice(&self, range: Range<usize>) -> Result<BitBuffer, AllocError>
        requires order { range.start ≤ range.end }
        requires bounds { range.end ≤ length self.now }
        ensures { IfOk result (λ b. b ≡ slice_range self.now range.start range.end) }
    {
        let words = self.words.clone()?;
        Ok(BitBuffer {
            words,
            start: self.start + range.start,
            len: range.end - range.start,
        })
    }
}

/// Shares the storage. Fails only if it can't be shared once more.
impl Clone for BitBuffer {
    ghost is_clone = { λ a b. b ≡ a };

    fn clone(&self) -> Result<BitBuffer, AllocError> {
        self.slice(0..self.len())
    }
}

/// Prints the bits as a list of `bool`.
impl fmt::Debug for BitBuffer {
    fn fmt<W: fmt::Write>(&self, f: &mut fmt::Formatter<W>) -> fmt::Result {
        let mut list = f.debug_list();
        for index in 0..self.len() {
            list.entry(&self.value(index));
        }
        list.finish()
    }
}
