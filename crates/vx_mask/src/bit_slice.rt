//! Ranges of bits in borrowed words.

ghost use Rattle.std.specs.Prelude.{◌≡◌, ◌+◌, ◌*◌, ◌^◌, ◌/◌, ◌-◌, ◌%◌, ◌<◌, ◌≤◌, ◌==◌, ◌++◌, ℕ, false, length, replicate, take, drop};
ghost use Rattle.std.specs.Int.{bit_at};
ghost use Rattle.vx_mask.specs.Bits.{bit_of, bits_of, bit_of_both};
ghost use Rattle.vx_mask.specs.Logic.{bit_row};
ghost use Rattle.vx_mask.specs.Words.{low_bits};

use std::marker::Model;

/// A range of bits in borrowed words. A `BitBuffer` lends its bits as one.
#[derive(Drop)]
pub(crate) struct BitSlice<'a> {
    words: &'a [u64],
    start: usize,
    len: usize,
}

impl<'a> Model for BitSlice<'a> {
    ghost use Rattle.std.specs.Prelude.{◌+◌, ◌*◌, ◌^◌, ◌<◌, ◌≤◌, Bool, List, length, take, drop};
    ghost use Rattle.vx_mask.specs.Bits.{bits_of};

    ghost Value = { List Bool };

    ghost view = { λ b. take b.len (drop b.start (bits_of b.words.now)) };

    ghost invariant = { λ b. (b.start + b.len ≤ 64 * length b.words.now) × (b.start + b.len < 2 ^ 64) };
}

/// Returns the 64 bits from bit `by` of `low` on, continued in `high`.
#[inline]
#[tactic(auto, using(crate::proofs::Words::joined_bit))]
fn joined(low: u64, high: u64, by: usize) -> u64
    requires some { 0 < by }
    requires within { by < 64 }
    ensures { (i : ℕ) → i < 64 → bit_at result i ≡ bit_of_both low high (by + i) }
{
    (low >> by) | (high << (64 - by))
}

/// Returns the 64 bits from bit `by` of the word at `place` on, all of which are in `words`.
#[inline]
fn full_word_at(words: &[u64], place: usize, by: usize) -> u64
    requires place { place < length words.now }
    requires by { by < 64 }
    requires next { 0 < by → place + 1 < length words.now }
    ensures { (i : ℕ) → i < 64 → (bit_at result i == 1) ≡ bit_of words.now (64 * place + by + i) }
{
    let low = words[place];
    if by == 0 {
        low
    } else {
        joined(low, words[place + 1], by)
    }
}

/// Returns the 64 bits from bit `by` of the word at `place` on, and 0 for those past the last word.
#[inline]
fn word_at(words: &[u64], place: usize, by: usize) -> u64
    requires place { place < length words.now }
    requires by { by < 64 }
    ensures { (i : ℕ) → i < 64 → (bit_at result i == 1) ≡ bit_of words.now (64 * place + by + i) }
{
    let low = words[place];
    if by == 0 {
        low
    } else {
        joined(low, words.get(place + 1).copied().unwrap_or(0), by)
    }
}

#[tactic(auto, using(crate::proofs::BitsLemmas::length_part))]
impl<'a> BitSlice<'a> {
    /// Makes the slice of the `len` bits from place `start` of `words` on.
    #[inline]
    pub(crate) fn new(words: &'a [u64], start: usize, len: usize) -> BitSlice<'a>
        requires within { start + len ≤ 64 * length words.now }
        requires fits { start + len < 2 ^ 64 }
        ensures { result ≡ take len (drop start (bits_of words.now)) }
    {
        BitSlice { words, start, len }
    }

    /// Returns the length in bits.
    #[inline]
    pub(crate) fn len(&self) -> usize
        ensures { result ≡ length self.now }
    {
        self.len
    }

    /// Returns the 64 bits from index `64 * k` on, with the first one in the lowest place. Bits past the end are
    /// unspecified.
    #[inline]
    pub(crate) fn word(&self, k: usize) -> u64
        requires { 64 * k < length self.now }
        ensures { (i : ℕ) → i < 64 → 64 * k + i < length self.now → (bit_at result i == 1) ≡ bit_row self.now (64 * k + i) }
    {
        word_at(self.words, self.start / 64 + k, self.start % 64)
    }

    /// Returns the 64 bits from index `64 * k` on, with the first one in the lowest place. All are within the range.
    #[inline]
    pub(crate) fn full_word(&self, k: usize) -> u64
        requires { 64 * k + 64 ≤ length self.now }
        ensures { (i : ℕ) → i < 64 → 64 * k + i < length self.now → (bit_at result i == 1) ≡ bit_row self.now (64 * k + i) }
    {
        full_word_at(self.words, self.start / 64 + k, self.start % 64)
    }

    /// Returns the 64 bits from `index` on, with the first one in the lowest place. Bits past the end are unspecified.
    #[inline]
    pub(crate) fn word_from(&self, index: usize) -> u64
        requires { index < length self.now }
        ensures { (i : ℕ) → i < 64 → index + i < length self.now → (bit_at result i == 1) ≡ bit_row self.now (index + i) }
    {
        let from = self.start + index;
        word_at(self.words, from / 64, from % 64)
    }

    /// Returns the bits from the last multiple of 64 on, with the first one in the lowest place, and 0 past the end.
    #[inline]
    pub(crate) fn last_word(&self) -> u64
        ensures { take (64 * (length self.now / 64)) self.now ++ low_bits 64 result ≡ self.now ++ replicate (64 - length self.now % 64) false }
    {
        let len = self.len();
        if len % 64 == 0 {
            0
        } else {
            self.word(len / 64) & ((1 << (len % 64)) - 1)
        }
    }
}
