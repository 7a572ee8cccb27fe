//! Building bit buffers bit by bit.

ghost use Rattle.std.specs.Prelude.{◌≡◌, ◌+◌, ◌<◌, ◌≤◌, ◌^◌, ◌∷◌, [], ◌++◌, ℕ, IfOk, OnOk, OnErr, length, take, replicate};
ghost use Rattle.vx_mask.specs.Words.{low_bits};

use crate::bits::{BitBuffer, filled_word};
use std::alloc::{AllocError, Global};
use std::marker::Model;

/// Returns a word whose `count` lowest bits are `bit`, and the others 0.
fn repeated_bit(bit: bool, count: usize) -> u64
    requires { count < 64 }
    ensures bits { low_bits count result ≡ replicate count bit }
    ensures above { result < 2 ^ count }
{
    if bit { (1 << count) - 1 } else { 0 }
}

/// Builds a `BitBuffer`: holds the full words, and the bits that don't fill a word yet. (own)
#[derive(Debug, Drop)]
pub struct BitBuilder {
    words: Vec<u64>,
    last: u64,
    fill: usize,
}

impl Model for BitBuilder {
    ghost use Rattle.std.specs.Prelude.{◌+◌, ◌*◌, ◌^◌, ◌<◌, ◌∷◌, [], ◌++◌, Bool, List, length, take};
    ghost use Rattle.vx_mask.specs.Bits.{bits_of};

    ghost Value = { List Bool };

    ghost view = { λ b. take (64 * length b.words.items + b.fill) (bits_of (b.words.items ++ b.last ∷ [])) };

    ghost invariant = { λ b. (b.fill < 64) × (b.last < 2 ^ b.fill) };
}

impl BitBuilder {
    /// Makes an empty builder without allocating.
    pub fn new(alloc: Global) -> BitBuilder
        ensures { result ≡ [] }
    {
        BitBuilder {
            words: Vec::new(alloc),
            last: 0,
            fill: 0,
        }
    }

    /// Makes an empty builder with room for `bits` bits. Fails only if there is no memory for them.
    pub fn with_capacity(alloc: Global, bits: usize) -> Result<BitBuilder, AllocError>
        ensures { IfOk result (λ b. b ≡ []) }
    {
        // One word more than the full ones, since `finish` adds the last one.
        let words = Vec::with_capacity(alloc, bits / 64 + 1)?;
        Ok(BitBuilder {
            words,
            last: 0,
            fill: 0,
        })
    }

    /// Appends `bit`. Fails only if there is no memory for one more word.
    #[inline]
    #[tactic(auto, using(crate::proofs::Pushes::next_fits))]
    pub fn push(&mut self, bit: bool) -> Result<(), AllocError>
        ensures ok { OnOk result (self.new ≡ self.old ++ bit ∷ []) }
        ensures err { OnErr result (self.new ≡ self.old) }
    {
        let word = (u64::from(bit) << self.fill) + self.last;
        if self.fill == 63 {
            self.words.push(word)?;
            self.last = 0;
            self.fill = 0;
        } else {
            self.last = word;
            self.fill += 1;
        }
        Ok(())
    }

    /// Appends the `count` lowest bits of `word`, from the lowest one on; those above must be 0. Fails only if there is no
    /// memory for one more word.
    #[inline]
    #[tactic(auto, using(crate::proofs::Pushes::next_fits, crate::proofs::Pushes::joined_fits, crate::proofs::Pushes::rest_fits))]
    pub(crate) fn push_bits(&mut self, word: u64, count: usize) -> Result<(), AllocError>
        requires size { count ≤ 64 }
        requires above { word < 2 ^ count }
        ensures ok { OnOk result (self.new ≡ self.old ++ low_bits count word) }
        ensures err { OnErr result (self.new ≡ self.old) }
    {
        let joined = (word << self.fill) + self.last;
        let fill = self.fill + count;
        if fill < 64 {
            self.last = joined;
            self.fill = fill;
        } else {
            self.words.push(joined)?;
            self.last = (word >> 1) >> (63 - self.fill);
            self.fill = fill - 64;
        }
        Ok(())
    }

    /// Appends `bit` `count` times, a word at a time and in one allocation. Fails only if there is no memory for the words; the
    /// bits are then unchanged.
    pub fn push_copies(&mut self, bit: bool, count: usize) -> Result<(), AllocError>
        ensures ok { OnOk result (self.new ≡ self.old ++ replicate count bit) }
        ensures err { OnErr result (self.new ≡ self.old) }
    {
        let room = 64 - self.fill;
        if count < room {
            return self.push_bits(repeated_bit(bit, count), count);
        }
        let word = filled_word(bit);
        let rest = count - room;
        self.words.reserve(rest / 64 + 1)?;
        self.words.push((word << self.fill) + self.last)?;
        self.words.resize(self.words.len() + rest / 64, word)?;
        self.last = repeated_bit(bit, rest % 64);
        self.fill = rest % 64;
        Ok(())
    }

    /// Appends `bits`, a word at a time and in one allocation; a `usize` must be able to count all bits. Fails only if there is no
    /// memory for the words; the bits are then unchanged.
    pub fn append(&mut self, bits: &BitBuffer) -> Result<(), AllocError>
        requires { length self.old + length bits.now < 2 ^ 64 }
        ensures ok { OnOk result (self.new ≡ self.old ++ bits.now) }
        ensures err { OnErr result (self.new ≡ self.old) }
    {
        let len = 64 * self.words.len() + self.fill;
        self.words.reserve(bits.len() / 64 + 1)?;
        if let Err(e) = self.push_words(bits) {
            self.truncate(len);
            return Err(e);
        }
        Ok(())
    }

    /// Appends `bits`, a word at a time. Fails only if there is no memory for the words; some of the bits may then be appended.
    fn push_words(&mut self, bits: &BitBuffer) -> Result<(), AllocError>
        ensures ok { OnOk result (self.new ≡ self.old ++ bits.now) }
        ensures err { OnErr result ((n : ℕ) × (self.new ≡ self.old ++ take n bits.now)) }
    {
        let full = bits.len() / 64;
        for k in 0..full {
            self.push_bits(bits.full_word(k), 64)?;
        }
        let rest = bits.len() % 64;
        if rest == 0 {
            return Ok(());
        }
        self.push_bits(bits.word(full) & ((1 << rest) - 1), rest)
    }

    /// Keeps only the first `len` bits, which must exist.
    pub fn truncate(&mut self, len: usize)
        requires { len ≤ length self.old }
        ensures { self.new ≡ take len self.old }
    {
        let full = len / 64;
        if full < self.words.len() {
            self.last = self.words[full];
            self.words.truncate(full);
        }
        self.fill = len % 64;
        self.last &= (1 << self.fill) - 1;
    }

    /// Returns the bits in a buffer. Fails only if there is no memory for the last word or for the reference count, or
    /// if a `usize` can't count the bits.
    pub fn finish(self, alloc: Global) -> Result<BitBuffer, AllocError>
        ensures { IfOk result (λ b. b ≡ self) }
    {
        let BitBuilder {
            mut words,
            last,
            fill,
        } = self;
        let full = words.len();
        if full > usize::MAX / 64 {
            return Err(AllocError);
        }
        words.push(last)?;
        BitBuffer::from_words(alloc, words, 64 * full + fill)
    }
}
