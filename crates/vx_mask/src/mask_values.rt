//! The values of a mask that has both true and false bits.

ghost use Rattle.std.specs.Prelude.{◌≡◌, ◌^◌, ◌<◌, ℕ, length, MatchOption};
ghost use Rattle.vx_mask.specs.Places.{true_count, IsRun};

use crate::bits::BitBuffer;
use std::alloc::{AllocError, Global};
use std::fmt;
use std::marker::Model;
use std::ops::Range;

/// Bits that are neither all true nor all false, and how many are true.
#[derive(Drop)]
pub struct MaskValues {
    bits: BitBuffer,
    count: usize,
}

impl Model for MaskValues {
    ghost use Rattle.std.specs.Prelude.{◌≡◌, ◌^◌, ◌<◌, Bool, List, length};
    ghost use Rattle.vx_mask.specs.Places.{true_count};

    ghost Value = { List Bool };

    ghost view = { λ v. v.bits };

    ghost invariant = { λ v. (v.count ≡ true_count v.bits) × (0 < true_count v.bits) × (true_count v.bits < length v.bits) × (length v.bits < 2 ^ 64) };
}

impl MaskValues {
    /// Wraps `bits`, of which `count` are true.
    pub(crate) fn new(bits: BitBuffer, count: usize) -> MaskValues
        requires count { count ≡ true_count bits }
        requires some { 0 < count }
        requires not_all { count < length bits }
        requires fits { length bits < 2 ^ 64 }
        ensures { result ≡ bits }
    {
        MaskValues { bits, count }
    }

    /// Returns the bits.
    #[inline]
    pub fn bit_buffer(&self) -> &BitBuffer
        ensures { result.now ≡ self.now }
    {
        &self.bits
    }

    /// Returns the length in rows.
    #[inline]
    pub fn len(&self) -> usize
        ensures { result ≡ length self.now }
    {
        self.bits.len()
    }

    /// Returns the number of true bits, without counting them.
    #[inline]
    pub fn true_count(&self) -> usize
        ensures count { result ≡ true_count self.now }
        ensures some { 0 < result }
        ensures not_all { result < length self.now }
    {
        self.count
    }

    /// Returns the range of the true bits, or `None` if a false bit stands between two of them. (own)
    pub fn contiguous_range(&self) -> Option<Range<usize>>
        ensures { MatchOption result ((a b : ℕ) → IsRun self.now a b → ⊥) (λ range. IsRun self.now range.start range.end) }
    {
        let first = self.bits.first()?;
        let last = self.bits.last()?;
        if last - first < self.count {
            Some(first..last + 1)
        } else {
            None
        }
    }
}

/// Shares the bits. Fails only if they can't be shared once more.
impl Clone for MaskValues {
    ghost is_clone = { λ a b. b ≡ a };

    fn clone(&self) -> Result<MaskValues, AllocError> {
        let bits = self.bits.clone()?;
        Ok(MaskValues {
            bits,
            count: self.count,
        })
    }
}

/// Prints the bits as a list of `bool`.
impl fmt::Debug for MaskValues {
    fn fmt<W: fmt::Write>(&self, f: &mut fmt::Formatter<W>) -> fmt::Result {
        self.bits.fmt(f)
    }
}
