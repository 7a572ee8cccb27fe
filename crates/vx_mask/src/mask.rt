//! Masks: choices of rows.

ghost use Rattle.std.specs.Prelude.{◌≡◌, ◌≤◌, ◌↔◌, ◌==◌, ℕ, false, if◌then◌else◌, IsTrue, IfOk, MatchOption};
ghost use Rattle.std.specs.Prelude.{length, replicate, slice_get, slice_range};
ghost use Rattle.vx_mask.specs.Masks.{bits_in, mask_of, is_all_true, is_all_false};
ghost use Rattle.vx_mask.specs.Places.{true_count, true_place, combined, IsRun};

use crate::bits::BitBuffer;
use crate::mask_values::MaskValues;
use std::alloc::{AllocError, Global};
use std::ops::Range;

/// A choice of rows: those at its true bits. In contracts `bits_in` gives the list of its bits.
#[derive(Debug, Drop)]
pub enum Mask {
    /// Chooses all of this many rows.
    AllTrue(usize),
    /// Chooses none of this many rows.
    AllFalse(usize),
    /// Chooses some rows, but not all.
    Values(MaskValues),
}

impl Mask {
    /// Makes the mask of `bits`, and counts them. Bits that are all true or all false aren't kept. (own)
    pub fn from_bits(bits: BitBuffer) -> Mask
        ensures { result ≡ mask_of bits }
    {
        let len = bits.len();
        let count = bits.true_count();
        if count == len {
            Mask::AllTrue(len)
        } else if count == 0 {
            Mask::AllFalse(len)
        } else {
            Mask::Values(MaskValues::new(bits, count))
        }
    }

    /// Returns the length in rows.
    #[inline]
    pub fn len(&self) -> usize
        ensures { result ≡ length (bits_in self.now) }
    {
        match self {
            Mask::AllTrue(len) | Mask::AllFalse(len) => *len,
            Mask::Values(values) => values.len(),
        }
    }

    /// Checks whether the mask has no rows.
    pub fn is_empty(&self) -> bool
        ensures { IsTrue result ↔ (length (bits_in self.now) ≡ 0) }
    {
        self.len() == 0
    }

    /// Returns the number of true bits.
    #[inline]
    pub fn true_count(&self) -> usize
        ensures { result ≡ true_count (bits_in self.now) }
    {
        match self {
            Mask::AllTrue(len) => *len,
            Mask::AllFalse(_) => 0,
            Mask::Values(values) => values.true_count(),
        }
    }

    /// Checks whether all bits are true. A mask of no rows has all bits true.
    pub fn all_true(&self) -> bool
        ensures { result ≡ is_all_true (bits_in self.now) }
    {
        self.true_count() == self.len()
    }

    /// Checks whether all bits are false. A mask of no rows has all bits false.
    pub fn all_false(&self) -> bool
        ensures { result ≡ is_all_false (bits_in self.now) }
    {
        self.true_count() == 0
    }

    /// Returns the bit at `index`, or `None` past the end.
    pub fn value(&self, index: usize) -> Option<bool>
        ensures { result ≡ slice_get (bits_in self.now) index }
    {
        match self {
            Mask::AllTrue(len) => (index < *len).then_some(true),
            Mask::AllFalse(len) => (index < *len).then_some(false),
            Mask::Values(values) => values.bit_buffer().get(index),
        }
    }

    /// Returns the index of the true bit with `k` true bits before it, or `None` if there are at most `k`.
    pub fn rank(&self, k: usize) -> Option<usize>
        ensures { result ≡ true_place (bits_in self.now) k }
    {
        match self {
            Mask::AllTrue(len) => (k < *len).then_some(k),
            Mask::AllFalse(_) => None,
            Mask::Values(values) => values.bit_buffer().rank(k),
        }
    }

    /// Returns the mask of the rows at `range` without copying its bits: the result shares them. Fails only if they can't be
    /// shared once more.
    pub fn slice(&self, range: Range<usize>) -> Result<Mask, AllocError>
        requires order { range.start ≤ range.end }
        requires bounds { range.end ≤ length (bits_in self.now) }
        ensures { IfOk result (λ mask. mask ≡ mask_of (slice_range (bits_in self.now) range.start range.end)) }
    {
        let len = range.end - range.start;
        match self {
            Mask::AllTrue(_) => Ok(Mask::AllTrue(len)),
            Mask::AllFalse(_) => Ok(Mask::none_of(len)),
            Mask::Values(values) => Ok(Mask::from_bits(values.bit_buffer().slice(range)?)),
        }
    }

    /// Returns the mask that chooses by `self`, then by `inner` among the rows chosen: bit `k` of `inner` takes the place of
    /// true bit `k` of `self`. Returns `None` if `inner` doesn't have as many rows as `self` chooses. Fails only if there is no
    /// memory for the bits.
    pub fn intersect_by_rank(&self, alloc: Global, inner: &Mask) -> Result<Option<Mask>, AllocError>
        ensures { let outer = bits_in self.now in let bits = bits_in inner.now in
            IfOk result (λ mask. mask ≡ (if length bits == true_count outer then Some (mask_of (combined outer bits)) else None)) }
    {
        if inner.len() == self.true_count() {
            Ok(Some(self.combined(alloc, inner)?))
        } else {
            Ok(None)
        }
    }

    /// Returns the mask that chooses by `self`, then by `inner` among the rows chosen.
    fn combined(&self, alloc: Global, inner: &Mask) -> Result<Mask, AllocError>
        requires { length (bits_in inner.now) ≡ true_count (bits_in self.now) }
        ensures { IfOk result (λ mask. mask ≡ mask_of (combined (bits_in self.now) (bits_in inner.now))) }
    {
        match (self, inner) {
            (Mask::AllTrue(_), _) => inner.in_form(),
            (_, Mask::AllTrue(_)) => self.in_form(),
            (Mask::AllFalse(len), _) => Ok(Mask::none_of(*len)),
            (Mask::Values(outer), Mask::AllFalse(_)) => Ok(Mask::none_of(outer.len())),
            (Mask::Values(outer), Mask::Values(inner)) => {
                let outer = outer.bit_buffer();
                let bits = outer.intersect_by_rank(alloc, inner.bit_buffer())?;
                Ok(Mask::from_bits(bits))
            }
        }
    }

    /// Returns the mask in the form that `from_bits` gives it.
    fn in_form(&self) -> Result<Mask, AllocError>
        ensures { IfOk result (λ mask. mask ≡ mask_of (bits_in self.now)) }
    {
        match self {
            Mask::AllTrue(len) => Ok(Mask::AllTrue(*len)),
            Mask::AllFalse(len) => Ok(Mask::none_of(*len)),
            Mask::Values(values) => {
                let _some = values.true_count();
                Ok(Mask::Values(values.clone()?))
            }
        }
    }

    /// Returns the mask that chooses none of `len` rows, in the form that `from_bits` gives it.
    fn none_of(len: usize) -> Mask
        ensures { result ≡ mask_of (replicate len false) }
    {
        if len == 0 {
            Mask::AllTrue(0)
        } else {
            Mask::AllFalse(len)
        }
    }

    /// Returns the range of the rows that the mask chooses, or `None` if it chooses none or they aren't consecutive. (own)
    pub fn contiguous_range(&self) -> Option<Range<usize>>
        ensures { MatchOption result ((a b : ℕ) → IsRun (bits_in self.now) a b → ⊥) (λ range. IsRun (bits_in self.now) range.start range.end) }
    {
        match self {
            Mask::AllTrue(len) => (*len > 0).then_some(0..*len),
            Mask::AllFalse(_) => None,
            Mask::Values(values) => values.contiguous_range(),
        }
    }
}

/// Shares the bits. Fails only if they can't be shared once more.
impl Clone for Mask {
    ghost is_clone = { λ a b. b ≡ a };

    fn clone(&self) -> Result<Mask, AllocError> {
        match self {
            Mask::AllTrue(len) => Ok(Mask::AllTrue(*len)),
            Mask::AllFalse(len) => Ok(Mask::AllFalse(*len)),
            Mask::Values(values) => Ok(Mask::Values(values.clone()?)),
        }
    }
}
