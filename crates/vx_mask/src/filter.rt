//! The items and bits that a mask chooses, 64 at a time.

ghost use Rattle.std.specs.Prelude.{◌≡◌, ◌+◌, ◌≤◌, ◌++◌, IfOk, OnOk, OnErr, length, vec_len, vec_capacity};
ghost use Rattle.vx_mask.specs.Masks.{bits_in};
ghost use Rattle.vx_mask.specs.Places.{true_count, chosen};
ghost use Rattle.vx_mask.specs.Words.{low_bits};

use crate::bit_slice::BitSlice;
use crate::bits::BitBuffer;
use crate::buffer::Buffer;
use crate::builder::BitBuilder;
use crate::mask::Mask;
use crate::mask_values::MaskValues;
use crate::word::{first_one, gather, ones_in};
use std::alloc::{AllocError, Global};

/// Appends the items at the true bits of `word`. There must be an item at each, and room for them.
#[inline]
fn push_items<T: Copy>(kept: &mut Vec<T>, word: u64, items: &[T]) -> Result<(), AllocError>
    requires each { length (chosen (low_bits 64 word) items.now) ≡ true_count (low_bits 64 word) }
    requires room { vec_len kept.old + true_count (low_bits 64 word) ≤ vec_capacity kept.old }
    ensures items { OnOk result (kept.new.items ≡ kept.old.items ++ chosen (low_bits 64 word) items.now) }
    ensures capacity { vec_capacity kept.old ≤ vec_capacity kept.new }
{
    if word == u64::MAX {
        return kept.extend_from_slice(&items[..64]);
    }
    let mut left = word;
    while left != 0 {
        kept.push_reserved(items[first_one(left)]);
        left &= left - 1;
    }
    Ok(())
}

/// Appends the bits of `bits` that stand at the true bits of `word`.
#[inline]
fn push_bits(kept: &mut BitBuilder, word: u64, bits: u64) -> Result<(), AllocError>
    ensures { OnOk result (kept.new ≡ kept.old ++ chosen (low_bits 64 word) (low_bits 64 bits)) }
{
    if word == 0 {
        Ok(())
    } else if word == u64::MAX {
        kept.push_bits(bits, 64)
    } else {
        kept.push_bits(gather(word, bits), ones_in(word))
    }
}

impl BitSlice<'_> {
    /// Returns the items at the true bits, of which there are `count`. Fails only if there is no memory for them.
    fn chosen_items<T: Copy>(
        &self,
        alloc: Global,
        count: usize,
        items: &[T],
    ) -> Result<Vec<T>, AllocError>
        requires count { count ≡ true_count self.now }
        requires len { length items.now ≡ length self.now }
        ensures { IfOk result (λ kept. kept.items ≡ chosen self.now items.now) }
    {
        let full = self.len() / 64;
        let mut kept = Vec::with_capacity(alloc, count)?;
        for k in 0..full {
            push_items(&mut kept, self.full_word(k), &items[64 * k..])?;
        }
        push_items(&mut kept, self.last_word(), &items[64 * full..])?;
        Ok(kept)
    }

    /// Returns the bits of `bits` at the true bits, of which there are `count`. Fails only if there is no memory for them.
    fn chosen_bits(
        &self,
        alloc: Global,
        count: usize,
        bits: &BitSlice<'_>,
    ) -> Result<BitBuffer, AllocError>
        requires { length bits.now ≡ length self.now }
        ensures { IfOk result (λ kept. kept ≡ chosen self.now bits.now) }
    {
        let mut kept = BitBuilder::with_capacity(alloc, count)?;
        for k in 0..self.len() / 64 {
            push_bits(&mut kept, self.full_word(k), bits.full_word(k))?;
        }
        push_bits(&mut kept, self.last_word(), bits.last_word())?;
        kept.finish(alloc)
    }
}

impl<T: Copy> Buffer<T> {
    /// Returns the items at the true bits of `mask`, in order. Shares the storage if the true bits are consecutive. Fails only
    /// if there is no memory for the items, or if the storage can't be shared once more.
    pub fn filter(&self, alloc: Global, mask: &Mask) -> Result<Buffer<T>, AllocError>
        requires { length (bits_in mask.now) ≡ length self.now }
        ensures { IfOk result (λ b. b ≡ chosen (bits_in mask.now) self.now) }
    {
        match mask {
            Mask::AllTrue(_) => self.clone(),
            Mask::AllFalse(_) => Buffer::from_vec(alloc, Vec::new(alloc)),
            Mask::Values(values) => self.filter_values(alloc, values),
        }
    }

    /// Returns the items at the true bits of `mask`.
    fn filter_values(&self, alloc: Global, mask: &MaskValues) -> Result<Buffer<T>, AllocError>
        requires { length mask.now ≡ length self.now }
        ensures { IfOk result (λ b. b ≡ chosen mask.now self.now) }
    {
        if let Some(range) = mask.contiguous_range() {
            return self.slice(range);
        }
        let bits = mask.bit_buffer().as_bits();
        let items = bits.chosen_items(alloc, mask.true_count(), self.as_slice())?;
        Buffer::from_vec(alloc, items)
    }
}

impl BitBuffer {
    /// Returns the bits at the true bits of `mask`, in order. Shares the storage if the true bits are consecutive. Fails only
    /// if there is no memory for the bits, or if the storage can't be shared once more.
    pub fn filter(&self, alloc: Global, mask: &Mask) -> Result<BitBuffer, AllocError>
        requires { length (bits_in mask.now) ≡ length self.now }
        ensures { IfOk result (λ b. b ≡ chosen (bits_in mask.now) self.now) }
    {
        match mask {
            Mask::AllTrue(_) => self.clone(),
            Mask::AllFalse(_) => BitBuffer::repeat(alloc, false, 0),
            Mask::Values(values) => self.filter_values(alloc, values),
        }
    }

    /// Returns the bits at the true bits of `mask`.
    fn filter_values(&self, alloc: Global, mask: &MaskValues) -> Result<BitBuffer, AllocError>
        requires { length mask.now ≡ length self.now }
        ensures { IfOk result (λ b. b ≡ chosen mask.now self.now) }
    {
        if let Some(range) = mask.contiguous_range() {
            return self.slice(range);
        }
        let bits = mask.bit_buffer().as_bits();
        bits.chosen_bits(alloc, mask.true_count(), &self.as_bits())
    }
}
