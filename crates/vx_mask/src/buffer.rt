//! Buffers: ranges of items in shared storage.

ghost use Rattle.std.specs.Prelude.{◌≡◌, ◌≤◌, ◌↔◌, IsTrue, IfOk, length, slice_range, slice_get};
ghost use Rattle.std.specs.Option.{option_copied};

use std::alloc::{AllocError, Global};
use std::fmt;
use std::marker::Model;
use std::ops::Range;
use std::rc::Rc;

/// A range of items in shared storage. Clones and slices of a buffer share one `Vec`.
#[derive(Drop)]
pub struct Buffer<T> {
    storage: Rc<Vec<T>>,
    start: usize,
    len: usize,
}

impl<T> Model for Buffer<T> {
    ghost use Rattle.std.specs.Prelude.{◌+◌, ◌≤◌, List, take, drop, vec_len};

    ghost Value = { List T };

    ghost view = { λ b. take b.len (drop b.start b.storage.value.items) };

    ghost invariant = { λ b. b.start + b.len ≤ vec_len b.storage.value };
}

impl<T> Buffer<T> {
    /// Returns the length in items.
    #[inline]
    pub fn len(&self) -> usize
        ensures { result ≡ length self.now }
    {
        self.len
    }

    /// Checks whether the buffer has no items.
    pub fn is_empty(&self) -> bool
        ensures { IsTrue result ↔ (length self.now ≡ 0) }
    {
        self.len == 0
    }

    /// Returns the items as a slice.
    #[inline]
    pub fn as_slice(&self) -> &[T]
        ensures { result.now ≡ self.now }
    {
        let all = self.storage.as_ref().as_slice();
        &all[self.start..self.start + self.len]
    }

    /// Returns the item at `index`, counted from the start of the range, or `None` past the end.
    pub fn get(&self, index: usize) -> Option<&T>
        ensures { option_copied result ≡ slice_get self.now index }
    {
        self.as_slice().get(index)
    }
}

impl<T: Drop> Buffer<T> {
    /// Makes a buffer of `items` without copying them. Fails only if there is no memory for the reference count, and
    /// then drops `items`. (own)
    pub fn from_vec(alloc: Global, items: Vec<T>) -> Result<Buffer<T>, AllocError>
        ensures { IfOk result (λ b. b ≡ items.items) }
    {
        let len = items.len();
        let storage = Rc::new(alloc, items)?;
        Ok(Buffer {
            storage,
            start: 0,
            len,
        })
    }

    /// Returns the items at `range` without copying them: the result shares the storage. Fails only if the storage
    /// can't be shared once more.
    pub fn slice(&self, range: Range<usize>) -> Result<Buffer<T>, AllocError>
        requires order { range.start ≤ range.end }
        requires bounds { range.end ≤ length self.now }
        ensures { IfOk result (λ b. b ≡ slice_range self.now range.start range.end) }
    {
        let storage = self.storage.clone()?;
        Ok(Buffer {
            storage,
            start: self.start + range.start,
            len: range.end - range.start,
        })
    }
}

/// Shares the storage. Fails only if it can't be shared once more.
impl<T: Drop> Clone for Buffer<T> {
    ghost is_clone = { λ a b. b ≡ a };

    fn clone(&self) -> Result<Buffer<T>, AllocError> {
        self.slice(0..self.len())
    }
}

/// Prints the items as those of a slice.
impl<T: fmt::Debug> fmt::Debug for Buffer<T> {
    fn fmt<W: fmt::Write>(&self, f: &mut fmt::Formatter<W>) -> fmt::Result {
        f.debug_list().entries(self.as_slice()).finish()
    }
}
