//! Columns of bytes in shared storage.

ghost use Rattle.std.specs.Prelude.{◌≡◌, ◌<◌, ◌≤◌, ◌↔◌, ◌∷◌, [], IsTrue, IfOk, SomeIff, Some, length, slice_get};
ghost use Rattle.std.specs.Option.{option_copied};
ghost use Rattle.vx_value.specs.Errors.{OnlyOutOfMemory};
ghost use Rattle.vx_mask.specs.Masks.{bits_in};
ghost use Rattle.std.specs.List.{AllPass};
ghost use Rattle.std.specs.Str.{is_utf8};
ghost use Rattle.vx_tree.specs.Views.{AllLieIn, rows_of, viewed, viewed_range, viewed_choice, repeated};

use crate::views::view::{View, all_lie_in};
use std::alloc::{AllocError, Global};
use std::fmt;
use std::marker::Model;
use std::ops::Range;
use vx_mask::{Buffer, Mask};
use vx_value::{ByteBuffer, VortexResult, is_text};

/// Rows of bytes, as in the original's `VarBinViewArray`. Each row is a view into one of the data buffers, which clones,
/// slices and filtered columns share.
#[derive(Drop)]
pub struct BinaryViews {
    views: Buffer<View>,
    buffers: Buffer<ByteBuffer>,
}

impl Model for BinaryViews {
    ghost use Rattle.vx_tree.specs.Views.{ViewedRows, coded_viewed, viewed, AllLieIn};

    ghost Value = { ViewedRows };

    ghost coded = { coded_viewed };

    ghost view = { λ b. viewed b.views b.buffers };

    ghost invariant = { λ b. AllLieIn b.buffers b.views };
}

impl BinaryViews {
    /// Makes a column of `views` into `buffers`, or returns `None` if a view doesn't lie in its buffer. Fails only with
    /// `OutOfMemory`.
    pub fn try_new(
        alloc: Global,
        views: Buffer<View>,
        buffers: Vec<ByteBuffer>,
    ) -> VortexResult<Option<BinaryViews>>
        ensures ok { IfOk result (λ made. SomeIff made (AllLieIn buffers.items views) (viewed views buffers.items)) }
        ensures err { OnlyOutOfMemory result }
    {
        if !all_lie_in(views.as_slice(), buffers.as_slice()) {
            return Ok(None);
        }
        let buffers = Buffer::from_vec(alloc, buffers)?;
        Ok(Some(BinaryViews { views, buffers }))
    }

    /// Makes a column of `len` rows, each `bytes`, which aren't copied: equal views of one buffer. Fails only with
    /// `OutOfMemory`. (own)
    #[tactic(auto, using(crate::proofs::ViewsLemmas::lie_in_equal))]
    pub fn repeat(alloc: Global, bytes: ByteBuffer, len: usize) -> VortexResult<BinaryViews>
        ensures ok { IfOk result (λ column. column ≡ repeated len bytes) }
        ensures err { OnlyOutOfMemory result }
    {
        let view = View {
            buffer: 0,
            start: 0,
            size: bytes.len(),
        };
        let views = vec![in alloc; view; len]?;
        Ok(BinaryViews::of_one_buffer(alloc, views, bytes)?)
    }

    /// Makes a column of `views` into the one data buffer `bytes`. Fails only if there is no memory for the list of one
    /// buffer or the reference counts.
    pub(crate) fn of_one_buffer(
        alloc: Global,
        views: Vec<View>,
        bytes: ByteBuffer,
    ) -> Result<BinaryViews, AllocError>
        requires { AllLieIn (bytes ∷ []) views.items }
        ensures { IfOk result (λ column. column ≡ viewed views.items (bytes ∷ [])) }
    {
        let buffers = vec![in alloc; bytes]?;
        Ok(BinaryViews {
            views: Buffer::from_vec(alloc, views)?,
            buffers: Buffer::from_vec(alloc, buffers)?,
        })
    }

    /// Returns the number of rows.
    pub fn len(&self) -> usize
        ensures { result ≡ length self.now.views }
    {
        self.views.len()
    }

    /// Returns whether there are no rows.
    pub fn is_empty(&self) -> bool
        ensures { IsTrue result ↔ (length self.now.views ≡ 0) }
    {
        self.views.is_empty()
    }

    /// Returns the bytes of row `index`.
    pub fn value(&self, index: usize) -> &[u8]
        requires { index < length self.now.views }
        ensures { slice_get (rows_of self.now) index ≡ Some result.now }
    {
        let view = self.views.as_slice()[index];
        let bytes = self.buffers.as_slice()[view.buffer].as_slice();
        &bytes[view.start..][..view.size]
    }

    /// Returns the bytes of row `index`, or `None` past the last row. (own)
    pub fn get(&self, index: usize) -> Option<&[u8]>
        ensures { option_copied result ≡ slice_get (rows_of self.now) index }
    {
        if index < self.len() {
            Some(self.value(index))
        } else {
            None
        }
    }

    /// Returns the views of the rows, and the data buffers that they are views into. (own)
    pub fn parts(&self) -> (&[View], &[ByteBuffer])
        ensures parts { self.now ≡ viewed result.0.now result.1.now }
        ensures within { AllLieIn result.1.now result.0.now }
    {
        (self.views.as_slice(), self.buffers.as_slice())
    }

    /// States what holds of every column: each view lies in its buffer.
    pub(crate) fn lie_in_buffers(&self)
        ensures { AllLieIn self.now.buffers self.now.views }
    {
        let _views = &self.views;
    }

    /// Returns whether the bytes of each row are UTF-8. (own)
    pub fn is_utf8(&self) -> bool
        ensures { IsTrue result ↔ AllPass is_utf8 (rows_of self.now) }
    {
        for index in 0..self.len() {
            if !is_text(self.value(index)) {
                return false;
            }
        }
        true
    }

    /// Makes a column of `views` into the data buffers of these rows, which it shares. Fails only with `OutOfMemory`. (own)
    pub fn with_views(&self, alloc: Global, views: Vec<View>) -> VortexResult<BinaryViews>
        requires { AllLieIn self.now.buffers views.items }
        ensures ok { IfOk result (λ column. column ≡ viewed views.items self.now.buffers) }
        ensures err { OnlyOutOfMemory result }
    {
        let buffers = self.buffers.clone()?;
        let views = Buffer::from_vec(alloc, views)?;
        Ok(BinaryViews { views, buffers })
    }

    /// Returns the rows in `range`, which share the views and the data. Fails only with `OutOfMemory`.
    #[tactic(auto, using(crate::proofs::ViewsLemmas::lie_in_part))]
    pub fn slice(&self, range: Range<usize>) -> VortexResult<BinaryViews>
        requires order { range.start ≤ range.end }
        requires bounds { range.end ≤ length self.now.views }
        ensures ok { IfOk result (λ column. column ≡ viewed_range range.start range.end self.now) }
        ensures err { OnlyOutOfMemory result }
    {
        Ok(BinaryViews {
            views: self.views.slice(range)?,
            buffers: self.buffers.clone()?,
        })
    }

    /// Returns the rows at the true bits of `mask`, in order. They share the data. Fails only with
    /// `OutOfMemory`.
    #[tactic(auto, using(crate::proofs::ViewsLemmas::lie_in_chosen))]
    pub fn filter(&self, alloc: Global, mask: &Mask) -> VortexResult<BinaryViews>
        requires { length (bits_in mask.now) ≡ length self.now.views }
        ensures ok { IfOk result (λ column. column ≡ viewed_choice (bits_in mask.now) self.now) }
        ensures err { OnlyOutOfMemory result }
    {
        let views = self.views.filter(alloc, mask)?;
        let buffers = self.buffers.clone()?;
        Ok(BinaryViews { views, buffers })
    }
}

/// Shares the views and the data. Fails only if they can't be shared once more.
impl Clone for BinaryViews {
    ghost is_clone = { λ a b. b ≡ a };

    fn clone(&self) -> Result<BinaryViews, AllocError> {
        Ok(BinaryViews {
            views: self.views.clone()?,
            buffers: self.buffers.clone()?,
        })
    }
}

/// Prints the rows as a list of byte slices.
impl fmt::Debug for BinaryViews {
    fn fmt<W: fmt::Write>(&self, f: &mut fmt::Formatter<W>) -> fmt::Result {
        let mut list = f.debug_list();
        for index in 0..self.len() {
            list.entry(&self.value(index));
        }
        list.finish()
    }
}
