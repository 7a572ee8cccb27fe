//! Building columns of bytes row by row.

ghost use Rattle.std.specs.Prelude.{◌≡◌, ◌≤◌, ◌∷◌, [], ◌++◌, IfOk, OnOk, OnErr, length, take, replicate};
ghost use Rattle.vx_value.specs.Errors.{OnlyOutOfMemory};
ghost use Rattle.vx_tree.specs.Views.{packed};

use crate::views::view::View;
use crate::views::views::BinaryViews;
use std::alloc::Global;
use std::marker::Model;
use vx_value::{ByteBuffer, VortexResult};

/// Builds a `BinaryViews` with one data buffer. (own)
#[derive(Debug, Drop)]
pub struct BinaryBuilder {
    views: Vec<View>,
    bytes: Vec<u8>,
}

impl Model for BinaryBuilder {
    ghost use Rattle.std.specs.Prelude.{◌≡◌, List, ℕ, [], ◌∷◌};
    ghost use Rattle.vx_tree.specs.Views.{viewed, rows_of, packed};

    ghost Value = { List (List ℕ) };

    ghost view = { λ b. rows_of (viewed b.views.items (b.bytes.items ∷ [])) };

    ghost invariant = { λ b. viewed b.views.items (b.bytes.items ∷ []) ≡ packed (rows_of (viewed b.views.items (b.bytes.items ∷ []))) };
}

impl BinaryBuilder {
    /// Makes an empty builder with room for the views of `len` rows. Fails only with `OutOfMemory`.
    pub fn with_capacity(alloc: Global, len: usize) -> VortexResult<BinaryBuilder>
        ensures ok { IfOk result (λ b. b ≡ []) }
        ensures err { OnlyOutOfMemory result }
    {
        Ok(BinaryBuilder {
            views: Vec::with_capacity(alloc, len)?,
            bytes: Vec::new(alloc),
        })
    }

    /// Returns the number of rows.
    pub fn len(&self) -> usize
        ensures { result ≡ length self.now }
    {
        self.views.len()
    }

    /// Makes room for `rows` more rows of `bytes` bytes together. Fails only with `OutOfMemory`.
    pub fn reserve(&mut self, rows: usize, bytes: usize) -> VortexResult<()>
        ensures same { self.new ≡ self.old }
        ensures err { OnlyOutOfMemory result }
    {
        self.views.reserve(rows)?;
        self.bytes.reserve(bytes)?;
        Ok(())
    }

    /// Appends a row, copying its bytes. Fails only with `OutOfMemory`; the rows are then unchanged.
    pub fn push(&mut self, bytes: &[u8]) -> VortexResult<()>
        ensures ok { OnOk result (self.new ≡ self.old ++ bytes.now ∷ []) }
        ensures err { OnErr result (self.new ≡ self.old) }
        ensures memory { OnlyOutOfMemory result }
    {
        let view = View {
            buffer: 0,
            start: self.bytes.len(),
            size: bytes.len(),
        };
        self.views.reserve(1)?;
        self.bytes.extend_from_slice(bytes)?;
        self.views.push_reserved(view);
        Ok(())
    }

    /// Appends `count` rows without bytes, in one allocation. Fails only with `OutOfMemory`; the rows are then unchanged.
    pub fn push_empty(&mut self, count: usize) -> VortexResult<()>
        ensures ok { OnOk result (self.new ≡ self.old ++ replicate count []) }
        ensures err { OnErr result (self.new ≡ self.old) }
        ensures memory { OnlyOutOfMemory result }
    {
        let view = View {
            buffer: 0,
            start: self.bytes.len(),
            size: 0,
        };
        self.views.reserve(count)?;
        self.views.resize(self.views.len() + count, view)?;
        Ok(())
    }

    /// Keeps only the first `len` rows, which must exist.
    pub fn truncate(&mut self, len: usize)
        requires { len ≤ length self.old }
        ensures { self.new ≡ take len self.old }
    {
        if len < self.views.len() {
            let start = self.views[len].start;
            self.views.truncate(len);
            self.bytes.truncate(start);
        }
    }

    /// Returns the rows as a column with one data buffer, in which they follow one another, without copying them. Fails only with
    /// `OutOfMemory`.
    pub fn finish(self, alloc: Global) -> VortexResult<BinaryViews>
        ensures ok { IfOk result (λ column. column ≡ packed self) }
        ensures err { OnlyOutOfMemory result }
    {
        let BinaryBuilder { views, bytes } = self;
        let bytes = ByteBuffer::from_vec(alloc, bytes)?;
        Ok(BinaryViews::of_one_buffer(alloc, views, bytes)?)
    }
}
