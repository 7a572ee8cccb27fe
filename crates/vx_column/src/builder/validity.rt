//! Which rows of a growing column aren't null.

ghost use Rattle.std.specs.Prelude.{◌≡◌, ◌+◌, ◌≤◌, ◌<◌, ◌^◌, ◌++◌, [], false, IfOk, OnOk, OnErr, length, replicate, take};
ghost use Rattle.vx_column.specs.ValidRows.{HasValidity};
ghost use Rattle.vx_column.specs.Growing.{padded, told_more, told_rows};

use crate::rows::ValidRows;
use std::alloc::{AllocError, Global};
use std::marker::Model;
use vx_mask::BitBuilder;
use vx_value::Nullability;

/// Builds the validity of a column: a bit for each row up to the last null, false if the row is null. Rows past it take no
/// memory.
#[derive(Debug, Drop)]
pub(super) struct ValidityBuilder {
    bits: BitBuilder,
    len: usize,
}

impl Model for ValidityBuilder {
    ghost use Rattle.std.specs.Prelude.{◌≡◌, List, Bool, length};

    ghost Value = { List Bool };

    ghost view = { λ v. v.bits };

    ghost invariant = { λ v. v.len ≡ length v.bits };
}

impl ValidityBuilder {
    /// Makes the validity of no rows, without allocating.
    pub(super) fn new(alloc: Global) -> ValidityBuilder
        ensures { result ≡ [] }
    {
        ValidityBuilder {
            bits: BitBuilder::new(alloc),
            len: 0,
        }
    }

    /// Returns the number of rows up to the last null.
    pub(super) fn len(&self) -> usize
        ensures { result ≡ length self.now }
    {
        self.len
    }

    /// Appends `count` nulls to `rows` rows. Fails only if there is no memory for their bits; these are then unchanged.
    pub(super) fn push_nulls(&mut self, rows: usize, count: usize) -> Result<(), AllocError>
        requires within { length self.old ≤ rows }
        requires fits { rows + count < 2 ^ 64 }
        ensures ok { OnOk result (self.new ≡ padded rows self.old ++ replicate count false) }
        ensures err { OnErr result (self.new ≡ self.old) }
    {
        self.bits.push_copies(true, rows - self.len)?;
        if let Err(e) = self.bits.push_copies(false, count) {
            self.bits.truncate(self.len);
            return Err(e);
        }
        self.len = rows + count;
        Ok(())
    }

    /// Appends `count` rows, null if they aren't `valid`, to `rows` rows. Takes no memory if all are valid. Fails only if there is
    /// no memory for their bits; these are then unchanged.
    pub(super) fn push_valid(
        &mut self,
        rows: usize,
        valid: &ValidRows,
        count: usize,
    ) -> Result<(), AllocError>
        requires within { length self.old ≤ rows }
        requires fits { rows + count < 2 ^ 64 }
        requires sized { HasValidity valid.now count }
        ensures ok { OnOk result (self.new ≡ told_more rows self.old valid.now) }
        ensures err { OnErr result (self.new ≡ self.old) }
    {
        let ValidRows::Bits(bits) = valid else {
            return Ok(());
        };
        self.bits.push_copies(true, rows - self.len)?;
        if let Err(e) = self.bits.append(bits) {
            self.bits.truncate(self.len);
            return Err(e);
        }
        self.len = rows + count;
        Ok(())
    }

    /// Keeps only the first `len` rows, which must exist.
    pub(super) fn truncate(&mut self, len: usize)
        requires { len ≤ length self.old }
        ensures { self.new ≡ take len self.old }
    {
        self.bits.truncate(len);
        self.len = len;
    }

    /// Returns which of `rows` rows aren't null. Fails only if there is no memory for their bits.
    pub(super) fn finish(
        self,
        alloc: Global,
        rows: usize,
        nullability: Nullability,
    ) -> Result<ValidRows, AllocError>
        requires { length self ≤ rows }
        ensures { IfOk result (λ valid. valid ≡ told_rows nullability rows self) }
    {
        let ValidityBuilder { mut bits, len } = self;
        if len == 0 {
            return Ok(ValidRows::All(nullability));
        }
        bits.push_copies(true, rows - len)?;
        Ok(ValidRows::Bits(bits.finish(alloc)?))
    }
}
