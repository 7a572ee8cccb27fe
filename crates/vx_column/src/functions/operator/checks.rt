//! Checks of rows, whose results are bits.

ghost use Rattle.std.specs.Prelude.{◌≡◌, ◌<◌, ◌&&◌, ℕ, Bool, true, length, IfOk};
ghost use Rattle.vx_mask.specs.Logic.{bit_row};
ghost use Rattle.vx_column.specs.ValidRows.{is_valid, HasValidity};
ghost use Rattle.vx_column.specs.Checks.{checked_rows};

use crate::rows::ValidRows;
use std::alloc::{AllocError, Global};
use vx_mask::{BitBuffer, BitBuilder};

/// A check of rows, such as a comparison of two operands.
pub(crate) trait RowCheck: Drop {
    // row i exists
    ghost has_row: { Self → ℕ → Type 0 };

    // the result at row i
    ghost answer: { Self → ℕ → Bool };

    /// Checks row `index`, which must exist.
    fn check_row(&self, index: usize) -> bool
        requires { has_row self.now index }
        ensures { result ≡ answer self.now index };
}

/// Checks the `valid` rows of `check`, `len` rows; the other bits are `false`, without a check.
pub(crate) fn check_rows<C: RowCheck>(
    alloc: Global,
    check: C,
    valid: &ValidRows,
    len: usize,
) -> Result<BitBuffer, AllocError>
    requires rows { (i : ℕ) → i < len → C.has_row check i }
    requires valid { HasValidity valid.now len }
    ensures { IfOk result (λ b. b ≡ checked_rows (is_valid valid.now) (C.answer check) len) }
{
    match valid {
        ValidRows::All(_) => check_all(alloc, check, len),
        ValidRows::Bits(valid) => check_valid(alloc, check, valid, len),
    }
}

/// Checks each of `len` rows.
#[tactic(auto, using(crate::proofs::ComparisonLemmas::bits_more))]
fn check_all<C: RowCheck>(alloc: Global, check: C, len: usize) -> Result<BitBuffer, AllocError>
    requires { (i : ℕ) → i < len → C.has_row check i }
    ensures { IfOk result (λ b. b ≡ checked_rows (λ i. true) (C.answer check) len) }
{
    let mut bits = BitBuilder::with_capacity(alloc, len)?;
    for index in 0..len {
        bits.push(check.check_row(index))?;
    }
    bits.finish(alloc)
}

/// Checks the rows at the true bits of `valid`, `len` rows; the other bits are `false`.
fn check_valid<C: RowCheck>(
    alloc: Global,
    check: C,
    valid: &BitBuffer,
    len: usize,
) -> Result<BitBuffer, AllocError>
    requires rows { (i : ℕ) → i < len → C.has_row check i }
    requires valid { length valid.now ≡ len }
    ensures { IfOk result (λ b. b ≡ checked_rows (bit_row valid.now) (C.answer check) len) }
{
    let mut bits = BitBuilder::with_capacity(alloc, len)?;
    for index in 0..len {
        let is_valid = valid.value(index);
        bits.push(check_unless_null(&check, index, is_valid))?;
    }
    bits.finish(alloc)
}

/// Checks row `index`, which must exist, or returns `false` if it isn't valid, without calling `check`.
#[inline]
fn check_unless_null<C: RowCheck>(check: &C, index: usize, is_valid: bool) -> bool
    requires { C.has_row check.now index }
    ensures { result ≡ is_valid && C.answer check.now index }
{
    is_valid && check.check_row(index)
}
