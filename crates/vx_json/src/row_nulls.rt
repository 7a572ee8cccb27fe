//! Whether the rows of a list may be null, and which are null.

ghost use Rattle.std.specs.Prelude.{◌≡◌, ◌&&◌, List, [], Bool, OnOk};
ghost use Rattle.serde_json.specs.View.{view};
ghost use Rattle.vx_value.specs.Types.{is_nullable};
ghost use Rattle.vx_value.specs.declared.dtype.Nullability.{Nullability};
ghost use Rattle.vx_value.specs.declared.dtype.Nullability.TheVariants.{NonNullable, Nullable};
ghost use Rattle.vx_json.specs.ReadRows.{told_more};
ghost use Rattle.vx_json.specs.SpelledValues.{is_null};

use serde_json::Value;
use std::alloc::AllocError;
use vx_mask::BitBuilder;

/// Whether the rows of a list may be null, and which of those so far are null.
pub(crate) trait RowNulls {
    // whether rows may be null
    ghost mode: { Nullability };

    // whether each row so far isn't null, if rows may be
    ghost told: { Self → List Bool };

    /// Returns whether `value` is a null row.
    fn is_null_row(value: &Value) -> bool
        ensures { result ≡ (is_nullable mode && is_null (view value.now)) };

    /// Records whether the next row isn't null.
    fn tell(&mut self, there: bool) -> Result<(), AllocError>
        ensures { OnOk result (told self.new ≡ told_more mode (told self.old) there) };
}

/// Rows that can't be null.
#[derive(Clone, Copy)]
pub(crate) struct NoNulls;

impl RowNulls for NoNulls {
    ghost mode = { NonNullable };

    ghost told = { λ n. [] };

    #[inline]
    fn is_null_row(value: &Value) -> bool {
        false
    }

    #[inline]
    fn tell(&mut self, there: bool) -> Result<(), AllocError> {
        Ok(())
    }
}

/// Rows that may be null: a bit for each row, true if the row isn't null.
impl RowNulls for BitBuilder {
    ghost mode = { Nullable };

    ghost told = { λ bits. bits };

    #[inline]
    fn is_null_row(value: &Value) -> bool {
        value.is_null()
    }

    #[inline]
    fn tell(&mut self, there: bool) -> Result<(), AllocError> {
        self.push(there)
    }
}
