//! Applies to whole columns the functions that choose rows, test for null, and mask.

mod nulls;
mod select;

pub(crate) use nulls::{is_not_null, is_null, mask};
pub(crate) use select::{fill_null, zip};
