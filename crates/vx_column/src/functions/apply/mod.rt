//! Applies functions to whole columns.

mod apply;
mod constant;
mod each;

pub use apply::apply_fn;
