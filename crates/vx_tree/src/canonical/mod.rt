//! Columns in the canonical encoding of their type, and slices of them that share their storage.

mod borrowed;
mod canonical;
mod columnar;
mod composed;
mod empty;
mod flat;
mod slicing;
mod values;

pub use borrowed::{CanonicalView, ColumnarView};
pub use canonical::Canonical;
pub use columnar::Columnar;
pub use slicing::slice_canonical;
