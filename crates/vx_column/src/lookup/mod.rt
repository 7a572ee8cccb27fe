//! Looks rows up: by codes, and by pairs of indices.

mod each;
mod gather;
mod interleave;
mod numbers;
mod places;
mod take;
mod views;

pub use interleave::interleave_rows;
pub use take::take_rows;
