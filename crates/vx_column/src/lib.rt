//! Whole columns: reads their rows, filters and masks them, applies functions to them, expands constants, and builds columns
//! row by row.
#![tactic(auto)]

mod builder;
mod canonicalize;
mod filter;
mod functions;
mod lookup;
mod mask;
mod rows;
mod validity;

pub use builder::Builder;
pub use canonicalize::constant_canonicalize;
pub use filter::filter_canonical;
pub use functions::apply::apply_fn;
pub use lookup::{interleave_rows, take_rows};
pub use mask::mask_validity_canonical;
pub use rows::{
    Argument, ArgumentRows, BytesOperand, BytesRows, DecimalOperand, DecimalRows, IntegerOperand,
    IntegerRows, ValidRows, argument_of, execute_scalar,
};
pub use validity::validity_canonical;
