//! Applies operators to whole columns: arithmetic, comparison, logic and bounds.

mod arithmetic;
mod boolean;
mod bounds;
mod checked;
mod checks;
mod comparison;
mod decimals;
mod logic;
mod operators;

pub(crate) use boolean::negate;
pub(crate) use bounds::between;
pub(crate) use operators::operate;
