//! Reads the rows of trees: single rows, the rows that are valid, and whole columns as the arguments of a function. Makes
//! columns of stored values.

mod argument;
mod children;
mod column;
mod nested;
mod probe;
mod reader;
mod valid;

pub use argument::{
    Argument, ArgumentRows, BytesOperand, BytesRows, DecimalOperand, DecimalRows, IntegerOperand,
    IntegerRows, argument_of,
};
pub(crate) use argument::{arguments_of, repeated_rows, unscaled_of};
pub(crate) use column::{
    bool_column, constant, decimal_column, primitive_column, varbinview_column,
};
pub use probe::execute_scalar;
pub(crate) use probe::truths_in;
pub use valid::ValidRows;
