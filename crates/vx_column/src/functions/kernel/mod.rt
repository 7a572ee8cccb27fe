//! What the functions of columns share: the operands of a kernel, columns that are calculated row by row, columns of stored
//! rows, and columns of valid rows.

mod calculation;
mod operand;
mod stored;
mod valid;

pub(crate) use calculation::{
    Calculation, DecimalCalculation, IntegerCalculation, calculate_rows, calculated_column,
    calculated_decimals,
};
pub(crate) use operand::{Operand, decimal_operand_of, operand_of};
pub(crate) use stored::{bit_rows, byte_rows, decimal_rows, integer_rows, stored_column};
pub(crate) use valid::{keep_valid, valid_bools, valid_bytes, valid_decimals, valid_integers};
