//! The text of a row, and of a column: a line for its type, a line for its encoding, and a line for each row.

mod column;
mod lines;
mod printed;
mod rows;

pub use column::column_text;
pub use rows::row_text;
