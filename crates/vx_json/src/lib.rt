//! Reads trees from JSON, and prints the text of rows and of columns.
#![tactic(auto)]

mod bytes;
mod column_values;
mod columns;
mod decimals;
mod fields;
mod functions;
mod key;
mod nodes;
mod nulls;
mod numbers;
mod row_nulls;
mod scalars;
mod text;
mod tree;
mod types;
mod values;

pub use text::{column_text, row_text};
pub use tree::{tree_of, tree_of_bytes};
use vx_value::{ArgKind, VortexError};

/// The error for a value that spells no tree.
const BAD_VALUE: VortexError = VortexError::InvalidArgument(ArgKind::BadValue);
