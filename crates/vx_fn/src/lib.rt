//! Scalar functions: their ids, their types and their values, one row at a time.
#![tactic(auto)]

mod apply;
mod argument_names;
mod function;
mod functions;
mod laws;
mod order;
mod return_type;
mod retyped;
mod row_function;

pub use apply::apply_row;
pub use function::{Arity, Operator, ScalarFnRef};
pub use functions::between::{BetweenOptions, StrictComparison};
pub use functions::pack::PackOptions;
pub use laws::logic_laws;
