//! Executes trees to columns, turn by turn, over an explicit stack of suspended parents.
#![tactic(auto)]

mod context;
mod executable;
mod into_builder;
mod session;
mod turn;

pub use context::{DEFAULT_TURNS, ExecutionCtx, execute_until};
pub use executable::{ArrayExecute, Executable};
pub use into_builder::execute_into_builder;
pub use session::{ArrayKernels, VortexSession};
pub use turn::{Focus, Frame, Turn, take_turn};
