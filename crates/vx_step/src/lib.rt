//! One execution step of a node.
#![tactic(auto)]

mod builders;
mod chunked;
mod dict;
mod filter;
mod function;
mod interleave;
mod kernels;
mod masked;
mod require;
mod slice;
mod steps;
mod validity;
mod whole;

pub use builders::append_to_builder;
pub use kernels::{BuiltinKernel, BuiltinKernelKind, RegisteredBuiltinKernel, builtin_kernels};
pub use steps::{DonePredicate, ExecutionResult, ExecutionStep, SlotTarget, step};
pub use vx_tree::{Bool, Primitive, Suspended};
