//! Kernels that are built in, as entries of a session.

mod bool_binary;
mod builtin;
mod dict_over_filter;

pub use builtin::{BuiltinKernel, BuiltinKernelKind, RegisteredBuiltinKernel, builtin_kernels};
