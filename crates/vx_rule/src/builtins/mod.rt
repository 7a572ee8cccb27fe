//! Rules that are built in, as entries of a session.

mod builtin;
mod dict_fn;
mod struct_cast;

pub use builtin::{BuiltinKind, BuiltinRule, RegisteredBuiltin, builtin_rules};
