//! The optimizer: applies the table of rewrite rules until no row fits.
#![tactic(auto)]

mod builtins;
mod descend;
mod laws;
mod optimizer;
mod pass;
mod progress;
mod registry;
mod root;
mod select;
mod slots;

pub use builtins::ArrayBuiltins;
pub use laws::{deriving_laws, optimizing_laws, selecting_laws};
pub use optimizer::ArrayOptimizer;
pub use registry::{RegisteredRule, RuleRegistry};
pub use select::ArraySelect;
pub use vx_rule::{BuiltinKind, BuiltinRule, DynReduceParentRule, RuleEntry};
