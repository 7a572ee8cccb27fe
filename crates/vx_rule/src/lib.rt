//! Rewrite rules: the table of their rows with its laws, the traits of rules, and the rules of each encoding, for itself and
//! for its parents.
#![tactic(auto)]

mod adaptors;
mod builtins;
mod encodings;
mod entry;
mod handed_in;
mod laws;
mod nodes;
mod push;
mod raw_node;
mod rule;
mod rule_set;
pub mod scalar_fns;
mod slots;
mod spent;
mod table;
mod weight;

pub use adaptors::{
    BetweenReduce, BetweenReduceAdaptor, CastReduce, CastReduceAdaptor, FillNullReduce,
    FillNullReduceAdaptor, FilterReduce, FilterReduceAdaptor, GetItemReduce, GetItemReduceAdaptor,
    MaskReduce, MaskReduceAdaptor, NotReduce, NotReduceAdaptor, SliceReduce, SliceReduceAdaptor,
    TakeReduce, TakeReduceAdaptor,
};
pub use builtins::{BuiltinKind, BuiltinRule, RegisteredBuiltin, builtin_rules};
pub use encodings::CanonicalEncoding;
pub use entry::RuleEntry;
pub use handed_in::DynReduceParentRule;
pub use laws::{push_laws, rule_laws, take_laws};
pub use push::push_slice;
pub use raw_node::RawNode;
pub use rule::{
    ArrayParentReduceRule, ArrayReduceRule, DynArrayParentReduceRule, ParentReduceRuleAdapter,
};
pub use rule_set::{ParentRuleSet, ReduceRuleSet, ReduceVTable, TAKE_RULES};
pub use scalar_fns::{ExactScalarFn, ScalarFnTag};
pub use spent::Spent;
pub use table::{reduce, reduce_parent};
pub use weight::weight_of;
