//! Reading of trees: patches. Equality, hashing, traversal and sizes are to come.
#![tactic(auto)]

mod patches;

pub use patches::{Patches, patches_child, patches_child_name, patches_nchildren};
