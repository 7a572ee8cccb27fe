//! Nodes, given the trees under their keys, a module for each encoding: its `read` reads the node.

pub(crate) mod call;
pub(crate) mod chunked;
pub(crate) mod constant;
pub(crate) mod dict;
pub(crate) mod extension;
pub(crate) mod filter;
pub(crate) mod interleave;
pub(crate) mod is_valid;
pub(crate) mod masked;
pub(crate) mod null;
pub(crate) mod slice;
pub(crate) mod structs;
