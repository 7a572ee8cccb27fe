//! Functions over whole columns.

pub(crate) mod apply;
pub(crate) mod cast;
pub(crate) mod kernel;
pub(crate) mod operator;
pub(crate) mod select;
