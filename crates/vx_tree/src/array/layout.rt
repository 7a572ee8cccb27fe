//! Layouts of nested columns.

/// How a column of a nested type is laid out: its slots hold the columns of the parts, and each row is made of their rows. (own)
#[derive(Clone, Copy, Debug, PartialEq, Eq)]
pub enum Layout {
    /// A slot for each field, in order, and one for the validity.
    Struct,
    /// One slot, for the storage.
    Extension,
}
