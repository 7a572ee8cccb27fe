//! The names of slots.

use std::fmt;

/// The name of a slot. A name and a number need no memory for their text.
#[derive(Clone, Copy, Debug, PartialEq, Eq)]
pub enum SlotName<'a> {
    /// A name of its own.
    Named(&'a str),
    /// A name that the slots of a list share, and the slot's number among them, counted from 0.
    Numbered(&'static str, usize),
}

/// Prints the name, with its number behind it.
impl fmt::Display for SlotName<'_> {
    fn fmt<W: fmt::Write>(&self, f: &mut fmt::Formatter<W>) -> fmt::Result {
        match self {
            SlotName::Named(name) => f.write_str(name),
            SlotName::Numbered(name, number) => write!(f, "{name}{number}"),
        }
    }
}
