//! The names of functions' arguments.

ghost use Rattle.std.specs.Prelude.{◌≡◌, length, option_map, slice_get};
ghost use Rattle.vx_fn.specs.ArgumentNames.{names_in};

use vx_value::FieldNames;

/// The names of a function's arguments, in order. (own)
#[derive(Clone, Copy)]
pub(crate) enum ArgumentNames<'a> {
    /// Names that the function always has.
    Fixed(&'static [&'static str]),
    /// Names among the function's options.
    Own(&'a FieldNames),
}

impl<'a> ArgumentNames<'a> {
    /// Returns the number of names.
    pub(crate) fn len(self) -> usize
        ensures { result ≡ length (names_in self.entry) }
    {
        match self {
            ArgumentNames::Fixed(names) => names.len(),
            ArgumentNames::Own(names) => names.len(),
        }
    }

    /// Returns the name at `index`, counted from 0, or `None` if there are fewer.
    pub(crate) fn get(self, index: usize) -> Option<&'a str>
        ensures { option_map (λ s. s.now) result ≡ slice_get (names_in self.entry) index }
    {
        match self {
            ArgumentNames::Fixed(names) => names.get(index).copied(),
            ArgumentNames::Own(names) => names.get(index),
        }
    }
}
