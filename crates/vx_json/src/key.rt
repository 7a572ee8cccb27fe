//! The keys that hold trees.

ghost use Rattle.std.specs.Prelude.{◌≡◌};
ghost use Rattle.vx_json.specs.Keys.{key_text};

/// A key that holds a tree, or a list of trees.
#[derive(Clone, Copy)]
pub(crate) enum Key {
    Child,
    Args,
    Validity,
    Codes,
    Values,
    Chunks,
    Arrays,
    Rows,
    Fields,
    Storage,
}

impl Key {
    /// Returns the key as it is spelled.
    pub(crate) fn text(self) -> &'static str
        ensures { result.now ≡ key_text self }
    {
        match self {
            Key::Child => "child",
            Key::Args => "args",
            Key::Validity => "validity",
            Key::Codes => "codes",
            Key::Values => "values",
            Key::Chunks => "chunks",
            Key::Arrays => "arrays",
            Key::Rows => "rows",
            Key::Fields => "fields",
            Key::Storage => "storage",
        }
    }
}
