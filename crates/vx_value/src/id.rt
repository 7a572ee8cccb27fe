//! The ids of encodings and functions.

ghost use Rattle.std.specs.Prelude.{◌≡◌, MatchOption};
ghost use Rattle.vx_value.specs.Ids.{id_text, IsNoId};

use std::fmt;

/// The id of an encoding or of a function. A function's node has the function's id.
#[derive(Clone, Copy, Debug, PartialEq, Eq, Hash)]
pub enum Id {
    Constant,
    Slice,
    Filter,
    Masked,
    ScalarFnValidity,
    Dict,
    Chunked,
    Interleave,
    Binary,
    Between,
    Not,
    Mask,
    Zip,
    FillNull,
    IsNull,
    IsNotNull,
    GetItem,
    Pack,
    ListContains,
    PreparedSet,
    Cast,
    Null,
    Bool,
    Primitive,
    Decimal,
    VarBinView,
    ListView,
    Map,
    FixedSizeList,
    Struct,
    Union,
    Extension,
    Variant,
}

/// Evaluates `$by` on `$value` and the text of each id: one line an id, in the order of the enum.
macro_rules! by_texts {
    ($by:ident $(, $value:expr)?) => {
        $by!(
            $($value,)?
            Constant = "vortex.constant",
            Slice = "vortex.slice",
            Filter = "vortex.filter",
            Masked = "vortex.masked",
            ScalarFnValidity = "vortex.scalar_fn_validity",
            Dict = "vortex.dict",
            Chunked = "vortex.chunked",
            Interleave = "vortex.interleave",
            Binary = "vortex.binary",
            Between = "vortex.between",
            Not = "vortex.not",
            Mask = "vortex.mask",
            Zip = "vortex.zip",
            FillNull = "vortex.fill_null",
            IsNull = "vortex.is_null",
            IsNotNull = "vortex.is_not_null",
            GetItem = "vortex.get_item",
            Pack = "vortex.pack",
            ListContains = "vortex.list.contains",
            PreparedSet = "vortex.prepared_set",
            Cast = "vortex.cast",
            Null = "vortex.null",
            Bool = "vortex.bool",
            Primitive = "vortex.primitive",
            Decimal = "vortex.decimal",
            VarBinView = "vortex.varbinview",
            ListView = "vortex.listview",
            Map = "vortex.map",
            FixedSizeList = "vortex.fixed_size_list",
            Struct = "vortex.struct",
            Union = "vortex.union",
            Extension = "vortex.ext",
            Variant = "vortex.variant",
        )
    };
}

macro_rules! text_of {
    ($id:expr, $($variant:ident = $text:literal,)*) => {
        match $id {
            $(Id::$variant => $text,)*
        }
    };
}

macro_rules! all_of {
    ($($variant:ident = $text:literal,)*) => {
        &[$(Id::$variant,)*]
    };
}

/// Every id.
const ALL: &[Id] = by_texts!(all_of);

impl Id {
    /// Returns the id as text, for example `vortex.primitive`.
    pub fn as_str(self) -> &'static str
        ensures { result.now ≡ id_text self }
    {
        by_texts!(text_of, self)
    }

    /// Returns the id that `text` spells, or `None` if it spells none.
    pub fn parse(text: &str) -> Option<Id>
        ensures { MatchOption result (IsNoId text.now) (λ id. id_text id ≡ text.now) }
    {
        for id in ALL {
            if id.as_str() == text {
                return Some(*id);
            }
        }
        None
    }
}

impl fmt::Display for Id {
    fn fmt<W: fmt::Write>(&self, f: &mut fmt::Formatter<W>) -> fmt::Result {
        f.write_str(self.as_str())
    }
}
