//! Columns in the canonical encoding of their type.

ghost use Rattle.std.specs.Prelude.{◌≡◌, ◌==◌, true, is_ok, IfOk, IfErr, option_map};
ghost use Rattle.vx_value.specs.Errors.{OnlyOutOfMemory};
ghost use Rattle.vx_value.specs.View.{type_of};
ghost use Rattle.vx_value.specs.Supported.{has_columns};
ghost use Rattle.vx_tree.specs.Tree.{dtype, len, datum, is_canonical};
ghost use Rattle.vx_tree.specs.Columns.{empty_of};
ghost use Rattle.vx_tree.specs.Canonicals.{canonical_tree, null_column, bool_column, primitive_column, decimal_column, varbinview_column, struct_column, extension_column};

use crate::array::{Array, ArrayRef, Encoding, IntoArray};
use crate::arrays::boolean::BoolArray;
use crate::arrays::decimal::DecimalArray;
use crate::arrays::extension::ExtensionArray;
use crate::arrays::null::NullArray;
use crate::arrays::primitive::PrimitiveArray;
use crate::arrays::structs::StructArray;
use crate::arrays::varbinview::VarBinViewArray;
use crate::canonical::empty::empty_column;
use std::alloc::Global;
use vx_value::{DType, VortexResult};

/// Evaluates to `Some(column)`, the column of a borrowed `Canonical` of this variant, or to `None` if it is another variant.
macro_rules! variant {
    ($canonical:expr, $variant:ident) => {
        match $canonical {
            Canonical::$variant(column) => Some(column),
            _ => None,
        }
    };
}

/// Evaluates to `Some(column)`, the column of an owned `Canonical` of this variant, or to `None` if it is another variant,
/// which is dropped whole.
macro_rules! into_variant {
    ($canonical:expr, $variant:ident) => {
        match $canonical {
            Canonical::$variant(column) => Some(column),
            other => {
                drop(other);
                None
            }
        }
    };
}

/// A column in the canonical encoding of its type.
#[derive(Clone, Debug, Drop)]
pub enum Canonical {
    Null(NullArray),
    Bool(BoolArray),
    Primitive(PrimitiveArray),
    Decimal(DecimalArray),
    VarBinView(VarBinViewArray),
    Struct(StructArray),
    Extension(ExtensionArray),
}

impl Canonical {
    /// Makes the column of type `dtype`, which must be one with columns, without rows. Fails only with `OutOfMemory`.
    pub fn empty(alloc: Global, dtype: &DType) -> VortexResult<Canonical>
        requires { has_columns (type_of dtype.now) ≡ true }
        ensures ok { IfOk result (λ c. canonical_tree c ≡ empty_of (type_of dtype.now)) }
        ensures err { OnlyOutOfMemory result }
    {
        empty_column(alloc, dtype)
    }

    /// Returns `array` as a column. Hands it back if it isn't canonical. (own)
    pub fn try_from_array_ref(array: ArrayRef) -> Result<Canonical, ArrayRef>
        ensures which { is_ok result ≡ is_canonical (datum array) }
        ensures ok { IfOk result (λ c. canonical_tree c ≡ array) }
        ensures err { IfErr result (λ a. a ≡ array) }
    {
        match array.encoding() {
            Encoding::Null(_) => Ok(Canonical::Null(Array::try_from_array_ref(array)?)),
            Encoding::Bool(_) => Ok(Canonical::Bool(Array::try_from_array_ref(array)?)),
            Encoding::Primitive(_) => Ok(Canonical::Primitive(Array::try_from_array_ref(array)?)),
            Encoding::Decimal(_) => Ok(Canonical::Decimal(Array::try_from_array_ref(array)?)),
            Encoding::VarBinView(_) => Ok(Canonical::VarBinView(Array::try_from_array_ref(array)?)),
            Encoding::Struct(_) => Ok(Canonical::Struct(Array::try_from_array_ref(array)?)),
            Encoding::Extension(_) => Ok(Canonical::Extension(Array::try_from_array_ref(array)?)),
            _ => Err(array),
        }
    }

    /// Returns the reference of the column. (own)
    #[tactic(auto, using(std::proofs::lemmas::Bool::or_left, std::proofs::lemmas::Bool::or_right))]
    pub fn as_array(&self) -> &ArrayRef
        ensures of { result.now ≡ canonical_tree self.now }
        ensures canonical { is_canonical (datum (canonical_tree self.now)) ≡ true }
    {
        match self {
            Canonical::Null(column) => column.as_array(),
            Canonical::Bool(column) => column.as_array(),
            Canonical::Primitive(column) => column.as_array(),
            Canonical::Decimal(column) => column.as_array(),
            Canonical::VarBinView(column) => column.as_array(),
            Canonical::Struct(column) => column.as_array(),
            Canonical::Extension(column) => column.as_array(),
        }
    }

    /// Returns the number of rows.
    pub fn len(&self) -> usize
        ensures { result ≡ len (canonical_tree self.now) }
    {
        self.as_array().len()
    }

    /// Returns whether there are no rows.
    pub fn is_empty(&self) -> bool
        ensures { result ≡ (len (canonical_tree self.now) == 0) }
    {
        self.as_array().is_empty()
    }

    /// Returns the type of the rows.
    pub fn dtype(&self) -> &DType
        ensures dtype { type_of result.now ≡ dtype (canonical_tree self.now) }
        ensures columns { has_columns (dtype (canonical_tree self.now)) ≡ true }
    {
        self.as_array().dtype()
    }

    /// Returns the column if it is a column of nulls, else `None`.
    pub fn as_null(&self) -> Option<&NullArray>
        ensures { option_map (λ c. c.now) result ≡ null_column self.now }
    {
        variant!(self, Null)
    }

    /// Returns the column if it is a boolean column, else `None`.
    pub fn as_bool(&self) -> Option<&BoolArray>
        ensures { option_map (λ c. c.now) result ≡ bool_column self.now }
    {
        variant!(self, Bool)
    }

    /// Returns the column if it is an integer column, else `None`.
    pub fn as_primitive(&self) -> Option<&PrimitiveArray>
        ensures { option_map (λ c. c.now) result ≡ primitive_column self.now }
    {
        variant!(self, Primitive)
    }

    /// Returns the column if it is a column of decimals, else `None`.
    pub fn as_decimal(&self) -> Option<&DecimalArray>
        ensures { option_map (λ c. c.now) result ≡ decimal_column self.now }
    {
        variant!(self, Decimal)
    }

    /// Returns the column if it is a column of text or bytes, else `None`.
    pub fn as_varbinview(&self) -> Option<&VarBinViewArray>
        ensures { option_map (λ c. c.now) result ≡ varbinview_column self.now }
    {
        variant!(self, VarBinView)
    }

    /// Returns the column if it is a column of structs, else `None`.
    pub fn as_struct(&self) -> Option<&StructArray>
        ensures { option_map (λ c. c.now) result ≡ struct_column self.now }
    {
        variant!(self, Struct)
    }

    /// Returns the column if it is a column of an extension type, else `None`.
    pub fn as_extension(&self) -> Option<&ExtensionArray>
        ensures { option_map (λ c. c.now) result ≡ extension_column self.now }
    {
        variant!(self, Extension)
    }

    /// Returns the column by value if it is a column of nulls, else `None`.
    pub fn into_null(self) -> Option<NullArray>
        ensures { result ≡ null_column self }
    {
        into_variant!(self, Null)
    }

    /// Returns the column by value if it is a boolean column, else `None`.
    pub fn into_bool(self) -> Option<BoolArray>
        ensures { result ≡ bool_column self }
    {
        into_variant!(self, Bool)
    }

    /// Returns the column by value if it is an integer column, else `None`.
    pub fn into_primitive(self) -> Option<PrimitiveArray>
        ensures { result ≡ primitive_column self }
    {
        into_variant!(self, Primitive)
    }

    /// Returns the column by value if it is a column of decimals, else `None`.
    pub fn into_decimal(self) -> Option<DecimalArray>
        ensures { result ≡ decimal_column self }
    {
        into_variant!(self, Decimal)
    }

    /// Returns the column by value if it is a column of text or bytes, else `None`.
    pub fn into_varbinview(self) -> Option<VarBinViewArray>
        ensures { result ≡ varbinview_column self }
    {
        into_variant!(self, VarBinView)
    }

    /// Returns the column by value if it is a column of structs, else `None`.
    pub fn into_struct(self) -> Option<StructArray>
        ensures { result ≡ struct_column self }
    {
        into_variant!(self, Struct)
    }

    /// Returns the column by value if it is a column of an extension type, else `None`.
    pub fn into_extension(self) -> Option<ExtensionArray>
        ensures { result ≡ extension_column self }
    {
        into_variant!(self, Extension)
    }
}

impl IntoArray for Canonical {
    ghost tree_of = { canonical_tree };

    fn into_array(self) -> ArrayRef {
        match self {
            Canonical::Null(column) => column.into_array(),
            Canonical::Bool(column) => column.into_array(),
            Canonical::Primitive(column) => column.into_array(),
            Canonical::Decimal(column) => column.into_array(),
            Canonical::VarBinView(column) => column.into_array(),
            Canonical::Struct(column) => column.into_array(),
            Canonical::Extension(column) => column.into_array(),
        }
    }
}

impl From<Canonical> for ArrayRef {
    ghost from_gives = { λ c a. a ≡ canonical_tree c };

    fn from(column: Canonical) -> ArrayRef {
        column.into_array()
    }
}
