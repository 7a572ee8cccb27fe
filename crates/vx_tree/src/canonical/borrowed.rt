//! Borrowed columns.

ghost use Rattle.std.specs.Prelude.{◌≡◌, is_some, IfOk, IfSome};
ghost use Rattle.vx_value.specs.Errors.{OnlyOutOfMemory};
ghost use Rattle.vx_tree.specs.Tree.{datum, is_canonical, is_columnar};
ghost use Rattle.vx_tree.specs.Canonicals.{canonical_tree, columnar_tree};
ghost use Rattle.vx_tree.specs.BorrowedColumns.{canonical_view_tree, columnar_view_tree};

use crate::array::{ArrayRef, ArrayView, Encoding};
use crate::arrays::boolean::Bool;
use crate::arrays::constant::Constant;
use crate::arrays::decimal::Decimal;
use crate::arrays::extension::Extension;
use crate::arrays::null::Null;
use crate::arrays::primitive::Primitive;
use crate::arrays::structs::Struct;
use crate::arrays::varbinview::VarBinView;
use crate::canonical::canonical::Canonical;
use crate::canonical::columnar::Columnar;
use vx_value::{VortexError, VortexResult};

/// A borrowed column in the canonical encoding of its type.
#[derive(Clone, Copy, Debug)]
pub enum CanonicalView<'a> {
    Null(ArrayView<'a, Null>),
    Bool(ArrayView<'a, Bool>),
    Primitive(ArrayView<'a, Primitive>),
    Decimal(ArrayView<'a, Decimal>),
    VarBinView(ArrayView<'a, VarBinView>),
    Struct(ArrayView<'a, Struct>),
    Extension(ArrayView<'a, Extension>),
}

impl<'a> CanonicalView<'a> {
    /// Returns the reference of the column. (own)
    pub fn array(&self) -> &'a ArrayRef
        ensures { result.now ≡ canonical_view_tree self.now }
    {
        match self {
            CanonicalView::Null(column) => column.array(),
            CanonicalView::Bool(column) => column.array(),
            CanonicalView::Primitive(column) => column.array(),
            CanonicalView::Decimal(column) => column.array(),
            CanonicalView::VarBinView(column) => column.array(),
            CanonicalView::Struct(column) => column.array(),
            CanonicalView::Extension(column) => column.array(),
        }
    }

    /// Returns an owned reference of the column. Fails only with `OutOfMemory`.
    pub fn to_array_ref(&self) -> VortexResult<ArrayRef>
        ensures ok { IfOk result (λ a. a ≡ canonical_view_tree self.now) }
        ensures err { OnlyOutOfMemory result }
    {
        Ok(self.array().clone()?)
    }
}

impl<'a> From<&'a Canonical> for CanonicalView<'a> {
    ghost from_gives = { λ c v. canonical_view_tree v ≡ canonical_tree c.now };

    fn from(column: &'a Canonical) -> CanonicalView<'a> {
        match column {
            Canonical::Null(column) => CanonicalView::Null(column.as_view()),
            Canonical::Bool(column) => CanonicalView::Bool(column.as_view()),
            Canonical::Primitive(column) => CanonicalView::Primitive(column.as_view()),
            Canonical::Decimal(column) => CanonicalView::Decimal(column.as_view()),
            Canonical::VarBinView(column) => CanonicalView::VarBinView(column.as_view()),
            Canonical::Struct(column) => CanonicalView::Struct(column.as_view()),
            Canonical::Extension(column) => CanonicalView::Extension(column.as_view()),
        }
    }
}

impl<'a> TryFrom<CanonicalView<'a>> for Canonical {
    type Error = VortexError;

    ghost try_from_gives = { λ v r. IfOk r (λ c. canonical_tree c ≡ canonical_view_tree v) × OnlyOutOfMemory r };

    fn try_from(column: CanonicalView<'a>) -> VortexResult<Canonical> {
        match column {
            CanonicalView::Null(column) => Ok(Canonical::Null(column.into_owned()?)),
            CanonicalView::Bool(column) => Ok(Canonical::Bool(column.into_owned()?)),
            CanonicalView::Primitive(column) => Ok(Canonical::Primitive(column.into_owned()?)),
            CanonicalView::Decimal(column) => Ok(Canonical::Decimal(column.into_owned()?)),
            CanonicalView::VarBinView(column) => Ok(Canonical::VarBinView(column.into_owned()?)),
            CanonicalView::Struct(column) => Ok(Canonical::Struct(column.into_owned()?)),
            CanonicalView::Extension(column) => Ok(Canonical::Extension(column.into_owned()?)),
        }
    }
}

/// A borrowed canonical column, or a borrowed constant.
#[derive(Clone, Copy, Debug)]
pub enum ColumnarView<'a> {
    Canonical(CanonicalView<'a>),
    Constant(ArrayView<'a, Constant>),
}

impl<'a> ColumnarView<'a> {
    /// Returns the reference of the column. (own)
    pub fn array(&self) -> &'a ArrayRef
        ensures { result.now ≡ columnar_view_tree self.now }
    {
        match self {
            ColumnarView::Canonical(column) => column.array(),
            ColumnarView::Constant(column) => column.array(),
        }
    }

    /// Returns an owned reference of the column. Fails only with `OutOfMemory`. (own)
    pub fn to_array_ref(&self) -> VortexResult<ArrayRef>
        ensures ok { IfOk result (λ a. a ≡ columnar_view_tree self.now) }
        ensures err { OnlyOutOfMemory result }
    {
        Ok(self.array().clone()?)
    }
}

impl<'a> From<&'a Columnar> for ColumnarView<'a> {
    ghost from_gives = { λ c v. columnar_view_tree v ≡ columnar_tree c.now };

    fn from(column: &'a Columnar) -> ColumnarView<'a> {
        match column {
            Columnar::Canonical(column) => ColumnarView::Canonical(CanonicalView::from(column)),
            Columnar::Constant(column) => ColumnarView::Constant(column.as_view()),
        }
    }
}

impl<'a> TryFrom<ColumnarView<'a>> for Columnar {
    type Error = VortexError;

    ghost try_from_gives = { λ v r. IfOk r (λ c. columnar_tree c ≡ columnar_view_tree v) × OnlyOutOfMemory r };

    fn try_from(column: ColumnarView<'a>) -> VortexResult<Columnar> {
        match column {
            ColumnarView::Canonical(column) => Ok(Columnar::Canonical(Canonical::try_from(
                column,
            )?)),
            ColumnarView::Constant(column) => Ok(Columnar::Constant(column.into_owned()?)),
        }
    }
}

impl ArrayRef {
    /// Returns the tree as a borrowed column, or `None` if it isn't canonical. (own)
    pub fn as_canonical(&self) -> Option<CanonicalView<'_>>
        ensures which { is_some result ≡ is_canonical (datum self.now) }
        ensures of { IfSome result (λ v. canonical_view_tree v ≡ self.now) }
    {
        match self.encoding() {
            Encoding::Null(data) => Some(CanonicalView::Null(ArrayView::new(self, data))),
            Encoding::Bool(data) => Some(CanonicalView::Bool(ArrayView::new(self, data))),
            Encoding::Primitive(data) => Some(CanonicalView::Primitive(ArrayView::new(self, data))),
            Encoding::Decimal(data) => Some(CanonicalView::Decimal(ArrayView::new(self, data))),
            Encoding::VarBinView(data) => Some(CanonicalView::VarBinView(ArrayView::new(
                self, data,
            ))),
            Encoding::Struct(data) => Some(CanonicalView::Struct(ArrayView::new(self, data))),
            Encoding::Extension(data) => Some(CanonicalView::Extension(ArrayView::new(self, data))),
            _ => None,
        }
    }

    /// Returns the tree as a borrowed column, or `None` if it is neither canonical nor a constant. (own)
    pub fn as_columnar(&self) -> Option<ColumnarView<'_>>
        ensures which { is_some result ≡ is_columnar (datum self.now) }
        ensures of { IfSome result (λ v. columnar_view_tree v ≡ self.now) }
    {
        match self.as_canonical() {
            Some(column) => Some(ColumnarView::Canonical(column)),
            None => match self.as_opt::<Constant>() {
                Some(column) => Some(ColumnarView::Constant(column)),
                None => None,
            },
        }
    }
}
