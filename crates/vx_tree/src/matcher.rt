//! Tests on the root of a tree.

ghost use Rattle.std.specs.Prelude.{◌≡◌, Bool, true};
ghost use Rattle.vx_tree.specs.Tree.{Tree, datum, is_canonical, is_columnar, is_function};

use crate::array::{ArrayRef, EncodingVariant};
use crate::arrays::boolean::Bool;
use crate::arrays::constant::Constant;
use crate::arrays::decimal::Decimal;
use crate::arrays::extension::Extension;
use crate::arrays::null::Null;
use crate::arrays::primitive::Primitive;
use crate::arrays::scalar_fn::ScalarFn;
use crate::arrays::structs::Struct;
use crate::arrays::varbinview::VarBinView;

/// Tests on the root of a tree.
pub trait Matcher {
    ghost fits: { Tree → Bool };

    /// Returns whether the tree passes. Takes no memory.
    fn matches(array: &ArrayRef) -> bool
        ensures { result ≡ fits array.now };
}

/// Matches any tree.
#[derive(Clone, Copy, Debug)]
pub struct AnyArray;

impl Matcher for AnyArray {
    ghost fits = { λ _. true };

    fn matches(_array: &ArrayRef) -> bool {
        true
    }
}

/// Matches canonical columns.
#[derive(Clone, Copy, Debug)]
pub struct AnyCanonical;

impl Matcher for AnyCanonical {
    ghost fits = { λ t. is_canonical (datum t) };

    fn matches(array: &ArrayRef) -> bool {
        Null::matches(array)
            || Bool::matches(array)
            || Primitive::matches(array)
            || Decimal::matches(array)
            || VarBinView::matches(array)
            || Struct::matches(array)
            || Extension::matches(array)
    }
}

/// Matches canonical columns and constants.
#[derive(Clone, Copy, Debug)]
pub struct AnyColumnar;

impl Matcher for AnyColumnar {
    ghost fits = { λ t. is_columnar (datum t) };

    fn matches(array: &ArrayRef) -> bool {
        AnyCanonical::matches(array) || Constant::matches(array)
    }
}

/// Matches function nodes.
#[derive(Clone, Copy, Debug)]
pub struct AnyScalarFn;

impl Matcher for AnyScalarFn {
    ghost fits = { λ t. is_function (datum t) };

    fn matches(array: &ArrayRef) -> bool {
        ScalarFn::matches(array)
    }
}

/// A tag matches the nodes of its encoding; `ScalarFn` matches those of every function.
impl<V: EncodingVariant> Matcher for V {
    ghost fits = { λ t. V.is_kind (datum t) };

    fn matches(array: &ArrayRef) -> bool {
        V::project(array.encoding()).is_some()
    }
}
