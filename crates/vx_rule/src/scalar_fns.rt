//! Tags of functions, and the matcher of the nodes that apply one of them.

ghost use Rattle.std.specs.Prelude.{◌≡◌, Bool};
ghost use Rattle.vx_fn.specs.declared.function.ScalarFnRef.{ScalarFnRef as Function};
ghost use Rattle.vx_tree.specs.Tree.{datum, lets_below};
ghost use Rattle.vx_rule.specs.Tags.{is_get_item, is_mask, is_cast, is_not, is_between, is_fill_null, applies, is_open};

use std::marker::PhantomData;
use vx_fn::ScalarFnRef;
use vx_tree::{ArrayKind, ArrayRef, Encoding, Matcher};

/// Tags of functions: types without values. (own)
pub trait ScalarFnTag {
    ghost is_fn: { Function → Bool };

    /// Returns whether the tag names `scalar_fn`. Takes no memory.
    fn names(scalar_fn: &ScalarFnRef) -> bool
        ensures { result ≡ is_fn scalar_fn.now };
}

/// Matches the nodes of the function that `F` names.
#[derive_where(Debug, Default)]
pub struct ExactScalarFn<F> {
    #[derive_where(skip(Debug))]
    tag: PhantomData<F>,
}

impl<F: ScalarFnTag> Matcher for ExactScalarFn<F> {
    ghost fits = { λ t. applies F.is_fn (datum t) };

    fn matches(array: &ArrayRef) -> bool {
        match array.encoding() {
            Encoding::ScalarFn(data) => F::names(&data.scalar_fn),
            _ => false,
        }
    }
}

/// The tag of `mask`.
pub enum Mask {}

impl ScalarFnTag for Mask {
    ghost is_fn = { is_mask };

    fn names(scalar_fn: &ScalarFnRef) -> bool {
        matches!(scalar_fn, ScalarFnRef::Mask)
    }
}

/// The tag of casts.
pub enum Cast {}

impl ScalarFnTag for Cast {
    ghost is_fn = { is_cast };

    fn names(scalar_fn: &ScalarFnRef) -> bool {
        matches!(scalar_fn, ScalarFnRef::Cast(_))
    }
}

/// The tag of `not`.
pub enum Not {}

impl ScalarFnTag for Not {
    ghost is_fn = { is_not };

    fn names(scalar_fn: &ScalarFnRef) -> bool {
        matches!(scalar_fn, ScalarFnRef::Not)
    }
}

/// The tag of `between`.
pub enum Between {}

impl ScalarFnTag for Between {
    ghost is_fn = { is_between };

    fn names(scalar_fn: &ScalarFnRef) -> bool {
        matches!(scalar_fn, ScalarFnRef::Between(_))
    }
}

/// The tag of `fill_null`.
pub enum FillNull {}

impl ScalarFnTag for FillNull {
    ghost is_fn = { is_fill_null };

    fn names(scalar_fn: &ScalarFnRef) -> bool {
        matches!(scalar_fn, ScalarFnRef::FillNull)
    }
}

/// The tag of `get_item`. (own)
pub enum GetItem {}

impl ScalarFnTag for GetItem {
    ghost is_fn = { is_get_item };

    fn names(scalar_fn: &ScalarFnRef) -> bool {
        matches!(scalar_fn, ScalarFnRef::GetItem(_))
    }
}

/// Returns whether slices and filters pass below `scalar_fn`: below every function but `get_item`, which passes below them.
pub(crate) fn lets_below(scalar_fn: &ScalarFnRef) -> bool
    ensures { result ≡ lets_below scalar_fn.now }
{
    !matches!(scalar_fn, ScalarFnRef::GetItem(_))
}

/// Returns whether what passes below functions passes through `array`, as far as the function that it may apply is concerned.
pub(crate) fn is_open(array: &ArrayRef) -> bool
    ensures { result ≡ is_open (datum array.now) }
{
    match array.kind() {
        ArrayKind::ScalarFn(scalar_fn, _) => lets_below(scalar_fn),
        _ => true,
    }
}
