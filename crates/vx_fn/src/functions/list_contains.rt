//! Whether a list has an element.

ghost use Rattle.std.specs.Prelude.{◌≡◌, ◌⊎◌, IsSome, Some, ◌∷◌, [], option_map};
ghost use Rattle.vx_value.specs.Types.{bool};
ghost use Rattle.vx_value.specs.View.{type_of, value_of, values_of};
ghost use Rattle.vx_value.specs.Cell.{value, fault};
ghost use Rattle.vx_fn.specs.Arity.{of_two};
ghost use Rattle.vx_fn.specs.Meanings.{null_through};
ghost use Rattle.vx_fn.specs.Logic.{truth};
ghost use Rattle.vx_fn.specs.ListContains.{list_contains, contains, contained};

use crate::argument_names::ArgumentNames;
use crate::row_function::RowFunction;
use std::alloc::Global;
use vx_value::{DType, Id, Nullability, Scalar, ScalarValue, VortexResult};

/// Whether the argument `needle` is an element of the argument `list`. (own)
pub(crate) struct ListContains;

impl RowFunction for ListContains {
    ghost meaning = { λ _. list_contains };

    fn signature(&self) -> (Id, ArgumentNames<'_>) {
        (Id::ListContains, ArgumentNames::Fixed(&["list", "needle"]))
    }

    fn return_dtype(&self, _alloc: Global, arguments: &[DType]) -> VortexResult<Option<DType>> {
        match arguments {
            [list, needle] => Ok(nullability_of(list, needle).map(DType::Bool)),
            _ => Ok(None),
        }
    }

    fn apply(&self, _alloc: Global, arguments: &[Scalar]) -> VortexResult<Scalar> {
        match arguments {
            [list, needle] => Ok(contains(list, needle)),
            _ => unreachable!(),
        }
    }
}

/// Returns the nullability of the result, or `None` if `list` isn't a type of lists of such elements as `needle`.
fn nullability_of(list: &DType, needle: &DType) -> Option<Nullability>
    ensures { option_map bool result ≡ list_contains.types (type_of list.now ∷ type_of needle.now ∷ []) }
{
    match list {
        DType::List(element, nullability) if element.eq_ignore_nullability(needle) => {
            let inner = needle.nullability().union(element.nullability());
            Some(nullability.union(inner))
        }
        _ => None,
    }
}

/// Returns whether `needle` is an element of `list`: null if one of the two is null, or if it isn't an element and one of the
/// elements is null.
fn contains(list: &Scalar, needle: &Scalar) -> Scalar
    requires { IsSome (list_contains.types (list.now.of_type ∷ needle.now.of_type ∷ [])) }
    ensures typed { list_contains.types (list.now.of_type ∷ needle.now.of_type ∷ []) ≡ Some result.of_type }
    ensures value { list_contains.value (list.now.of_type ∷ needle.now.of_type ∷ []) result.of_type
        (list.now.value ∷ needle.now.value ∷ []) ≡ value result.value }
{
    let Some(nullability) = nullability_of(list.dtype(), needle.dtype()) else {
        unreachable!();
    };
    match contained(list, needle) {
        Some(found) => Scalar::bool(found, nullability),
        None => Scalar::null(DType::Bool(nullability)),
    }
}

/// Returns whether `needle` is an element of `list`, or `None` if that is null.
fn contained(list: &Scalar, needle: &Scalar) -> Option<bool>
    requires { IsSome (list_contains.types (list.now.of_type ∷ needle.now.of_type ∷ [])) }
    ensures { of_two null_through fault contains (list.now.value ∷ needle.now.value ∷ []) ≡ value (truth result) }
{
    match (list.value(), needle.value()) {
        (Some(ScalarValue::List(elements)), Some(needle)) => found(elements.as_slice(), needle),
        _ => None,
    }
}

/// Returns whether `needle` is one of `elements`, or `None` if it isn't and one of them is null. `None` is a null element.
fn found(elements: &[Option<ScalarValue>], needle: &ScalarValue) -> Option<bool>
    ensures { result ≡ contained (value_of needle.now) (values_of elements.now) }
{
    let mut has_null = false;
    for element in elements {
        match element {
            Some(element) if element.same_value(needle) => return Some(true),
            Some(_) => {}
            None => has_null = true,
        }
    }
    if has_null { None } else { Some(false) }
}
