//! Whether a value lies between two others.

ghost use Rattle.std.specs.Prelude.{◌≡◌, option_map, IsSome, IfSome, Some, None, ◌∷◌, []};
ghost use Rattle.vx_value.specs.Types.{bool, nullability_of};
ghost use Rattle.vx_value.specs.Nullabilities.{union};
ghost use Rattle.vx_value.specs.View.{type_of};
ghost use Rattle.vx_value.specs.Cell.{value};
ghost use Rattle.vx_fn.specs.Between.{between, between_type, is_below};
ghost use Rattle.vx_fn.specs.Arity.{of_three};
ghost use Rattle.vx_fn.specs.Meanings.{widened};

use crate::argument_names::ArgumentNames;
use crate::order::{compare, is_ordered};
use crate::row_function::RowFunction;
use std::alloc::Global;
use std::cmp::Ordering;
use vx_value::{DType, Id, Nullability, Scalar, VortexResult};

/// Whether a bound must be below the values that it bounds, or may be equal to them.
#[derive(Clone, Copy, Debug, PartialEq, Eq, Hash)]
pub enum StrictComparison {
    /// `<`.
    Strict,
    /// `<=`.
    NonStrict,
}

/// How `Between` compares a value with its bounds.
#[derive(Clone, Copy, Debug, PartialEq, Eq, Hash)]
pub struct BetweenOptions {
    /// Compares the lower bound with the value.
    pub lower_strict: StrictComparison,
    /// Compares the value with the upper bound.
    pub upper_strict: StrictComparison,
}

impl RowFunction for BetweenOptions {
    ghost meaning = { between };

    fn signature(&self) -> (Id, ArgumentNames<'_>) {
        (
            Id::Between,
            ArgumentNames::Fixed(&["array", "lower", "upper"]),
        )
    }

    fn return_dtype(&self, _alloc: Global, arguments: &[DType]) -> VortexResult<Option<DType>> {
        match arguments {
            [array, lower, upper] => Ok(nullability_between(array, lower, upper).map(DType::Bool)),
            _ => Ok(None),
        }
    }

    fn apply(&self, _alloc: Global, arguments: &[Scalar]) -> VortexResult<Scalar> {
        match arguments {
            [array, lower, upper] => Ok(lies_between(*self, array, lower, upper)),
            _ => unreachable!(),
        }
    }
}

/// Returns the nullability of the result, or `None` if the arguments aren't of one type whose values have an order.
fn nullability_between(array: &DType, lower: &DType, upper: &DType) -> Option<Nullability>
    ensures typed { option_map bool result ≡ of_three widened None between_type (type_of array.now ∷ type_of lower.now ∷ type_of upper.now ∷ []) }
    ensures value { IfSome result (λ n. n
        ≡ union (nullability_of (type_of array.now)) (union (nullability_of (type_of lower.now)) (nullability_of (type_of upper.now)))) }
{
    if array.eq_ignore_nullability(lower)
        && array.eq_ignore_nullability(upper)
        && is_ordered(array)
    {
        let bounds = lower.nullability().union(upper.nullability());
        Some(array.nullability().union(bounds))
    } else {
        None
    }
}

/// Returns whether a value lies between two others, null if one of the three is null.
fn lies_between(options: BetweenOptions, array: &Scalar, lower: &Scalar, upper: &Scalar) -> Scalar
    requires { IsSome ((between options).types (array.now.of_type ∷ lower.now.of_type ∷ upper.now.of_type ∷ [])) }
    ensures typed { (between options).types (array.now.of_type ∷ lower.now.of_type ∷ upper.now.of_type ∷ []) ≡ Some result.of_type }
    ensures value { (between options).value (array.now.of_type ∷ lower.now.of_type ∷ upper.now.of_type ∷ []) result.of_type (array.now.value ∷ lower.now.value ∷ upper.now.value ∷ []) ≡ value result.value }
{
    let Some(nullability) = nullability_between(array.dtype(), lower.dtype(), upper.dtype()) else {
        unreachable!();
    };
    match (array.value(), lower.value(), upper.value()) {
        (Some(value), Some(least), Some(greatest)) => Scalar::bool(
            is_below(options.lower_strict, compare(least, value))
                && is_below(options.upper_strict, compare(value, greatest)),
            nullability,
        ),
        _ => Scalar::null(DType::Bool(nullability)),
    }
}

/// Returns whether the first of two values that compare as `ordering` is below the second, or may be equal to it.
fn is_below(comparison: StrictComparison, ordering: Ordering) -> bool
    ensures { result ≡ is_below comparison ordering }
{
    match comparison {
        StrictComparison::Strict => ordering.is_lt(),
        StrictComparison::NonStrict => ordering.is_le(),
    }
}
