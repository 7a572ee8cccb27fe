//! The negation of a boolean.

ghost use Rattle.std.specs.Prelude.{◌≡◌, option_map, IsSome, Some, ◌∷◌, []};
ghost use Rattle.vx_value.specs.View.{type_of};
ghost use Rattle.vx_value.specs.Cell.{value};
ghost use Rattle.vx_fn.specs.Negation.{negation};

use crate::argument_names::ArgumentNames;
use crate::row_function::RowFunction;
use std::alloc::Global;
use vx_value::{DType, Id, Scalar, VortexResult};

/// The negation of a boolean, the argument `input`. (own)
pub(crate) struct Not;

impl RowFunction for Not {
    ghost meaning = { λ _. negation };

    fn signature(&self) -> (Id, ArgumentNames<'_>) {
        (Id::Not, ArgumentNames::Fixed(&["input"]))
    }

    fn return_dtype(&self, _alloc: Global, arguments: &[DType]) -> VortexResult<Option<DType>> {
        match arguments {
            [input] => Ok(not_type(input)),
            _ => Ok(None),
        }
    }

    fn apply(&self, _alloc: Global, arguments: &[Scalar]) -> VortexResult<Scalar> {
        match arguments {
            [input] => Ok(negate(input)),
            _ => unreachable!(),
        }
    }
}

/// Returns the type of the negation of a value of type `input`, or `None` if there is none.
fn not_type(input: &DType) -> Option<DType>
    ensures { option_map type_of result ≡ negation.types (type_of input.now ∷ []) }
{
    match input {
        DType::Bool(nullability) => Some(DType::Bool(*nullability)),
        _ => None,
    }
}

/// Negates a boolean.
fn negate(input: &Scalar) -> Scalar
    requires { IsSome (negation.types (input.now.of_type ∷ [])) }
    ensures typed { negation.types (input.now.of_type ∷ []) ≡ Some result.of_type }
    ensures value { negation.value (input.now.of_type ∷ []) result.of_type (input.now.value ∷ []) ≡ value result.value }
{
    match (input.dtype(), input.as_bool()) {
        (DType::Bool(nullability), Some(value)) => Scalar::bool(!value, *nullability),
        (DType::Bool(nullability), None) => Scalar::null(DType::Bool(*nullability)),
        _ => unreachable!(),
    }
}
