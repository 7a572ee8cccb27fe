//! Replaces nulls.

ghost use Rattle.std.specs.Prelude.{◌≡◌, IfOk, IsSome, Some, ◌∷◌, [], option_map};
ghost use Rattle.vx_value.specs.Errors.{OnlyOutOfMemory};
ghost use Rattle.vx_value.specs.View.{type_of};
ghost use Rattle.vx_value.specs.Cell.{value};
ghost use Rattle.vx_fn.specs.FillNull.{fill_null};

use crate::argument_names::ArgumentNames;
use crate::retyped::retyped;
use crate::row_function::RowFunction;
use std::alloc::Global;
use vx_value::{DType, Id, Scalar, VortexResult};

/// `input`, or the argument `fill_value` if it is null. (own)
pub(crate) struct FillNull;

impl RowFunction for FillNull {
    ghost meaning = { λ _. fill_null };

    fn signature(&self) -> (Id, ArgumentNames<'_>) {
        (Id::FillNull, ArgumentNames::Fixed(&["input", "fill_value"]))
    }

    fn return_dtype(&self, _alloc: Global, arguments: &[DType]) -> VortexResult<Option<DType>> {
        match arguments {
            [input, fill_value] if input.eq_ignore_nullability(fill_value) => {
                Ok(Some(fill_value.clone()?))
            }
            _ => Ok(None),
        }
    }

    fn apply(&self, _alloc: Global, arguments: &[Scalar]) -> VortexResult<Scalar> {
        match arguments {
            [input, fill_value] => filled(input, fill_value),
            _ => unreachable!(),
        }
    }
}

/// Returns `input`, or `fill_value` if it is null. Fails only with `OutOfMemory`.
fn filled(input: &Scalar, fill_value: &Scalar) -> VortexResult<Scalar>
    requires { IsSome (fill_null.types (input.now.of_type ∷ fill_value.now.of_type ∷ [])) }
    ensures typed { IfOk result (λ s. fill_null.types (input.now.of_type ∷ fill_value.now.of_type ∷ []) ≡ Some s.of_type) }
    ensures value { IfOk result (λ s. fill_null.value (input.now.of_type ∷ fill_value.now.of_type ∷ []) s.of_type (input.now.value ∷ fill_value.now.value ∷ []) ≡ value s.value) }
    ensures err { OnlyOutOfMemory result }
{
    match input.value() {
        Some(_) => retyped(input, fill_value.dtype().clone()?),
        None => Ok(fill_value.clone()?),
    }
}
