//! The value if a mask is true, null if it is false.

ghost use Rattle.std.specs.Prelude.{◌≡◌, ◌⊎◌, IfOk, IfErr, IsSome, Some, ◌∷◌, [], option_map};
ghost use Rattle.vx_value.specs.Errors.{OnlyOutOfMemory};
ghost use Rattle.vx_value.specs.View.{type_of};
ghost use Rattle.vx_value.specs.Cell.{value};
ghost use Rattle.vx_fn.specs.Mask.{mask};

use crate::argument_names::ArgumentNames;
use crate::row_function::RowFunction;
use std::alloc::Global;
use vx_value::{DType, Id, Nullability, Scalar, VortexResult};

/// `input` if the argument `mask` is true, else null. (own)
pub(crate) struct Mask;

impl RowFunction for Mask {
    ghost meaning = { λ _. mask };

    fn signature(&self) -> (Id, ArgumentNames<'_>) {
        (Id::Mask, ArgumentNames::Fixed(&["input", "mask"]))
    }

    fn return_dtype(&self, alloc: Global, arguments: &[DType]) -> VortexResult<Option<DType>> {
        match arguments {
            [input, DType::Bool(Nullability::NonNullable)] => Ok(Some(input.as_nullable(alloc)?)),
            _ => Ok(None),
        }
    }

    fn apply(&self, alloc: Global, arguments: &[Scalar]) -> VortexResult<Scalar> {
        match arguments {
            [input, mask] => masked(alloc, input, mask),
            _ => unreachable!(),
        }
    }
}

/// Returns `input` if `choice` is true, else null. Fails only with `OutOfMemory`.
#[tactic(auto, using(crate::proofs::MeaningsLemmas::nullable_set))]
fn masked(alloc: Global, input: &Scalar, choice: &Scalar) -> VortexResult<Scalar>
    requires { IsSome (mask.types (input.now.of_type ∷ choice.now.of_type ∷ [])) }
    ensures typed { IfOk result (λ s. mask.types (input.now.of_type ∷ choice.now.of_type ∷ []) ≡ Some s.of_type) }
    ensures value { IfOk result (λ s. mask.value (input.now.of_type ∷ choice.now.of_type ∷ []) s.of_type (input.now.value ∷ choice.now.value ∷ []) ≡ value s.value) }
    ensures err { OnlyOutOfMemory result }
{
    match choice.as_bool() {
        Some(true) => input.clone()?.into_nullable(alloc),
        _ => Ok(Scalar::null(input.dtype().as_nullable(alloc)?)),
    }
}
