//! One value if a mask is true, another if it is false or null.

ghost use Rattle.std.specs.Prelude.{◌≡◌, ◌⊎◌, IfOk, IsSome, Some, ◌∷◌, [], option_map};
ghost use Rattle.vx_value.specs.Errors.{OnlyOutOfMemory};
ghost use Rattle.vx_value.specs.View.{type_of};
ghost use Rattle.vx_value.specs.Cell.{value};
ghost use Rattle.vx_fn.specs.Zip.{zip};

use crate::argument_names::ArgumentNames;
use crate::retyped::retyped;
use crate::row_function::RowFunction;
use std::alloc::Global;
use vx_value::{DType, Id, Scalar, VortexResult};

/// `if_true` if the argument `mask` is true, else `if_false`. (own)
pub(crate) struct Zip;

impl RowFunction for Zip {
    ghost meaning = { λ _. zip };

    fn signature(&self) -> (Id, ArgumentNames<'_>) {
        (
            Id::Zip,
            ArgumentNames::Fixed(&["if_true", "if_false", "mask"]),
        )
    }

    fn return_dtype(&self, alloc: Global, arguments: &[DType]) -> VortexResult<Option<DType>> {
        match arguments {
            [if_true, if_false, DType::Bool(_)] if if_true.eq_ignore_nullability(if_false) => {
                Ok(Some(if_true.union_nullability(alloc, if_false.nullability())?))
            }
            _ => Ok(None),
        }
    }

    fn apply(&self, alloc: Global, arguments: &[Scalar]) -> VortexResult<Scalar> {
        match arguments {
            [if_true, if_false, mask] => zipped(alloc, if_true, if_false, mask),
            _ => unreachable!(),
        }
    }
}

/// Returns `if_true` if `choice` is true, else `if_false`. Fails only with `OutOfMemory`.
fn zipped(
    alloc: Global,
    if_true: &Scalar,
    if_false: &Scalar,
    choice: &Scalar,
) -> VortexResult<Scalar>
    requires { IsSome (zip.types (if_true.now.of_type ∷ if_false.now.of_type ∷ choice.now.of_type ∷ [])) }
    ensures typed { IfOk result (λ s. zip.types (if_true.now.of_type ∷ if_false.now.of_type ∷ choice.now.of_type ∷ []) ≡ Some s.of_type) }
    ensures value { IfOk result (λ s. zip.value (if_true.now.of_type ∷ if_false.now.of_type ∷ choice.now.of_type ∷ []) s.of_type (if_true.now.value ∷ if_false.now.value ∷ choice.now.value ∷ []) ≡ value s.value) }
    ensures err { OnlyOutOfMemory result }
{
    let dtype = if_true
        .dtype()
        .union_nullability(alloc, if_false.dtype().nullability())?;
    let chosen = match choice.as_bool() {
        Some(true) => if_true,
        _ => if_false,
    };
    retyped(chosen, dtype)
}
