//! Casts, by their target type.

ghost use Rattle.std.specs.Prelude.{◌≡◌, ◌⊎◌, IfOk, IfErr, IsSome, Some};
ghost use Rattle.vx_value.specs.Types.{DataType};
ghost use Rattle.vx_value.specs.View.{type_of};
ghost use Rattle.vx_value.specs.Casts.{cast_to};
ghost use Rattle.vx_value.specs.Cell.{value, fault};
ghost use Rattle.vx_fn.specs.Cast.{conversion, cast_type};

use crate::argument_names::ArgumentNames;
use crate::row_function::RowFunction;
use std::alloc::Global;
use vx_value::{DType, Id, Scalar, VortexError, VortexResult, has_cast};

impl RowFunction for DType {
    ghost meaning = { λ target. conversion (type_of target) };

    fn signature(&self) -> (Id, ArgumentNames<'_>) {
        (Id::Cast, ArgumentNames::Fixed(&["input"]))
    }

    fn return_dtype(&self, _alloc: Global, arguments: &[DType]) -> VortexResult<Option<DType>> {
        match arguments {
            [input] if has_cast(input, self) => Ok(Some(self.clone()?)),
            _ => Ok(None),
        }
    }

    fn apply(&self, alloc: Global, arguments: &[Scalar]) -> VortexResult<Scalar> {
        match arguments {
            [input] => converted(alloc, input, self),
            _ => unreachable!(),
        }
    }
}

/// Casts `input` to `target`, to which there must be a cast. `Fault` if `target` can't hold the value; `OutOfMemory`.
fn converted(alloc: Global, input: &Scalar, target: &DType) -> VortexResult<Scalar>
    requires { IsSome (cast_type (type_of target.now) input.now.of_type) }
    ensures typed { IfOk result (λ s. cast_type (type_of target.now) input.now.of_type ≡ Some s.of_type) }
    ensures ok { IfOk result (λ s. cast_to s.of_type input.now.value ≡ value s.value) }
    ensures fault { IfErr result (λ e. (e ≡ VortexError.OutOfMemory) ⊎ ((e ≡ VortexError.Fault) × ((t : DataType)
        → cast_type (type_of target.now) input.now.of_type ≡ Some t
        → cast_to t input.now.value ≡ fault))) }
{
    input.cast(alloc, target)
}
