//! What all scalar functions have in common.

ghost use Rattle.std.specs.Prelude.{◌≡◌, ◌⊎◌, map, option_map, IfOk, IfErr, IsSome, Some, true};
ghost use Rattle.vx_value.specs.Types.{DataType};
ghost use Rattle.vx_value.specs.Errors.{OnlyOutOfMemory};
ghost use Rattle.vx_value.specs.View.{type_of, cell_of};
ghost use Rattle.vx_value.specs.IsOf.{is_of};
ghost use Rattle.vx_value.specs.Cell.{value, fault};
ghost use Rattle.vx_fn.specs.ArgumentNames.{names_in};
ghost use Rattle.vx_fn.specs.Meanings.{Meaning, clones};
ghost use Rattle.vx_fn.specs.Apply.{on_values};

use crate::argument_names::ArgumentNames;
use std::alloc::Global;
use vx_value::{DType, Id, Scalar, VortexError, VortexResult};

/// A scalar function. Each has a file in `functions`. (own)
pub(crate) trait RowFunction {
    // what the function is
    ghost meaning: { Self → Meaning };

    /// Returns the function's id, and the names of its arguments, in order.
    fn signature(&self) -> (Id, ArgumentNames<'_>)
        ensures id { result.0 ≡ (meaning self.now).id }
        ensures names { names_in result.1 ≡ (meaning self.now).names };

    /// Returns the type of the result, or `None` if the function doesn't accept the arguments. Fails only with
    /// `OutOfMemory`, and only in a function that clones a type.
    fn return_dtype(&self, alloc: Global, arguments: &[DType]) -> VortexResult<Option<DType>>
        ensures ok { IfOk result (λ t. option_map type_of t ≡ (meaning self.now).types (map type_of arguments.now)) }
        ensures err { OnlyOutOfMemory result }
        ensures memory { IfErr result (λ _. clones (meaning self.now).id ≡ true) };

    /// Applies the function to one row of its arguments, whose types it must accept. `Fault` if the row has no value;
    /// `OutOfMemory`.
    fn apply(&self, alloc: Global, arguments: &[Scalar]) -> VortexResult<Scalar>
        requires { IsSome ((meaning self.now).types (map (λ s. s.of_type) arguments.now)) }
        ensures typed { IfOk result (λ s. (meaning self.now).types (map (λ s. s.of_type) arguments.now) ≡ Some s.of_type) }
        ensures ok { IfOk result (λ s. on_values ((meaning self.now).value (map (λ s. s.of_type) arguments.now) s.of_type) (map (λ a. value a.value) arguments.now)
            ≡ value s.value) }
        ensures fault { IfErr result (λ e. (e ≡ VortexError.OutOfMemory) ⊎ ((e ≡ VortexError.Fault) × ((t : DataType)
            → (meaning self.now).types (map (λ s. s.of_type) arguments.now) ≡ Some t
            → on_values ((meaning self.now).value (map (λ s. s.of_type) arguments.now) t) (map (λ a. value a.value) arguments.now) ≡ fault))) }
        ensures memory { IfErr result (λ e. e ≡ VortexError.OutOfMemory → clones (meaning self.now).id ≡ true) };
}
