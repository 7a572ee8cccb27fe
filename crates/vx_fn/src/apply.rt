//! Applies functions to a row.

ghost use Rattle.std.specs.Prelude.{◌≡◌, ◌⊎◌, map, IfOk, IfErr, IsSome, Some, true};
ghost use Rattle.vx_value.specs.Types.{DataType};
ghost use Rattle.vx_value.specs.Cell.{value, fault};
ghost use Rattle.vx_fn.specs.ReturnTypes.{return_type};
ghost use Rattle.vx_fn.specs.Apply.{apply};
ghost use Rattle.vx_fn.specs.Functions.{function_id};
ghost use Rattle.vx_fn.specs.Meanings.{clones};

use crate::function::ScalarFnRef;
use crate::functions::by_function;
use crate::row_function::RowFunction;
use std::alloc::Global;
use vx_value::{Scalar, VortexError, VortexResult};

/// Applies `function` to `arguments`, one row of each. The function must accept their types. No text or bytes are copied.
///
/// Returns `Fault` exactly if the row has no value: the result is out of its type's range, a divisor is 0, or a cast has no
/// value. Returns `OutOfMemory` only for a function that clones: `Mask`, `Zip`, `FillNull`, `GetItem`, `Pack`, `PreparedSet`
/// and `Cast`. (own)
pub fn apply_row(
    alloc: Global,
    function: &ScalarFnRef,
    arguments: &[Scalar],
) -> VortexResult<Scalar>
    requires { IsSome (return_type function.now (map (λ s. s.of_type) arguments.now)) }
    ensures typed { IfOk result (λ s. return_type function.now (map (λ s. s.of_type) arguments.now) ≡ Some s.of_type) }
    ensures ok { IfOk result (λ s. apply function.now (map (λ s. s.of_type) arguments.now) s.of_type (map (λ a. value a.value) arguments.now) ≡ value s.value) }
    ensures fault { IfErr result (λ e. (e ≡ VortexError.OutOfMemory) ⊎ ((e ≡ VortexError.Fault) × ((t : DataType)
        → return_type function.now (map (λ s. s.of_type) arguments.now) ≡ Some t
        → apply function.now (map (λ s. s.of_type) arguments.now) t (map (λ a. value a.value) arguments.now) ≡ fault))) }
    ensures memory { IfErr result (λ e. e ≡ VortexError.OutOfMemory → clones (function_id function.now) ≡ true) }
{
    by_function!(function, function => function.apply(alloc, arguments))
}
