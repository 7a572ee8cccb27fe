//! The types of functions' results.

ghost use Rattle.std.specs.Prelude.{◌≡◌, ◌⊎◌, map, IfOk, IfErr, Some, None, true};
ghost use Rattle.vx_value.specs.View.{type_of};
ghost use Rattle.vx_fn.specs.ReturnTypes.{return_type};
ghost use Rattle.vx_fn.specs.Functions.{function_id};
ghost use Rattle.vx_fn.specs.Meanings.{clones};

use crate::function::ScalarFnRef;
use crate::functions::by_function;
use crate::row_function::RowFunction;
use std::alloc::Global;
use vx_value::{ArgKind, DType, VortexError, VortexResult};

impl ScalarFnRef {
    /// Returns the type of the result if the arguments have the types `arguments`.
    ///
    /// Types that differ only in nullability count as one type. Unless a function says otherwise, the result is nullable if an
    /// argument is.
    ///
    /// Returns `InvalidArgument` with `NoRow` exactly if the function doesn't accept these arguments. Returns `OutOfMemory`
    /// only for a function that clones a type: `Mask`, `Zip`, `FillNull`, `GetItem`, `Pack`, `PreparedSet` and `Cast`.
    pub fn return_dtype(&self, alloc: Global, arguments: &[DType]) -> VortexResult<DType>
        ensures ok { IfOk result (λ t. return_type self.now (map type_of arguments.now) ≡ Some (type_of t)) }
        ensures refused { IfErr result (λ e. (e ≡ VortexError.OutOfMemory)
            ⊎ ((e ≡ VortexError.InvalidArgument ArgKind.NoRow)
            × (return_type self.now (map type_of arguments.now) ≡ None))) }
        ensures memory { IfErr result (λ e. e ≡ VortexError.OutOfMemory → clones (function_id self.now) ≡ true) }
    {
        let dtype = by_function!(self, function => function.return_dtype(alloc, arguments))?;
        dtype.ok_or(VortexError::InvalidArgument(ArgKind::NoRow))
    }
}
