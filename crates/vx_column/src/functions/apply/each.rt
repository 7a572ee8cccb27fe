//! Functions applied row by row.

ghost use Rattle.std.specs.Prelude.{◌≡◌, ◌<◌, ℕ, map, true, IfOk, IfErr, IsSome, Some};
ghost use Rattle.vx_value.specs.Errors.{OnlyOutOfMemory};
ghost use Rattle.vx_value.specs.Types.{DataType};
ghost use Rattle.vx_value.specs.Supported.{has_columns};
ghost use Rattle.vx_value.specs.View.{type_of};
ghost use Rattle.vx_fn.specs.ReturnTypes.{return_type};
ghost use Rattle.vx_tree.specs.Tree.{dtype as dtype_of};
ghost use Rattle.vx_tree.specs.Canonicals.{columnar_tree, canonical_tree};
ghost use Rattle.vx_column.specs.Applied.{IsCall, IsAppliedRow, IsUnappliedRow, IsAppliedEach, IsUnapplied};

use crate::builder::Builder;
use crate::rows::execute_scalar;
use std::alloc::{AllocError, Global};
use vx_fn::{ScalarFnRef, apply_row};
use vx_tree::{Canonical, Columnar};
use vx_value::{DType, Scalar, VortexResult};

/// Builds the column of `function` applied to `arguments`, `len` rows each, one row at a time. Its type is `dtype`, which must
/// have columns. `Fault` if a row has no value.
pub(crate) fn apply_each(
    alloc: Global,
    dtype: DType,
    function: &ScalarFnRef,
    arguments: &[Columnar],
    len: usize,
) -> VortexResult<Canonical>
    requires call { IsCall function.now (map columnar_tree arguments.now) len }
    requires typed { return_type function.now (map dtype_of (map columnar_tree arguments.now)) ≡ Some (type_of dtype) }
    requires columns { has_columns (type_of dtype) ≡ true }
    ensures ok { IfOk result (λ c. IsAppliedEach function.now (map columnar_tree arguments.now) len (canonical_tree c)) }
    ensures err { IfErr result (IsUnapplied function.now (map columnar_tree arguments.now) len) }
{
    let mut column = Builder::with_capacity(alloc, dtype, len)?;
    for index in 0..len {
        let scalar = apply_at(alloc, function, arguments, index)?;
        column.append_scalar(&scalar)?;
    }
    let _dtype = column.dtype();
    column.finish(alloc)
}

/// Returns the type of `function` applied to `arguments`, whose types it must accept. Fails only with `OutOfMemory`.
pub(crate) fn result_dtype(
    alloc: Global,
    function: &ScalarFnRef,
    arguments: &[Columnar],
) -> VortexResult<DType>
    requires { IsSome (return_type function.now (map dtype_of (map columnar_tree arguments.now))) }
    ensures ok { IfOk result (λ t. return_type function.now (map dtype_of (map columnar_tree arguments.now)) ≡ Some (type_of t)) }
    ensures err { OnlyOutOfMemory result }
{
    let types = types_of(alloc, arguments)?;
    function.return_dtype(alloc, types.as_slice())
}

/// Returns the types of `columns`.
fn types_of(alloc: Global, columns: &[Columnar]) -> Result<Vec<DType>, AllocError>
    ensures { IfOk result (λ types. map type_of types.items ≡ map dtype_of (map columnar_tree columns.now)) }
{
    let mut types = Vec::with_capacity(alloc, columns.len())?;
    for column in columns {
        types.push(column.dtype().clone()?)?;
    }
    Ok(types)
}

/// Applies `function` to row `index` of `arguments`, which must exist. `Fault` if it has no value.
fn apply_at(
    alloc: Global,
    function: &ScalarFnRef,
    arguments: &[Columnar],
    index: usize,
) -> VortexResult<Scalar>
    requires { (n : ℕ) × (index < n) × IsCall function.now (map columnar_tree arguments.now) n }
    ensures ok { IfOk result (IsAppliedRow function.now (map columnar_tree arguments.now) index) }
    ensures err { IfErr result (IsUnappliedRow function.now (map columnar_tree arguments.now) index) }
{
    let mut scalars = Vec::with_capacity(alloc, arguments.len())?;
    for column in arguments {
        match execute_scalar(alloc, column.as_array(), index) {
            Ok(scalar) => scalars.push(scalar)?,
            Err(e) => return Err(e),
        }
    }
    apply_row(alloc, function, scalars.as_slice())
}
