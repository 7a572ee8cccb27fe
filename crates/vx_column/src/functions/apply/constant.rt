//! Functions applied to constants.

ghost use Rattle.std.specs.Prelude.{◌≡◌, ◌<◌, map, IfOk, IfErr, IfSome, IfNone, IsSome, Some, MatchOption, true, false};
ghost use Rattle.std.specs.List.{AllZip};
ghost use Rattle.vx_value.specs.Types.{DataType};
ghost use Rattle.vx_value.specs.Supported.{has_columns};
ghost use Rattle.vx_fn.specs.ReturnTypes.{return_type};
ghost use Rattle.vx_tree.specs.Tree.{datum, is_constant};
ghost use Rattle.vx_tree.specs.Cells.{rows, HasNoFault};
ghost use Rattle.vx_tree.specs.Canonicals.{columnar_tree};
ghost use Rattle.vx_column.specs.Applied.{Repeats, gives_constant};
ghost use Rattle.vx_column.specs.Arguments.{types_of_scalars, cells_of_scalars};
ghost use Rattle.vx_column.specs.Computed.{IsResult, IsNoResult};

use crate::rows::constant;
use std::alloc::{AllocError, Global};
use vx_fn::{ScalarFnRef, apply_row};
use vx_tree::{ArrayKind, Columnar};
use vx_value::{Scalar, VortexResult};

/// Returns the scalars of `columns` if all are constants and `len > 0`, else `None`.
pub(crate) fn constants(
    alloc: Global,
    columns: &[Columnar],
    len: usize,
) -> Result<Option<Vec<Scalar>>, AllocError>
    ensures some { IfOk result (λ scalars. IfSome scalars (λ v. 0 < len)) }
    ensures all { IfOk result (λ scalars. IfSome scalars (λ v. AllZip Repeats columns.now v.items)) }
    ensures not_all { IfOk result (λ scalars. IfNone scalars (gives_constant (map columnar_tree columns.now) len ≡ false)) }
{
    if len == 0 {
        return Ok(None);
    }
    let mut scalars = Vec::with_capacity(alloc, columns.len())?;
    for column in columns {
        match constant_of(column)? {
            Some(scalar) => scalars.push(scalar)?,
            None => return Ok(None),
        }
    }
    Ok(Some(scalars))
}

/// Returns the scalar of `column` if it is a constant, else `None`.
fn constant_of(column: &Columnar) -> Result<Option<Scalar>, AllocError>
    ensures { IfOk result (λ scalar. MatchOption scalar (is_constant (datum (columnar_tree column.now)) ≡ false) (Repeats column.now)) }
{
    match column.as_array().kind() {
        ArrayKind::Constant(scalar) => Ok(Some(scalar.clone()?)),
        _ => Ok(None),
    }
}

/// Applies `function` to `scalars` once, and returns a constant of `len` rows, whose type must have columns. `Fault` if there
/// is no value.
pub(crate) fn apply_constants(
    alloc: Global,
    function: &ScalarFnRef,
    scalars: &[Scalar],
    len: usize,
) -> VortexResult<Columnar>
    requires taken { IsSome (return_type function.now (types_of_scalars scalars.now)) }
    requires columns { (ty : DataType) → return_type function.now (types_of_scalars scalars.now) ≡ Some ty → has_columns ty ≡ true }
    requires some { 0 < len }
    ensures ok { IfOk result (λ c. IsResult function.now (types_of_scalars scalars.now) (λ _. cells_of_scalars scalars.now) len (columnar_tree c)) }
    ensures constant { IfOk result (λ c. is_constant (datum (columnar_tree c)) ≡ true) }
    ensures whole { IfOk result (λ c. HasNoFault (rows (columnar_tree c))) }
    ensures err { IfErr result (IsNoResult function.now (types_of_scalars scalars.now) (λ _. cells_of_scalars scalars.now) len) }
{
    let scalar = apply_row(alloc, function, scalars)?;
    constant(alloc, scalar, len)
}
