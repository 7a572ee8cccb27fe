//! Functions applied to whole columns.

ghost use Rattle.std.specs.Prelude.{◌≡◌, map, false, true, IfOk, IfErr, Some};
ghost use Rattle.vx_value.specs.Types.{DataType};
ghost use Rattle.vx_value.specs.Storage.{is_nested};
ghost use Rattle.vx_value.specs.Supported.{has_columns};
ghost use Rattle.vx_fn.specs.ReturnTypes.{return_type};
ghost use Rattle.vx_tree.specs.Tree.{dtype};
ghost use Rattle.vx_tree.specs.Canonicals.{columnar_tree, canonical_tree};
ghost use Rattle.vx_column.specs.Applied.{IsCall, IsApplied, IsAppliedEach, IsUnapplied};
ghost use Rattle.vx_column.specs.Arguments.{types_of, any_nested};
ghost use Rattle.vx_column.specs.Computed.{Takes, IsCanonicalResult, HasNoCanonicalResult};

use crate::functions::apply::constant::{apply_constants, constants};
use crate::functions::apply::each::{apply_each, result_dtype};
use crate::functions::cast::cast;
use crate::functions::operator::{between, negate, operate};
use crate::functions::select::{fill_null, is_not_null, is_null, mask, zip};
use crate::rows::{Argument, arguments_of};
use std::alloc::Global;
use vx_fn::ScalarFnRef;
use vx_tree::{Canonical, Columnar};
use vx_value::VortexResult;

/// Applies `function` to `arguments`, each `len` rows long, in one pass and one allocation for the rows, or row by row if the
/// type of an argument or of the result is nested; constants aren't expanded, and values under nulls aren't computed. The result is a constant
/// if `len > 0` and every argument is one, else canonical; its validity is absent if no row is null, and booleans are `false`
/// under nulls. Its type must have columns. (own)
///
/// # Errors
///
/// `Fault` exactly if a row has no value; `OutOfMemory`.
pub fn apply_fn(
    alloc: Global,
    function: &ScalarFnRef,
    arguments: &[Columnar],
    len: usize,
) -> VortexResult<Columnar>
    requires call { IsCall function.now (map columnar_tree arguments.now) len }
    requires columns { (ty : DataType) → return_type function.now (map dtype (map columnar_tree arguments.now)) ≡ Some ty → has_columns ty ≡ true }
    ensures ok { IfOk result (λ c. IsApplied function.now (map columnar_tree arguments.now) len (columnar_tree c)) }
    ensures err { IfErr result (IsUnapplied function.now (map columnar_tree arguments.now) len) }
{
    match constants(alloc, arguments, len)? {
        Some(scalars) => apply_constants(alloc, function, scalars.as_slice(), len),
        None => {
            let column = apply_rows(alloc, function, arguments, len)?;
            column.as_array().well_formed_tree();
            Ok(Columnar::Canonical(column))
        }
    }
}

/// Returns whether one of `columns` has a nested type.
fn any_nested(columns: &[Columnar]) -> bool
    ensures { result ≡ any_nested (map columnar_tree columns.now) }
{
    for column in columns {
        if column.dtype().is_nested() {
            return true;
        }
    }
    false
}

/// Applies `function` to `arguments`, each `len` rows long: to whole columns, or row by row if a type is nested; that of the
/// result must have columns. `Fault` if a row has no value.
fn apply_rows(
    alloc: Global,
    function: &ScalarFnRef,
    arguments: &[Columnar],
    len: usize,
) -> VortexResult<Canonical>
    requires call { IsCall function.now (map columnar_tree arguments.now) len }
    requires columns { (ty : DataType) → return_type function.now (map dtype (map columnar_tree arguments.now)) ≡ Some ty → has_columns ty ≡ true }
    ensures ok { IfOk result (λ c. IsAppliedEach function.now (map columnar_tree arguments.now) len (canonical_tree c)) }
    ensures err { IfErr result (IsUnapplied function.now (map columnar_tree arguments.now) len) }
{
    let dtype = result_dtype(alloc, function, arguments)?;
    if any_nested(arguments) || dtype.is_nested() {
        return apply_each(alloc, dtype, function, arguments, len);
    }
    let rows = arguments_of(alloc, arguments)?;
    apply_to_columns(alloc, function, rows.as_slice(), len)
}

/// Applies `function` to `arguments`, `len` rows each, whose types it must accept; its result must not be nested. `Fault` if a
/// row has no value.
fn apply_to_columns(
    alloc: Global,
    function: &ScalarFnRef,
    arguments: &[Argument<'_>],
    len: usize,
) -> VortexResult<Canonical>
    requires taken { Takes function.now arguments.now len }
    requires unnested { (ty : DataType) → return_type function.now (types_of arguments.now) ≡ Some ty → is_nested ty ≡ false }
    ensures ok { IfOk result (λ c. IsCanonicalResult function.now arguments.now len (canonical_tree c)) }
    ensures err { IfErr result (HasNoCanonicalResult function.now arguments.now len) }
{
    match (function, arguments) {
        (ScalarFnRef::Binary(operator), [lhs, rhs]) => operate(alloc, *operator, lhs, rhs, len),
        (ScalarFnRef::Between(options), [array, lower, upper]) => {
            between(alloc, *options, array, lower, upper, len)
        }
        (ScalarFnRef::Not, [input]) => negate(alloc, input, len),
        (ScalarFnRef::Mask, [input, keep]) => mask(alloc, input, keep, len),
        (ScalarFnRef::Zip, [if_true, if_false, mask]) => zip(alloc, if_true, if_false, mask, len),
        (ScalarFnRef::FillNull, [input, fill_value]) => fill_null(alloc, input, fill_value, len),
        (ScalarFnRef::IsNull, [input]) => is_null(alloc, input, len),
        (ScalarFnRef::IsNotNull, [input]) => is_not_null(alloc, input, len),
        (ScalarFnRef::Cast(target), [input]) => cast(alloc, target, input, len),
        _ => unreachable!(),
    }
}
