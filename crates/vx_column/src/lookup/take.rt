//! Rows that codes name among values.

ghost use Rattle.std.specs.Prelude.{◌≡◌, ◌<◌, ℕ, false, true, length, replicate, IfOk, IfErr, MatchOption};
ghost use Rattle.vx_value.specs.Errors.{OnlyOutOfMemory};
ghost use Rattle.vx_value.specs.Cell.{value};
ghost use Rattle.vx_fn.specs.Meanings.{widen};
ghost use Rattle.vx_tree.specs.Tree.{dtype, len, datum, is_constant};
ghost use Rattle.vx_tree.specs.Cells.{rows};
ghost use Rattle.vx_tree.specs.Lookups.{taken_cells};
ghost use Rattle.vx_tree.specs.Canonicals.{columnar_tree, canonical_tree};
ghost use Rattle.vx_column.specs.Applied.{Repeats};
ghost use Rattle.vx_value.specs.Nullabilities.{with_nullability, union};
ghost use Rattle.vx_column.specs.Arguments.{plain_type, IsSized};
ghost use Rattle.vx_column.specs.ValidRows.{HasValidity, nullability_in};
ghost use Rattle.vx_column.specs.Casts.{IsIntegerType};
ghost use Rattle.vx_column.specs.LookedUp.{AreTaken, AreNotTaken, IsLookedUp, IsNotLookedUp, IsCanonicalOf, AreNamedRows, AreWithin, IsPlaceOf, IsNoPlace, named_cells, argument_cells};

use crate::lookup::each::{row_named, take_each};
use crate::lookup::gather::{gather, gather_valid};
use crate::lookup::places::{place_of, places_of};
use crate::rows::{Argument, ValidRows, argument_of, constant};
use std::alloc::Global;
use vx_tree::{ArrayKind, Canonical, Columnar};
use vx_value::{Scalar, VortexError, VortexResult};

/// Returns the rows of a dictionary: for each of `codes`, which must be integers, the row of `values` that it names, counted
/// from 0; null if the code is null. The type is that of `values`, nullable if the codes' type is.
/// The result is a constant if there is a row and `codes` is a constant, else canonical. Nothing is looked up under a null, and
/// rows that no code names aren't read; the bytes of text are shared. (own)
///
/// # Errors
///
/// `Fault` exactly if a row has no value: its code has none, is negative or names no row, or the row that it names has none;
/// `OutOfMemory`.
pub fn take_rows(alloc: Global, codes: &Columnar, values: &Columnar) -> VortexResult<Columnar>
    requires integers { IsIntegerType (dtype (columnar_tree codes.now)) }
    ensures ok { IfOk result (λ u. AreTaken (columnar_tree codes.now) (columnar_tree values.now) (columnar_tree u)) }
    ensures err { IfErr result (AreNotTaken (columnar_tree codes.now) (columnar_tree values.now)) }
{
    if codes.is_empty() {
        return take_none(alloc, codes, values);
    }
    match code_of(codes) {
        Some(code) => take_constant(alloc, code, codes.len(), values),
        None => take_column(alloc, codes, values),
    }
}

/// Returns the scalar of `codes` if it is a constant, else `None`.
pub(crate) fn code_of(codes: &Columnar) -> Option<&Scalar>
    ensures { MatchOption result (is_constant (datum (columnar_tree codes.now)) ≡ false) (λ s. Repeats codes.now s.now) }
{
    match codes.as_array().kind() {
        ArrayKind::Constant(code) => Some(code),
        _ => None,
    }
}

/// Makes the empty column of the rows that `codes`, which must have none, names among `values`. Fails only with `OutOfMemory`.
fn take_none(alloc: Global, codes: &Columnar, values: &Columnar) -> VortexResult<Columnar>
    requires none { len (columnar_tree codes.now) ≡ 0 }
    ensures ok { IfOk result (λ u. AreTaken (columnar_tree codes.now) (columnar_tree values.now) (columnar_tree u)) }
    ensures err { OnlyOutOfMemory result }
{
    codes.as_array().well_formed_tree();
    let nullability = codes.dtype().nullability();
    let dtype = values.dtype();
    let dtype = dtype.with_nullability(alloc, nullability.union(dtype.nullability()))?;
    let column = Canonical::empty(alloc, &dtype)?;
    Ok(Columnar::Canonical(column))
}

/// Returns `len` times the row of `values` that `code` names, or null if it is null. `Fault` if there is no such value.
fn take_constant(
    alloc: Global,
    code: &Scalar,
    len: usize,
    values: &Columnar,
) -> VortexResult<Columnar>
    requires code { IsIntegerType code.now.of_type }
    requires some { 0 < len }
    ensures ok { IfOk result (λ u. IsLookedUp (widen code.now.of_type (dtype (columnar_tree values.now))) len
        (taken_cells (replicate len (value code.now.value)) (rows (columnar_tree values.now))) true (columnar_tree u)) }
    ensures err { IfErr result (IsNotLookedUp (taken_cells (replicate len (value code.now.value)) (rows (columnar_tree values.now)))) }
{
    let array = values.as_array();
    array.well_formed_tree();
    let place = place_of_code(code, array.len())?;
    let nullability = code.dtype().nullability();
    let scalar = row_named(alloc, array, place, nullability)?;
    constant(alloc, scalar, len)
}

/// Returns the number of the row that `code` names among `bound` rows, or `None` if it is null. `Fault` if it is negative or
/// names no row.
pub(crate) fn place_of_code(code: &Scalar, bound: usize) -> VortexResult<Option<u64>>
    requires { IsIntegerType code.now.of_type }
    ensures ok { IfOk result (IsPlaceOf code.now bound) }
    ensures err { IfErr result (IsNoPlace code.now bound) }
{
    let _dtype = code.dtype();
    let Some(wide) = code.as_integer() else {
        return Ok(None);
    };
    match place_of(wide, bound) {
        Some(place) => Ok(Some(place)),
        None => Err(VortexError::Fault),
    }
}

/// Makes the column of the rows that `codes`, which must not be a constant, names among `values`. `Fault` if a row has no
/// value.
fn take_column(alloc: Global, codes: &Columnar, values: &Columnar) -> VortexResult<Columnar>
    requires integers { IsIntegerType (dtype (columnar_tree codes.now)) }
    requires stored { is_constant (datum (columnar_tree codes.now)) ≡ false }
    ensures ok { IfOk result (λ u. AreTaken (columnar_tree codes.now) (columnar_tree values.now) (columnar_tree u)) }
    ensures err { IfErr result (AreNotTaken (columnar_tree codes.now) (columnar_tree values.now)) }
{
    codes.as_array().well_formed_tree();
    values.as_array().well_formed_tree();
    let len = codes.len();
    let codes = argument_of(alloc, codes)?;
    let places = places_of(alloc, &codes, values.len(), len)?;
    let column = take_places(alloc, places.as_slice(), &codes.valid, values, len)?;
    column.as_array().well_formed_tree();
    Ok(Columnar::Canonical(column))
}

/// Makes the column of the rows of `values` at `places`, `len` of them, which must exist; null in each row that isn't `valid`.
/// Reads each row on its own if the type is nested, or if a row that may not be named has no value. `Fault` if one that is named has none.
fn take_places(
    alloc: Global,
    places: &[u64],
    valid: &ValidRows,
    values: &Columnar,
    len: usize,
) -> VortexResult<Canonical>
    requires places { length places.now ≡ len }
    requires valid { HasValidity valid.now len }
    requires within { AreWithin valid.now places.now (columnar_tree values.now) len }
    ensures ok { IfOk result (λ c. AreNamedRows valid.now places.now (columnar_tree values.now) len (canonical_tree c)) }
    ensures err { IfErr result (IsNotLookedUp (named_cells valid.now places.now (rows (columnar_tree values.now)) len)) }
{
    if values.dtype().is_nested() {
        return take_each(alloc, values.as_array(), places, valid, len);
    }
    match argument_of(alloc, values) {
        Ok(argument) => take_argument(alloc, places, valid, &argument, len),
        Err(VortexError::Fault) => take_each(alloc, values.as_array(), places, valid, len),
        Err(e) => Err(e),
    }
}

/// Makes the column of the rows of `values` at `places`, `len` of them; null in each row that isn't `valid`. Fails only with
/// `OutOfMemory`.
fn take_argument(
    alloc: Global,
    places: &[u64],
    valid: &ValidRows,
    values: &Argument<'_>,
    len: usize,
) -> VortexResult<Canonical>
    requires places { length places.now ≡ len }
    requires valid { HasValidity valid.now len }
    requires values { (n : ℕ) × IsSized n values.now }
    ensures ok { IfOk result (λ c. IsCanonicalOf (with_nullability (union (nullability_in valid.now) (nullability_in values.now.valid)) (plain_type values.now.rows))
        len (argument_cells valid.now places.now values.now len) (canonical_tree c)) }
    ensures err { OnlyOutOfMemory result }
{
    let valid = gather_valid(alloc, valid, &values.valid, places, len)?;
    gather(alloc, values.rows, places, &valid, len)
}
