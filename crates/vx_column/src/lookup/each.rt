//! Rows of a tree that are read one by one.

ghost use Rattle.std.specs.Prelude.{◌≡◌, ◌<◌, false, length, IfOk, IfErr, IfSome, IfNone};
ghost use Rattle.vx_value.specs.declared.dtype.Nullability.TheVariants.{Nullable};
ghost use Rattle.vx_tree.specs.Tree.{dtype, len};
ghost use Rattle.vx_tree.specs.Cells.{rows};
ghost use Rattle.vx_tree.specs.Canonicals.{canonical_tree};
ghost use Rattle.vx_column.specs.LookedUp.{named_cells, place_if, AreWithin, IsNamed, IsNotNamed, AreNamedRows, IsNotLookedUp};
ghost use Rattle.vx_column.specs.ValidRows.{HasValidity, nullability_in};

use crate::builder::Builder;
use crate::rows::{ValidRows, execute_scalar};
use std::alloc::Global;
use vx_tree::{ArrayRef, Canonical};
use vx_value::{Nullability, Scalar, VortexResult};

/// Builds the column of the rows of `values` at `places`, `len` of them, which must exist; null in each row that isn't `valid`.
/// Reads each row on its own. `Fault` if one of them has no value.
pub(crate) fn take_each(
    alloc: Global,
    values: &ArrayRef,
    places: &[u64],
    valid: &ValidRows,
    len: usize,
) -> VortexResult<Canonical>
    requires places { length places.now ≡ len }
    requires valid { HasValidity valid.now len }
    requires within { AreWithin valid.now places.now values.now len }
    ensures ok { IfOk result (λ c. AreNamedRows valid.now places.now values.now len (canonical_tree c)) }
    ensures err { IfErr result (IsNotLookedUp (named_cells valid.now places.now (rows values.now) len)) }
{
    let codes = nullability(valid);
    let dtype = values
        .dtype()
        .with_nullability(alloc, codes.union(values.dtype().nullability()))?;
    let mut column = Builder::with_capacity(alloc, dtype, len)?;
    for index in 0..len {
        let place = place_if(valid.is_valid(index), places[index]);
        let scalar = row_named(alloc, values, place, codes)?;
        column.append_scalar(&scalar)?;
    }
    let _dtype = column.dtype();
    column.finish(alloc)
}

/// Returns the nullability of a column of rows that are valid as these are.
fn nullability(valid: &ValidRows) -> Nullability
    ensures { result ≡ nullability_in valid.now }
{
    match valid {
        ValidRows::All(nullability) => *nullability,
        ValidRows::Bits(_) => Nullability::Nullable,
    }
}

/// Returns `place` if its row is `valid`, else `None`.
#[inline]
fn place_if(valid: bool, place: u64) -> Option<u64>
    ensures { result ≡ place_if valid place }
{
    if valid { Some(place) } else { None }
}

/// Returns the row of `values` at `place`, which must exist, or null if there is none; nullable if `codes`, the nullability
/// of the codes, is. `Fault` if the row has no value.
pub(crate) fn row_named(
    alloc: Global,
    values: &ArrayRef,
    place: Option<u64>,
    codes: Nullability,
) -> VortexResult<Scalar>
    requires within { IfSome place (λ k. k < len values.now) }
    requires nullable { IfNone place (codes ≡ Nullable) }
    ensures ok { IfOk result (IsNamed codes values.now place) }
    ensures err { IfErr result (IsNotNamed values.now place) }
{
    let Some(place) = place else {
        return Ok(Scalar::null(values.dtype().as_nullable(alloc)?));
    };
    let scalar = execute_scalar(alloc, values, place as usize)?;
    if codes.is_nullable() {
        scalar.into_nullable(alloc)
    } else {
        Ok(scalar)
    }
}
