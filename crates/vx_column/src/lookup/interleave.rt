//! Rows of several columns that pairs of indices name.

ghost use Rattle.std.specs.Prelude.{◌≡◌, ◌<◌, ◌&&◌, ℕ, false, true, map, length, replicate, IfOk, IfErr};
ghost use Rattle.vx_value.specs.Errors.{OnlyOutOfMemory};
ghost use Rattle.vx_value.specs.Cell.{value};
ghost use Rattle.vx_value.specs.Supported.{has_columns};
ghost use Rattle.vx_tree.specs.Tree.{dtype, len as count, datum, is_constant};
ghost use Rattle.vx_tree.specs.Cells.{rows};
ghost use Rattle.vx_tree.specs.Lookups.{paired_cells};
ghost use Rattle.vx_tree.specs.Canonicals.{columnar_tree, canonical_tree};
ghost use Rattle.vx_column.specs.Interleaved.{AreInterleaved, IsInterleaving, IsNotInterleaving, IsIndexType, first_type, AreOfType, IsPaired, IsNotPaired, pair_cell, pair_cells};
ghost use Rattle.vx_column.specs.LookedUp.{IsCanonicalOf, IsLookedUp, IsNotLookedUp};

use crate::builder::Builder;
use crate::lookup::take::{code_of, place_of_code};
use crate::rows::{constant, execute_scalar};
use std::alloc::Global;
use vx_tree::{Canonical, Columnar};
use vx_value::{Scalar, VortexResult};

/// Returns the column of which row i is row `row_indices[i]`, counted from 0, of column `array_indices[i]` of `values`. The
/// indices must be non-nullable integers, as many of the one as of the other; there must be a column, and all must be of one
/// type, the result's. The result is a constant if there is a row and both columns of indices are constants, else
/// canonical. Rows that no pair names aren't read. (own)
///
/// # Errors
///
/// `Fault` exactly if a row has no value: an index is negative or names no column or no row, or the row that it names has no
/// value; `OutOfMemory`.
pub fn interleave_rows(
    alloc: Global,
    array_indices: &Columnar,
    row_indices: &Columnar,
    values: &[Columnar],
) -> VortexResult<Columnar>
    requires { AreInterleaved (columnar_tree array_indices.now) (columnar_tree row_indices.now) (map columnar_tree values.now) }
    ensures ok { IfOk result (λ u. IsInterleaving (columnar_tree array_indices.now) (columnar_tree row_indices.now) (map columnar_tree values.now)
        (columnar_tree u)) }
    ensures err { IfErr result (IsNotInterleaving (columnar_tree array_indices.now) (columnar_tree row_indices.now) (map columnar_tree values.now)) }
{
    if array_indices.is_empty() {
        return interleave_none(alloc, array_indices, row_indices, values);
    }
    match code_of(array_indices) {
        None => interleave_columns(alloc, array_indices, row_indices, values),
        Some(array) => match code_of(row_indices) {
            None => interleave_columns(alloc, array_indices, row_indices, values),
            Some(row) => interleave_constant(alloc, array, row, values, array_indices.len()),
        },
    }
}

/// Makes the empty column of the type of `values`; there must be no pair. Fails only with `OutOfMemory`.
fn interleave_none(
    alloc: Global,
    array_indices: &Columnar,
    row_indices: &Columnar,
    values: &[Columnar],
) -> VortexResult<Columnar>
    requires pairs { AreInterleaved (columnar_tree array_indices.now) (columnar_tree row_indices.now) (map columnar_tree values.now) }
    requires none { count (columnar_tree array_indices.now) ≡ 0 }
    ensures ok { IfOk result (λ u. IsInterleaving (columnar_tree array_indices.now) (columnar_tree row_indices.now) (map columnar_tree values.now)
        (columnar_tree u)) }
    ensures err { OnlyOutOfMemory result }
{
    array_indices.as_array().well_formed_tree();
    let column = Canonical::empty(alloc, values[0].dtype())?;
    Ok(Columnar::Canonical(column))
}

/// Returns `len` times row `row` of column `array` of `values`. `Fault` if there is no such value.
fn interleave_constant(
    alloc: Global,
    array: &Scalar,
    row: &Scalar,
    values: &[Columnar],
    len: usize,
) -> VortexResult<Columnar>
    requires array { IsIndexType array.now.of_type }
    requires row { IsIndexType row.now.of_type }
    requires typed { AreOfType (first_type (map columnar_tree values.now)) (map columnar_tree values.now) }
    requires some { 0 < len }
    ensures ok { IfOk result (λ u. IsLookedUp (first_type (map columnar_tree values.now)) len (paired_cells (map rows (map columnar_tree values.now))
        (replicate len (value array.now.value)) (replicate len (value row.now.value))) true (columnar_tree u)) }
    ensures err { IfErr result (IsNotLookedUp (paired_cells (map rows (map columnar_tree values.now))
        (replicate len (value array.now.value)) (replicate len (value row.now.value)))) }
{
    let scalar = row_paired(alloc, values, array, row)?;
    constant(alloc, scalar, len)
}

/// Builds the column of the rows that the pairs name, of which there must be one; not both columns of indices may be constants.
/// `Fault` if a row has no value.
fn interleave_columns(
    alloc: Global,
    array_indices: &Columnar,
    row_indices: &Columnar,
    values: &[Columnar],
) -> VortexResult<Columnar>
    requires pairs { AreInterleaved (columnar_tree array_indices.now) (columnar_tree row_indices.now) (map columnar_tree values.now) }
    requires stored { (is_constant (datum (columnar_tree array_indices.now)) && is_constant (datum (columnar_tree row_indices.now))) ≡ false }
    ensures ok { IfOk result (λ u. IsInterleaving (columnar_tree array_indices.now) (columnar_tree row_indices.now) (map columnar_tree values.now)
        (columnar_tree u)) }
    ensures err { IfErr result (IsNotInterleaving (columnar_tree array_indices.now) (columnar_tree row_indices.now) (map columnar_tree values.now)) }
{
    array_indices.as_array().well_formed_tree();
    row_indices.as_array().well_formed_tree();
    let column = interleave_each(alloc, array_indices, row_indices, values)?;
    column.as_array().well_formed_tree();
    Ok(Columnar::Canonical(column))
}

/// Builds the column of the rows that the pairs name, one by one. `Fault` if a row has no value.
fn interleave_each(
    alloc: Global,
    array_indices: &Columnar,
    row_indices: &Columnar,
    values: &[Columnar],
) -> VortexResult<Canonical>
    requires { AreInterleaved (columnar_tree array_indices.now) (columnar_tree row_indices.now) (map columnar_tree values.now) }
    ensures ok { IfOk result (λ c. IsCanonicalOf (first_type (map columnar_tree values.now)) (count (columnar_tree array_indices.now))
        (pair_cells (columnar_tree array_indices.now) (columnar_tree row_indices.now) (map columnar_tree values.now) (count (columnar_tree array_indices.now)))
        (canonical_tree c)) }
    ensures err { IfErr result (IsNotLookedUp
        (pair_cells (columnar_tree array_indices.now) (columnar_tree row_indices.now) (map columnar_tree values.now) (count (columnar_tree array_indices.now)))) }
{
    let len = array_indices.len();
    let mut column = Builder::with_capacity(alloc, values[0].dtype().clone()?, len)?;
    for index in 0..len {
        let scalar = row_at(alloc, array_indices, row_indices, values, index)?;
        column.append_scalar(&scalar)?;
    }
    let _dtype = column.dtype();
    column.finish(alloc)
}

/// Returns the row that pair `index` names. `Fault` if there is no such value.
fn row_at(
    alloc: Global,
    array_indices: &Columnar,
    row_indices: &Columnar,
    values: &[Columnar],
    index: usize,
) -> VortexResult<Scalar>
    requires pairs { AreInterleaved (columnar_tree array_indices.now) (columnar_tree row_indices.now) (map columnar_tree values.now) }
    requires index { index < count (columnar_tree array_indices.now) }
    ensures ok { IfOk result (λ s. pair_cell (columnar_tree array_indices.now) (columnar_tree row_indices.now) (map columnar_tree values.now) index ≡ value s.value) }
    ensures typed { IfOk result (λ s. s.of_type ≡ first_type (map columnar_tree values.now)) }
    ensures err { IfErr result (IsNotLookedUp
        (pair_cells (columnar_tree array_indices.now) (columnar_tree row_indices.now) (map columnar_tree values.now) (count (columnar_tree array_indices.now)))) }
{
    let array = execute_scalar(alloc, array_indices.as_array(), index)?;
    let row = execute_scalar(alloc, row_indices.as_array(), index)?;
    let scalar = row_paired(alloc, values, &array, &row)?;
    Ok(scalar)
}

/// Returns row `row` of column `array` of `values`. `Fault` if there is no such value.
fn row_paired(
    alloc: Global,
    values: &[Columnar],
    array: &Scalar,
    row: &Scalar,
) -> VortexResult<Scalar>
    requires array { IsIndexType array.now.of_type }
    requires row { IsIndexType row.now.of_type }
    requires typed { AreOfType (first_type (map columnar_tree values.now)) (map columnar_tree values.now) }
    ensures ok { IfOk result (IsPaired (map columnar_tree values.now) array.now row.now) }
    ensures columns { IfOk result (λ s. has_columns s.of_type ≡ true) }
    ensures err { IfErr result (IsNotPaired (map columnar_tree values.now) array.now row.now) }
{
    let Some(place) = place_of_code(array, values.len())? else {
        unreachable!()
    };
    let column = values[place as usize].as_array();
    column.well_formed_tree();
    let Some(place) = place_of_code(row, column.len())? else {
        unreachable!()
    };
    execute_scalar(alloc, column, place as usize)
}
