//! Columns: by their rows, or by their values and their validity.

ghost use Rattle.std.specs.Prelude.{◌≡◌, length, option_map, true, IfOk};
ghost use Rattle.vx_value.specs.Errors.{OnlyOutOfMemory};
ghost use Rattle.serde_json.specs.View.{view, items_view};
ghost use Rattle.serde_json.specs.Find.{as_null};
ghost use Rattle.vx_value.specs.Types.{nullability_of};
ghost use Rattle.vx_value.specs.Supported.{has_columns};
ghost use Rattle.vx_value.specs.View.{type_of};
ghost use Rattle.vx_tree.specs.Tree.{nulls_of};
ghost use Rattle.vx_tree.specs.Validities.{child_of, child_by, nullability_by};
ghost use Rattle.vx_json.specs.Refused.{IsRead};
ghost use Rattle.vx_json.specs.SpelledValues.{all_read};
ghost use Rattle.vx_json.specs.SpelledColumns.{column_of_rows, flat_rows, nested_rows, col_spelled, column_of_values, flat_spelled};

use crate::BAD_VALUE;
use crate::column_values::{column, column_values};
use crate::fields::{check_keys, items};
use crate::nulls::Nulls;
use crate::row_nulls::NoNulls;
use crate::scalars::scalar;
use crate::types::column_type_at;
use crate::values::are_nulls;
use serde_json::Value;
use std::alloc::Global;
use vx_column::Builder;
use vx_mask::BitBuilder;
use vx_tree::{ArrayRef, IntoArray, NullArray, Validity};
use vx_value::{DType, Nullability, VortexResult};

/// Reads a column by its rows.
pub(crate) fn col(alloc: Global, value: &Value) -> VortexResult<ArrayRef>
    ensures { IsRead (col_spelled (view value.now)) result }
{
    check_keys(value, 3)?;
    let dtype = column_type_at(alloc, value)?;
    let Some(list) = items(value, "rows") else {
        return Err(BAD_VALUE);
    };
    column_of_rows(alloc, dtype, list)
}

/// Reads a column of `dtype`, which must have columns, with the rows in `list`, which may be null if the type is nullable.
fn column_of_rows(alloc: Global, dtype: DType, list: &Vec<Value>) -> VortexResult<ArrayRef>
    requires { has_columns (type_of dtype) ≡ true }
    ensures { IsRead (column_of_rows (type_of dtype) (items_view list.now.items)) result }
{
    if dtype.is_nested() {
        nested_rows(alloc, &dtype, list)
    } else {
        flat_rows(alloc, dtype, list)
    }
}

/// Reads a column of `dtype`, which must have columns, with the rows in `list`, one value after the other.
fn nested_rows(alloc: Global, dtype: &DType, list: &Vec<Value>) -> VortexResult<ArrayRef>
    requires { has_columns (type_of dtype.now) ≡ true }
    ensures { IsRead (nested_rows (type_of dtype.now) (items_view list.now.items)) result }
{
    let mut column = Builder::with_capacity(alloc, dtype.clone()?, list.len())?;
    for value in list {
        let row = scalar(alloc, dtype, value)?;
        column.append_scalar(&row)?;
    }
    let _grown = column.dtype();
    Ok(column.finish(alloc)?.into_array())
}

/// Reads a column of `dtype`, which isn't nested, with the rows in `list`, which may be null if the type is nullable.
fn flat_rows(alloc: Global, dtype: DType, list: &Vec<Value>) -> VortexResult<ArrayRef>
    ensures { IsRead (flat_rows (type_of dtype) (items_view list.now.items)) result }
{
    match dtype.nullability() {
        Nullability::NonNullable => column_of_values(alloc, dtype, list, &Nulls::Absent),
        Nullability::Nullable => nullable_column(alloc, dtype, list),
    }
}

/// Reads a nullable column with the rows in `list`, which may be null.
fn nullable_column(alloc: Global, dtype: DType, list: &Vec<Value>) -> VortexResult<ArrayRef>
    requires { nullability_of (type_of dtype) ≡ Nullability.Nullable }
    ensures { IsRead (flat_rows (type_of dtype) (items_view list.now.items)) result }
{
    if let DType::Null = dtype {
        return null_column(alloc, list);
    }
    let mut bits = BitBuilder::with_capacity(alloc, list.len())?;
    let values = column_values(alloc, &dtype, &mut bits, list)?;
    match bits_validity(alloc, bits) {
        Ok(validity) => column(alloc, dtype, values, &validity),
        Err(e) => {
            drop(values);
            Err(e)
        }
    }
}

/// Makes the validity of rows that are null where `bits` is false. Fails only with `OutOfMemory`.
fn bits_validity(alloc: Global, bits: BitBuilder) -> VortexResult<Validity>
    ensures ok { IfOk result (λ v. child_of v (length bits) ≡ child_by bits) }
    ensures nullable { IfOk result (λ v. nullability_by v ≡ Nullability.Nullable) }
    ensures err { OnlyOutOfMemory result }
{
    Validity::from_bits(alloc, bits.finish(alloc)?)
}

/// Reads a column of type null: each item of `list` must be null.
#[tactic(auto, using(crate::proofs::SpelledColumnsLemmas::nulls_read, crate::proofs::SpelledColumnsLemmas::nulls_unread))]
fn null_column(alloc: Global, list: &Vec<Value>) -> VortexResult<ArrayRef>
    ensures { IsRead (option_map (λ rows. nulls_of (length rows)) (all_read as_null (items_view list.now.items))) result }
{
    if are_nulls(list) {
        Ok(NullArray::new(alloc, list.len())?.into_array())
    } else {
        Err(BAD_VALUE)
    }
}

/// Reads a column by its values, which are never null, and by `nulls`, which `validity` spells.
pub(crate) fn flat(alloc: Global, value: &Value, nulls: &Nulls) -> VortexResult<ArrayRef>
    ensures { IsRead (flat_spelled (view value.now) nulls.now) result }
{
    check_keys(value, 3 + nulls.keys())?;
    let dtype = column_type_at(alloc, value)?;
    let Some(list) = items(value, "values") else {
        return Err(BAD_VALUE);
    };
    column_of_values(alloc, dtype, list, nulls)
}

/// Reads a column of `dtype` with the values in `list`, which are never null.
fn column_of_values(
    alloc: Global,
    dtype: DType,
    list: &Vec<Value>,
    nulls: &Nulls,
) -> VortexResult<ArrayRef>
    ensures { IsRead (column_of_values nulls.now (type_of dtype) (items_view list.now.items)) result }
{
    let validity = nulls.validity(dtype.nullability(), list.len())?;
    let values = column_values(alloc, &dtype, &mut NoNulls, list)?;
    column(alloc, dtype, values, &validity)
}
