//! Columns of scalars.

ghost use Rattle.std.specs.Prelude.{◌≡◌, ◌<◌, ℕ, List, length, true, false, Some, IfOk, slice_get};
ghost use Rattle.vx_value.specs.Errors.{OnlyOutOfMemory};
ghost use Rattle.vx_value.specs.Types as type;
ghost use Rattle.vx_value.specs.Types.{DataType, Fields};
ghost use Rattle.vx_value.specs.Storage.{is_nested};
ghost use Rattle.vx_value.specs.Supported.{has_columns};
ghost use Rattle.vx_value.specs.View.{type_of, fields_of};
ghost use Rattle.vx_tree.specs.Canonicals.{canonical_tree};
ghost use Rattle.vx_tree.specs.Validities.{child_by};
ghost use Rattle.vx_column.specs.ValidRows.{child_in, nullability_in, HasValidity};
ghost use Rattle.vx_column.specs.ValueColumns.{column_of, field_values, values_of, present, AreOf};

use crate::builder::flat::FlatBuilder;
use crate::builder::validity::ValidityBuilder;
use crate::canonicalize::composed_column;
use crate::rows::ValidRows;
use std::alloc::Global;
use vx_tree::{Canonical, IntoArray, Layout, validity_to_child};
use vx_value::{DType, Field, Nullability, Scalar, VortexResult};

/// Makes the column of `scalars`, all of type `dtype`, which must have columns: of a nested type, a column for each part of
/// the values. Fails only with `OutOfMemory`.
#[cycle(column_of)]
pub(super) fn column_of(alloc: Global, dtype: &DType, scalars: &[Scalar]) -> VortexResult<Canonical>
    requires columns { has_columns (type_of dtype.now) ≡ true }
    requires typed { AreOf (type_of dtype.now) scalars.now }
    ensures ok { IfOk result (λ c. canonical_tree c ≡ column_of (type_of dtype.now) (values_of scalars.now)) }
    ensures err { OnlyOutOfMemory result }
{
    match dtype {
        DType::Struct(fields, nullability) => {
            structs_of(alloc, dtype, fields.as_slice(), *nullability, scalars)
        }
        DType::Extension(extension) => {
            let stored = storages(alloc, scalars)?;
            let storage = column_of(alloc, extension.storage(), stored.as_slice())?.into_array();
            let slots = vec![in alloc; Some(storage)]?;
            composed_column(
                alloc,
                Layout::Extension,
                dtype.clone()?,
                scalars.len(),
                slots,
            )
        }
        _ => flat_of(alloc, dtype, scalars),
    }
}

/// Makes the column of `scalars`, structs of type `dtype` with these `fields`.
#[cycle(column_of)]
fn structs_of(
    alloc: Global,
    dtype: &DType,
    fields: &[Field],
    nullability: Nullability,
    scalars: &[Scalar],
) -> VortexResult<Canonical>
    requires columns { has_columns (type_of dtype.now) ≡ true }
    requires typed { AreOf (type_of dtype.now) scalars.now }
    requires structs { type_of dtype.now ≡ type.struct (fields_of fields.now) nullability }
    ensures ok { IfOk result (λ c. canonical_tree c ≡ column_of (type_of dtype.now) (values_of scalars.now)) }
    ensures err { OnlyOutOfMemory result }
{
    let mut slots = Vec::with_capacity(alloc, fields.len() + 1)?;
    for i in 0..fields.len() {
        let column = field_of_each(alloc, fields, scalars, i)?;
        let column = column_of(alloc, &fields[i].dtype, column.as_slice())?;
        slots.push(Some(column.into_array()))?;
    }
    let valid = present(alloc, nullability, scalars)?;
    let validity = valid.validity(alloc, scalars.len())?;
    slots.push(validity_to_child(alloc, &validity, scalars.len())?)?;
    composed_column(alloc, Layout::Struct, dtype.clone()?, scalars.len(), slots)
}

/// Makes the column of `scalars`, all of type `dtype`, which must not be nested. Fails only with `OutOfMemory`.
fn flat_of(alloc: Global, dtype: &DType, scalars: &[Scalar]) -> VortexResult<Canonical>
    requires unnested { is_nested (type_of dtype.now) ≡ false }
    requires typed { AreOf (type_of dtype.now) scalars.now }
    ensures ok { IfOk result (λ c. canonical_tree c ≡ column_of (type_of dtype.now) (values_of scalars.now)) }
    ensures err { OnlyOutOfMemory result }
{
    let mut column = FlatBuilder::with_capacity(alloc, dtype.clone()?, scalars.len())?;
    for scalar in scalars {
        column.push(scalar)?;
    }
    column.finish(alloc)
}

/// Returns what each of `scalars`, of one extension type, is stored as. Fails only with `OutOfMemory`.
fn storages(alloc: Global, scalars: &[Scalar]) -> VortexResult<Vec<Scalar>>
    requires { (id : List ℕ) × (t : DataType) × AreOf (type.extension id t) scalars.now }
    ensures typed { IfOk result (λ ss. (id : List ℕ) (t : DataType) → AreOf (type.extension id t) scalars.now → AreOf t ss.items) }
    ensures values { IfOk result (λ ss. values_of ss.items ≡ values_of scalars.now) }
    ensures err { OnlyOutOfMemory result }
{
    let mut stored = Vec::with_capacity(alloc, scalars.len())?;
    for scalar in scalars {
        stored.push(scalar.storage()?)?;
    }
    Ok(stored)
}

/// Returns field `index` of each of `scalars`, structs with these `fields`. Fails only with `OutOfMemory`.
fn field_of_each(
    alloc: Global,
    fields: &[Field],
    scalars: &[Scalar],
    index: usize,
) -> VortexResult<Vec<Scalar>>
    requires index { index < length fields.now }
    requires typed { (m : Nullability) × AreOf (type.struct (fields_of fields.now) m) scalars.now }
    ensures typed { IfOk result (λ ss. (f : Field) → slice_get fields.now index ≡ Some f → AreOf (type_of f.dtype) ss.items) }
    ensures values { IfOk result (λ ss. values_of ss.items ≡ field_values index (fields_of fields.now) (values_of scalars.now)) }
    ensures err { OnlyOutOfMemory result }
{
    let mut column = Vec::with_capacity(alloc, scalars.len())?;
    for scalar in scalars {
        column.push(scalar.field(alloc, index)?)?;
    }
    Ok(column)
}

/// Returns which of `scalars` aren't null. Fails only with `OutOfMemory`.
fn present(alloc: Global, nullability: Nullability, scalars: &[Scalar]) -> VortexResult<ValidRows>
    ensures ok { IfOk result (λ valid. child_in valid ≡ child_by (present (values_of scalars.now))) }
    ensures sized { IfOk result (λ valid. HasValidity valid (length scalars.now)) }
    ensures nullability { (fs : Fields) → AreOf (type.struct fs nullability) scalars.now → IfOk result (λ valid. nullability_in valid ≡ nullability) }
    ensures err { OnlyOutOfMemory result }
{
    let mut valid = ValidityBuilder::new(alloc);
    for i in 0..scalars.len() {
        let scalar = &scalars[i];
        let _dtype = scalar.dtype();
        if scalar.is_null() {
            valid.push_nulls(i, 1)?;
        }
    }
    Ok(valid.finish(alloc, scalars.len(), nullability)?)
}
