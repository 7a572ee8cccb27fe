//! Columns without rows.

ghost use Rattle.std.specs.Prelude.{◌≡◌, true, IfOk};
ghost use Rattle.vx_value.specs.Errors.{OnlyOutOfMemory};
ghost use Rattle.vx_value.specs.Types as type;
ghost use Rattle.vx_value.specs.View.{type_of, fields_of};
ghost use Rattle.vx_value.specs.Supported.{has_columns, have_columns};
ghost use Rattle.vx_value.specs.declared.dtype.Nullability.{Nullability};
ghost use Rattle.vx_tree.specs.Tree.{slots_of};
ghost use Rattle.vx_tree.specs.Columns.{empty_of, empty_fields};
ghost use Rattle.vx_tree.specs.Canonicals.{canonical_tree};

use crate::array::{Array, ArrayRef, IntoArray};
use crate::arrays::null::NullArray;
use crate::arrays::scalar_fn_validity::EmptyArrayData;
use crate::canonical::canonical::Canonical;
use crate::canonical::flat::flat_empty;
use std::alloc::Global;
use vx_value::{DType, ExtDType, Field, VortexResult};

/// Makes the column of type `dtype`, which must be one with columns, without rows. Fails only with `OutOfMemory`.
#[cycle(empty)]
pub(crate) fn empty_column(alloc: Global, dtype: &DType) -> VortexResult<Canonical>
    requires { has_columns (type_of dtype.now) ≡ true }
    ensures ok { IfOk result (λ c. canonical_tree c ≡ empty_of (type_of dtype.now)) }
    ensures err { OnlyOutOfMemory result }
{
    match dtype {
        DType::Null => Ok(Canonical::Null(NullArray::new(alloc, 0)?)),
        DType::Bool(_) => Ok(Canonical::Bool(flat_empty(alloc, dtype)?)),
        DType::Primitive(_, _) => Ok(Canonical::Primitive(flat_empty(alloc, dtype)?)),
        DType::Decimal(_, _) => Ok(Canonical::Decimal(flat_empty(alloc, dtype)?)),
        DType::Utf8(_) | DType::Binary(_) => {
            Ok(Canonical::VarBinView(flat_empty(alloc, dtype)?))
        }
        DType::Struct(fields, _) => empty_struct(alloc, dtype, fields.as_slice()),
        DType::Extension(extension) => empty_extension(alloc, dtype, extension),
        _ => unreachable!(),
    }
}

/// Makes the slots of a column of structs with these fields, without rows. Fails only with `OutOfMemory`.
#[cycle(empty)]
fn empty_slots(alloc: Global, fields: &[Field]) -> VortexResult<Vec<Option<ArrayRef>>>
    requires { have_columns (fields_of fields.now) ≡ true }
    ensures ok { IfOk result (λ slots. slots_of slots.items ≡ empty_fields (fields_of fields.now)) }
    ensures err { OnlyOutOfMemory result }
{
    let mut slots = Vec::with_capacity(alloc, fields.len() + 1)?;
    for field in fields {
        slots.push(Some(empty_column(alloc, &field.dtype)?.into_array()))?;
    }
    slots.push(None)?;
    Ok(slots)
}

/// Makes the column of type `dtype`, a struct with these fields, without rows. Fails only with `OutOfMemory`.
#[cycle(empty)]
fn empty_struct(alloc: Global, dtype: &DType, fields: &[Field]) -> VortexResult<Canonical>
    requires typed { (m : Nullability) × (type_of dtype.now ≡ type.struct (fields_of fields.now) m) }
    requires columns { have_columns (fields_of fields.now) ≡ true }
    ensures ok { IfOk result (λ c. canonical_tree c ≡ empty_of (type_of dtype.now)) }
    ensures err { OnlyOutOfMemory result }
{
    let slots = empty_slots(alloc, fields)?;
    Ok(Canonical::Struct(Array::of(alloc, dtype.clone()?, 0, EmptyArrayData, slots)?))
}

/// Makes the column of type `dtype`, this extension, without rows. Fails only with `OutOfMemory`.
#[cycle(empty)]
fn empty_extension(alloc: Global, dtype: &DType, extension: &ExtDType) -> VortexResult<Canonical>
    requires typed { type_of dtype.now ≡ type.extension extension.now.0 extension.now.1 }
    requires columns { has_columns extension.now.1 ≡ true }
    ensures ok { IfOk result (λ c. canonical_tree c ≡ empty_of (type_of dtype.now)) }
    ensures err { OnlyOutOfMemory result }
{
    let storage = empty_column(alloc, extension.storage())?.into_array();
    Ok(Canonical::Extension(Array::over(alloc, dtype.clone()?, 0, EmptyArrayData, Some(storage))?))
}
