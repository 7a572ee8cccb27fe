//! Which types have columns.

ghost use Rattle.std.specs.Prelude.{◌≡◌};
ghost use Rattle.vx_value.specs.View.{type_of, fields_of};
ghost use Rattle.vx_value.specs.Supported.{has_columns, have_columns};

use crate::{DType, Field};

/// Checks whether there are columns of type `dtype` so far: lists, maps, unions and variants have none. (own)
#[cycle(has_columns)]
pub fn has_columns(dtype: &DType) -> bool
    ensures { result ≡ has_columns (type_of dtype.now) }
{
    match dtype {
        DType::Null
        | DType::Bool(_)
        | DType::Primitive(_, _)
        | DType::Decimal(_, _)
        | DType::Utf8(_)
        | DType::Binary(_) => true,
        DType::Struct(fields, _) => have_columns(&fields.fields),
        DType::Extension(extension) => has_columns(&extension.storage),
        _ => false,
    }
}

#[cycle(has_columns)]
fn have_columns(fields: &[Field]) -> bool
    ensures { result ≡ have_columns (fields_of fields.now) }
{
    for field in fields {
        if !has_columns(&field.dtype) {
            return false;
        }
    }
    true
}
