//! A column of structs.

ghost use Rattle.serde_json.specs.View.{view};
ghost use Rattle.vx_value.specs.View.{type_of};
ghost use Rattle.vx_json.specs.Refused.{IsRead};
ghost use Rattle.vx_json.specs.SpelledNodes.Struct.{struct_by, struct_spelled};

use crate::BAD_VALUE;
use crate::fields::{check_keys, number};
use crate::nulls::Nulls;
use crate::types::column_type_at;
use serde_json::Value;
use std::alloc::Global;
use vx_tree::{ArrayRef, IntoArray, StructArray, Validity};
use vx_value::{DType, VortexError, VortexResult};

/// Makes the column of `len` structs of type `dtype`, if `columns` are of the types of its fields. `InvalidArgument(BadValue)` if they
/// aren't.
fn column(
    alloc: Global,
    dtype: DType,
    len: usize,
    columns: Vec<ArrayRef>,
    validity: &Validity,
) -> VortexResult<ArrayRef>
    ensures { IsRead (struct_by (type_of dtype) len columns.items validity.now) result }
{
    match StructArray::try_new(alloc, dtype, len, columns, validity) {
        Ok(node) => Ok(node.into_array()),
        Err(VortexError::OutOfMemory) => Err(VortexError::OutOfMemory),
        Err(_) => Err(BAD_VALUE),
    }
}

/// Reads a column of structs: `len` rows, whose fields are the rows of `columns`, null where `nulls` says so.
pub(crate) fn read(
    alloc: Global,
    value: &Value,
    columns: Vec<ArrayRef>,
    nulls: &Nulls,
) -> VortexResult<ArrayRef>
    ensures { IsRead (struct_spelled (view value.now) columns.items nulls.now) result }
{
    check_keys(value, 4 + nulls.keys())?;
    let Some(len) = number(value, "len") else {
        return Err(BAD_VALUE);
    };
    let dtype = column_type_at(alloc, value)?;
    let validity = nulls.validity(dtype.nullability(), len as usize)?;
    column(alloc, dtype, len as usize, columns, &validity)
}
