//! The values of a column, by their storage.

ghost use Rattle.std.specs.Prelude.{◌≡◌, [], None, IfOk, MatchResult};
ghost use Rattle.vx_value.specs.Errors.{OnlyOutOfMemory};
ghost use Rattle.serde_json.specs.View.{items_view};
ghost use Rattle.vx_value.specs.View.{type_of};
ghost use Rattle.vx_value.specs.Storage.{storage_of};
ghost use Rattle.vx_tree.specs.Tree.{column};
ghost use Rattle.vx_tree.specs.Validities.{child_of};
ghost use Rattle.vx_json.specs.ColumnValues.{data_of, count_of, values_refusal, AreReadAs, AreUnread};
ghost use Rattle.vx_json.specs.Refused.{IsRefused};

use crate::BAD_VALUE;
use crate::bytes::byte_rows;
use crate::decimals::decimals;
use crate::row_nulls::RowNulls;
use crate::values::{booleans, integers};
use serde_json::Value;
use std::alloc::Global;
use vx_mask::BitBuffer;
use vx_tree::{
    ArrayRef, BinaryViews, BoolArray, DecimalArray, DecimalValues, IntoArray, PrimitiveArray,
    PrimitiveValues, Validity, VarBinViewArray,
};
use vx_value::{DType, Storage, VortexResult};

/// The values of a column, in the buffers of its storage.
#[derive(Drop)]
pub(crate) enum ColumnValues {
    Bits(BitBuffer),
    Integers(PrimitiveValues),
    Decimals(DecimalValues),
    Views(BinaryViews),
}

impl ColumnValues {
    /// Returns the number of rows.
    pub(crate) fn len(&self) -> usize
        ensures { result ≡ count_of self.now }
    {
        match self {
            ColumnValues::Bits(bits) => bits.len(),
            ColumnValues::Integers(values) => values.len(),
            ColumnValues::Decimals(values) => values.len(),
            ColumnValues::Views(rows) => rows.len(),
        }
    }
}

/// Reads a list of values of `dtype`, and records in `nulls` which rows aren't null. `InvalidArgument(BadValue)` if an item is
/// neither such a value nor a null row, or if `dtype` is `Null` or nested.
pub(crate) fn column_values<N: RowNulls>(
    alloc: Global,
    dtype: &DType,
    nulls: &mut N,
    list: &Vec<Value>,
) -> VortexResult<ColumnValues>
    requires { N.told nulls.old ≡ [] }
    ensures { MatchResult result
        (λ v. AreReadAs N.mode (storage_of (type_of dtype.now)) (items_view list.now.items) v (N.told nulls.new))
        (IsRefused (AreUnread N.mode (storage_of (type_of dtype.now)) (items_view list.now.items))) }
{
    Ok(match dtype {
        DType::Bool(_) => ColumnValues::Bits(booleans(alloc, nulls, list)?),
        DType::Primitive(ptype, _) => ColumnValues::Integers(integers(alloc, *ptype, nulls, list)?),
        DType::Decimal(decimal, _) => ColumnValues::Decimals(decimals(
            alloc, decimal, nulls, list,
        )?),
        DType::Utf8(_) => ColumnValues::Views(byte_rows(alloc, Storage::Text, nulls, list)?),
        DType::Binary(_) => ColumnValues::Views(byte_rows(alloc, Storage::Bytes, nulls, list)?),
        _ => return Err(BAD_VALUE),
    })
}

/// Makes the column of `values`, which its constructor must not refuse. Fails only with `OutOfMemory`.
pub(crate) fn column(
    alloc: Global,
    dtype: DType,
    values: ColumnValues,
    validity: &Validity,
) -> VortexResult<ArrayRef>
    requires { values_refusal (type_of dtype) values validity.now ≡ None }
    ensures ok { IfOk result (λ t. t ≡ column (type_of dtype) (count_of values) (data_of values) (child_of validity.now (count_of values))) }
    ensures err { OnlyOutOfMemory result }
{
    Ok(match values {
        ColumnValues::Bits(bits) => BoolArray::try_new(alloc, dtype, bits, validity)?.into_array(),
        ColumnValues::Integers(values) => {
            PrimitiveArray::try_new(alloc, dtype, values, validity)?.into_array()
        }
        ColumnValues::Decimals(values) => {
            DecimalArray::new_unchecked(alloc, dtype, values, validity)?.into_array()
        }
        ColumnValues::Views(rows) => {
            VarBinViewArray::new_unchecked(alloc, dtype, rows, validity)?.into_array()
        }
    })
}
