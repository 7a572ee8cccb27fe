//! Lists of values of a type that isn't nested.

ghost use Rattle.std.specs.Prelude.{◌≡◌, pos, false, [], IfOk};
ghost use Rattle.std.specs.List.{list_all};
ghost use Rattle.serde_json.specs.View.{view, items_view};
ghost use Rattle.serde_json.specs.Find.{as_bool};
ghost use Rattle.vx_tree.specs.Natives.{values_of, ptype_of};
ghost use Rattle.vx_json.specs.ReadRows.{read_unless, RowsRead};
ghost use Rattle.vx_json.specs.SpelledValues.{integer_in, integer_spelled, is_null};

use crate::BAD_VALUE;
use crate::numbers::{NumberReader, numbers};
use crate::row_nulls::RowNulls;
use serde_json::Value;
use std::alloc::Global;
use vx_mask::{BitBuffer, BitBuilder};
use vx_tree::{NativeInteger, PrimitiveValues};
use vx_value::{PType, VortexResult};

/// Returns whether each item of `list` is null.
pub(crate) fn are_nulls(list: &Vec<Value>) -> bool
    ensures { result ≡ list_all (λ v. is_null (view v)) list.now.items }
{
    list.iter().all(|value| value.is_null())
}

/// Reads an integer in the range of `i64` or `u64`.
pub(crate) fn integer(value: &Value) -> Option<i128>
    ensures { result ≡ integer_in (view value.now) }
{
    value.as_number()?.as_i128()
}

/// Reads integers in the range of their type.
struct InRange;

impl<T: NativeInteger> NumberReader<T> for InRange {
    ghost fits = { λ r. Unit {0} };

    ghost spelled = { λ r. integer_spelled T.kind };

    fn number(&self, value: &Value) -> Option<T> {
        T::from_wide(integer(value)?)
    }
}

/// Reads a list of integers in the range of `ptype`, and records in `nulls` which rows aren't null. Returns the integers, 0 for
/// null. `InvalidArgument(BadValue)` if an item is neither such an integer nor a null row.
pub(crate) fn integers<N: RowNulls>(
    alloc: Global,
    ptype: PType,
    nulls: &mut N,
    list: &Vec<Value>,
) -> VortexResult<PrimitiveValues>
    requires { N.told nulls.old ≡ [] }
    ensures kind { IfOk result (λ v. ptype_of v ≡ ptype) }
    ensures rows { RowsRead N.mode (pos 0) (integer_spelled ptype) (items_view list.now.items) result (λ v. values_of v) (N.told nulls.new) }
{
    match ptype {
        PType::U8 => numbers::<u8, PType, InRange, N>(alloc, ptype, &InRange, nulls, list),
        PType::U16 => numbers::<u16, PType, InRange, N>(alloc, ptype, &InRange, nulls, list),
        PType::U32 => numbers::<u32, PType, InRange, N>(alloc, ptype, &InRange, nulls, list),
        PType::U64 => numbers::<u64, PType, InRange, N>(alloc, ptype, &InRange, nulls, list),
        PType::I8 => numbers::<i8, PType, InRange, N>(alloc, ptype, &InRange, nulls, list),
        PType::I16 => numbers::<i16, PType, InRange, N>(alloc, ptype, &InRange, nulls, list),
        PType::I32 => numbers::<i32, PType, InRange, N>(alloc, ptype, &InRange, nulls, list),
        PType::I64 => numbers::<i64, PType, InRange, N>(alloc, ptype, &InRange, nulls, list),
    }
}

/// Reads a boolean, or returns false for a null row.
#[inline]
fn boolean_or(null: bool, value: &Value) -> Option<bool>
    ensures { result ≡ read_unless null false (as_bool (view value.now)) }
{
    if null { Some(false) } else { value.as_bool() }
}

/// Reads a list of booleans, and records in `nulls` which rows aren't null. Returns the booleans, false for null.
/// `InvalidArgument(BadValue)` if an item is neither a boolean nor a null row.
pub(crate) fn booleans<N: RowNulls>(
    alloc: Global,
    nulls: &mut N,
    list: &Vec<Value>,
) -> VortexResult<BitBuffer>
    requires { N.told nulls.old ≡ [] }
    ensures { RowsRead N.mode false as_bool (items_view list.now.items) result (λ bits. bits) (N.told nulls.new) }
{
    let mut bits = BitBuilder::with_capacity(alloc, list.len())?;
    for value in list {
        let null = N::is_null_row(value);
        let Some(bit) = boolean_or(null, value) else {
            return Err(BAD_VALUE);
        };
        bits.push(bit)?;
        nulls.tell(!null)?;
    }
    Ok(bits.finish(alloc)?)
}
