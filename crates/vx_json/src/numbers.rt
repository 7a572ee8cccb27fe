//! Lists of numbers of a native type.

ghost use Rattle.std.specs.Prelude.{◌≡◌, ℤ, pos, [], Option, option_map, IfOk};
ghost use Rattle.serde_json.specs.Data.{Data};
ghost use Rattle.serde_json.specs.View.{view, items_view};
ghost use Rattle.vx_json.specs.ReadRows.{read_unless, RowsRead};

use crate::BAD_VALUE;
use crate::row_nulls::RowNulls;
use serde_json::Value;
use std::alloc::Global;
use vx_mask::Buffer;
use vx_tree::{NativeKind, NativeNumber, NativeValues};
use vx_value::VortexResult;

/// Readers of numbers of type `T`.
pub(crate) trait NumberReader<T: NativeNumber> {
    // each number that it reads is one of `T`
    ghost fits: { Self → Type 0 };

    // the number that a value spells
    ghost spelled: { Self → Data → Option ℤ };

    /// Reads a number; `None` if `value` spells none.
    fn number(&self, value: &Value) -> Option<T>
        requires { fits self.now }
        ensures { option_map T.value result ≡ spelled self.now (view value.now) };
}

/// Reads a number by `reader`, or returns 0 for a null row.
#[inline]
fn number_or_zero<T: NativeNumber, R: NumberReader<T>>(
    null: bool,
    reader: &R,
    value: &Value,
) -> Option<T>
    requires { R.fits reader.now }
    ensures { option_map T.value result ≡ read_unless null (pos 0) (R.spelled reader.now (view value.now)) }
{
    if null {
        Some(T::zero())
    } else {
        reader.number(value)
    }
}

/// Reads a list of numbers by `reader`, and records in `nulls` which rows aren't null. Returns the numbers, 0 for null; `kind`
/// must name their type. `InvalidArgument(BadValue)` if an item is neither a number nor a null row.
pub(crate) fn numbers<T: NativeNumber, K: NativeKind, R: NumberReader<T>, N: RowNulls>(
    alloc: Global,
    kind: K,
    reader: &R,
    nulls: &mut N,
    list: &Vec<Value>,
) -> VortexResult<NativeValues<K>>
    requires kind { T.native ≡ K.native kind }
    requires fits { R.fits reader.now }
    requires untold { N.told nulls.old ≡ [] }
    ensures kind { IfOk result (λ v. v.kind ≡ kind) }
    ensures rows { RowsRead N.mode (pos 0) (R.spelled reader.now) (items_view list.now.items) result (λ v. v.numbers) (N.told nulls.new) }
{
    let mut numbers: Vec<T> = Vec::with_capacity(alloc, list.len())?;
    for value in list {
        let null = N::is_null_row(value);
        let Some(number) = number_or_zero(null, reader, value) else {
            return Err(BAD_VALUE);
        };
        numbers.push_reserved(number);
        nulls.tell(!null)?;
    }
    Ok(NativeValues::new(kind, Buffer::from_vec(alloc, numbers)?))
}
