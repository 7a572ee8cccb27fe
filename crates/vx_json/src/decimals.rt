//! Values of decimals, and lists of them.

ghost use Rattle.std.specs.Prelude.{◌≡◌, ◌≢◌, ℤ, pos, true, [], Some, None, IfSome, IfNone, IfOk, IfErr};
ghost use Rattle.std.specs.Fmt.{signed_decimal};
ghost use Rattle.serde_json.specs.View.{view, items_view};
ghost use Rattle.vx_value.specs.Decimals.{has_digits, smallest_width};
ghost use Rattle.vx_tree.specs.DecimalNumbers.{numbers_of, decimal_type_of};
ghost use Rattle.vx_json.specs.ReadRows.{RowsRead};
ghost use Rattle.vx_json.specs.Refused.{IsRefused};
ghost use Rattle.vx_json.specs.SpelledValues.{decimal_in, decimal_spelled};

use crate::BAD_VALUE;
use crate::numbers::{NumberReader, numbers};
use crate::row_nulls::RowNulls;
use itoa::Buffer as TextBuffer;
use serde_json::Value;
use std::alloc::Global;
use vx_tree::{DecimalValues, NativeDecimalType, narrowed};
use vx_value::{DecimalDType, DecimalType, DecimalValue, Digits, VortexResult};

/// Reads a number in decimal, without `+`, leading zeros or `-0`. `None` unless `text` is such a number and is within `digits`.
#[tactic(auto, using(crate::proofs::SpelledDecimalsLemmas::unparsed, crate::proofs::SpelledDecimalsLemmas::unwritten))]
fn unscaled(text: &str, digits: Digits) -> Option<i128>
    ensures value { result ≡ decimal_in digits.precision text.now }
    ensures written { IfSome result (λ z. signed_decimal z ≡ text.now) }
    ensures digits { IfSome result (λ z. has_digits digits.precision z ≡ true) }
    ensures unwritten { IfNone result ((z : ℤ) → has_digits digits.precision z ≡ true → signed_decimal z ≢ text.now) }
{
    let unscaled = text.parse::<i128>().ok()?;
    if digits.contain(unscaled) && TextBuffer::new().format(unscaled) == text {
        Some(unscaled)
    } else {
        None
    }
}

/// Reads a number without its point, from a string. `None` unless it is within `digits`.
fn decimal(digits: Digits, value: &Value) -> Option<i128>
    ensures value { result ≡ decimal_spelled digits.precision (view value.now) }
    ensures digits { IfSome result (λ z. has_digits digits.precision z ≡ true) }
{
    unscaled(value.as_str()?, digits)
}

/// Reads a value of type `decimal`. `InvalidArgument(BadValue)` if it isn't one.
pub(crate) fn decimal_value(dtype: &DecimalDType, value: &Value) -> VortexResult<DecimalValue>
    ensures ok { IfOk result (λ d. decimal_spelled dtype.now.precision (view value.now) ≡ Some d.unscaled) }
    ensures scale { IfOk result (λ d. d.scale ≡ dtype.now.scale) }
    ensures err { IfErr result (IsRefused (decimal_spelled dtype.now.precision (view value.now) ≡ None)) }
{
    let Some(unscaled) = decimal(dtype.digits(), value) else {
        return Err(BAD_VALUE);
    };
    let scale = dtype.scale();
    Ok(DecimalValue { unscaled, scale })
}

/// Reads numbers without their points, which must be within the digits, as integers of the narrowest width that holds them all.
impl<T: NativeDecimalType> NumberReader<T> for Digits {
    ghost fits = { λ digits. T.kind ≡ smallest_width digits.precision };

    ghost spelled = { λ digits. decimal_spelled digits.precision };

    fn number(&self, value: &Value) -> Option<T> {
        Some(narrowed(decimal(*self, value)?))
    }
}

/// Reads a list of numbers of type `decimal`, without their points, and records in `nulls` which rows aren't null. Returns the
/// numbers as integers of the narrowest width that holds all of the type, 0 for null. `InvalidArgument(BadValue)` if an item is
/// neither such a number nor a null row.
pub(crate) fn decimals<N: RowNulls>(
    alloc: Global,
    decimal: &DecimalDType,
    nulls: &mut N,
    list: &Vec<Value>,
) -> VortexResult<DecimalValues>
    requires { N.told nulls.old ≡ [] }
    ensures kind { IfOk result (λ v. decimal_type_of v ≡ smallest_width decimal.now.precision) }
    ensures rows { RowsRead N.mode (pos 0) (decimal_spelled decimal.now.precision) (items_view list.now.items) result (λ v. numbers_of v) (N.told nulls.new) }
{
    let digits = decimal.digits();
    let width = DecimalType::smallest_decimal_value_type(decimal);
    match width {
        DecimalType::I8 => numbers::<i8, DecimalType, Digits, N>(
            alloc, width, &digits, nulls, list,
        ),
        DecimalType::I16 => numbers::<i16, DecimalType, Digits, N>(
            alloc, width, &digits, nulls, list,
        ),
        DecimalType::I32 => numbers::<i32, DecimalType, Digits, N>(
            alloc, width, &digits, nulls, list,
        ),
        DecimalType::I64 => numbers::<i64, DecimalType, Digits, N>(
            alloc, width, &digits, nulls, list,
        ),
        DecimalType::I128 => numbers::<i128, DecimalType, Digits, N>(
            alloc, width, &digits, nulls, list,
        ),
    }
}
