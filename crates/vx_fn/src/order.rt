//! The order of values.

ghost use Rattle.std.specs.Prelude.{◌≡◌, ◌&&◌, if◌then◌else◌};
ghost use Rattle.std.specs.Ordering.{nat_cmp};
ghost use Rattle.vx_value.specs.View.{type_of, value_of};
ghost use Rattle.vx_value.specs.Order.{is_unnested, value_kind};
ghost use Rattle.vx_fn.specs.Comparisons.{is_ordered, compare, same_cmp};

use std::cmp::Ordering;
use vx_value::{DType, ScalarValue};

/// Checks whether values of type `dtype` can be ordered.
pub(crate) fn is_ordered(dtype: &DType) -> bool
    ensures { result ≡ is_ordered (type_of dtype.now) }
{
    match dtype {
        DType::Bool(_) | DType::Primitive(_, _) | DType::Decimal(_, _) => true,
        DType::Utf8(_) | DType::Binary(_) => true,
        _ => false,
    }
}

/// Compares two values. Nested values aren't ordered: they are `Equal` if they are the same, else `Less`.
///
/// No type has values of two kinds; these compare by their kinds.
pub(crate) fn compare(lhs: &ScalarValue, rhs: &ScalarValue) -> Ordering
    ensures { result ≡ compare (value_of lhs.now) (value_of rhs.now) }
{
    match (lhs, rhs) {
        (ScalarValue::Bool(lhs), ScalarValue::Bool(rhs)) => lhs.cmp(rhs),
        (ScalarValue::Integer(lhs), ScalarValue::Integer(rhs)) => lhs.cmp(rhs),
        (ScalarValue::Decimal(lhs), ScalarValue::Decimal(rhs)) => lhs.cmp(rhs),
        (ScalarValue::Bytes(lhs), ScalarValue::Bytes(rhs)) => lhs.cmp(rhs),
        _ => compare_kinds(lhs, rhs),
    }
}

/// Compares two values by their kinds, or, if one of them is nested, by whether they are the same.
fn compare_kinds(lhs: &ScalarValue, rhs: &ScalarValue) -> Ordering
    ensures { result ≡ (if is_unnested (value_of lhs.now) && is_unnested (value_of rhs.now)
        then nat_cmp (value_kind (value_of lhs.now)) (value_kind (value_of rhs.now))
        else same_cmp (value_of lhs.now) (value_of rhs.now)) }
{
    match (kind(lhs), kind(rhs)) {
        (Some(left), Some(right)) => left.cmp(&right),
        _ if lhs.same_value(rhs) => Ordering::Equal,
        _ => Ordering::Less,
    }
}

/// Returns the place of a value's kind in the order, or `None` for a nested value.
fn kind(value: &ScalarValue) -> Option<u8>
    ensures { result ≡ (if is_unnested (value_of value.now) then Some (value_kind (value_of value.now)) else None) }
{
    match value {
        ScalarValue::Bool(_) => Some(1),
        ScalarValue::Integer(_) => Some(2),
        ScalarValue::Decimal(_) => Some(3),
        ScalarValue::Bytes(_) => Some(4),
        _ => None,
    }
}
