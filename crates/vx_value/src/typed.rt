//! Which values are of a type.

ghost use Rattle.std.specs.Prelude.{◌≡◌, ◌&&◌, is_some};
ghost use Rattle.vx_value.specs.View.{type_of, fields_of, variants_of, value_of, cell_of, values_of};
ghost use Rattle.vx_value.specs.IsOf.{is_of, all_of, are_of};
ghost use Rattle.vx_value.specs.Nested.{tag_type, the_type};

use crate::scalar::in_range;
use crate::{DType, Field, ScalarValue, UnionVariant};

/// Checks whether `value` is of type `dtype`. `None` is null.
#[cycle(is_of)]
pub(crate) fn is_of(value: &Option<ScalarValue>, dtype: &DType) -> bool
    ensures { result ≡ is_of (type_of dtype.now) (cell_of value.now) }
{
    match value {
        None => dtype.is_nullable(),
        Some(value) => is_value_of(value, dtype),
    }
}

/// Checks whether `value` is of type `dtype`.
#[cycle(is_of)]
#[tactic(auto, using(crate::proofs::TypedLemmas::present_typed, crate::proofs::TypedLemmas::count_length))]
fn is_value_of(value: &ScalarValue, dtype: &DType) -> bool
    ensures { result ≡ is_of (type_of dtype.now) (value_of value.now) }
{
    match (dtype.bare(), value) {
        (DType::Bool(_), ScalarValue::Bool(_)) => true,
        (DType::Primitive(ptype, _), ScalarValue::Integer(number)) => in_range(*ptype, *number),
        (DType::Decimal(dtype, _), ScalarValue::Decimal(number)) => {
            number.scale == dtype.scale() && dtype.has_digits(number.unscaled)
        }
        (DType::Utf8(_), ScalarValue::Bytes(bytes)) => bytes.as_str().is_some(),
        (DType::Binary(_), ScalarValue::Bytes(_)) => true,
        (DType::List(element, _), ScalarValue::List(values)) => all_of(&values.items, element),
        (DType::FixedSizeList(element, size, _), ScalarValue::List(values)) => {
            values.len() == *size as usize && all_of(&values.items, element)
        }
        (DType::Map(map, _), ScalarValue::List(values)) => all_of(&values.items, &map.entry),
        (DType::Struct(fields, _), ScalarValue::Struct(values)) => {
            are_of(&values.items, &fields.fields)
        }
        (DType::Union(variants, _), ScalarValue::Union(tag, value)) => {
            is_chosen(value, *tag, &variants.variants)
        }
        (DType::Variant(_), ScalarValue::Variant(dtype, value)) => is_of(value, dtype),
        _ => false,
    }
}

/// Checks whether all of `values` are of type `dtype`. `None` is null.
#[cycle(is_of)]
#[tactic(auto, using(crate::proofs::ValuesLemmas::item_lower))]
fn all_of(values: &[Option<ScalarValue>], dtype: &DType) -> bool
    ensures { result ≡ all_of (type_of dtype.now) (values_of values.now) }
{
    for value in values {
        if !is_of(value, dtype) {
            return false;
        }
    }
    true
}

/// Checks whether `values` are a value for each of `fields`. `None` is null.
#[cycle(is_of)]
#[tactic(auto, using(crate::proofs::ValuesLemmas::item_lower, crate::proofs::TypedLemmas::counts_differ))]
fn are_of(values: &[Option<ScalarValue>], fields: &[Field]) -> bool
    ensures { result ≡ are_of (fields_of fields.now) (values_of values.now) }
{
    if fields.len() != values.len() {
        return false;
    }
    for i in 0..fields.len() {
        if !is_of(&values[i], &fields[i].dtype) {
            return false;
        }
    }
    true
}

/// Checks whether `value` is of the variant with tag `tag`. `None` is null.
#[cycle(is_of)]
fn is_chosen(value: &Option<ScalarValue>, tag: u8, variants: &[UnionVariant]) -> bool
    ensures { result ≡ (is_some (tag_type tag (variants_of variants.now))
        && is_of (the_type (tag_type tag (variants_of variants.now))) (cell_of value.now)) }
{
    for variant in variants {
        if tag == variant.tag {
            return is_of(value, &variant.dtype);
        }
    }
    false
}
