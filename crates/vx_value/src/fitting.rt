//! Which columns can be made.

ghost use Rattle.std.specs.Prelude.{◌≡◌};
ghost use Rattle.vx_value.specs.View.{type_of, fields_of, variants_of, value_of, cell_of, values_of};
ghost use Rattle.vx_value.specs.Values.{count};
ghost use Rattle.vx_value.specs.Nested.{tag_type, the_type};
ghost use Rattle.vx_value.specs.Fits.{fits, or_else, overflow, fields_overflow, variants_overflow, list_overflow, each_overflow, named_overflow};

use crate::{DType, Field, ScalarValue, ScalarValues, UnionVariant};

/// Checks whether a column of type `dtype` and `rows` rows can be made, with all of its nested columns. (own)
pub fn fits(dtype: &DType, rows: usize) -> bool
    ensures { result ≡ fits (type_of dtype.now) rows }
{
    overflow(dtype, rows).is_none()
}

/// Returns the length and the size of the first fixed-size lists that have more than `usize::MAX` elements together, in a
/// column of type `dtype` and `rows` rows; `None` if there are none. (own)
#[cycle(overflow)]
pub fn overflow(dtype: &DType, rows: usize) -> Option<(usize, usize)>
    ensures { result ≡ overflow (type_of dtype.now) rows }
{
    match dtype {
        DType::FixedSizeList(element, size, _) => match rows.checked_mul(*size as usize) {
            Some(elements) => overflow(element, elements),
            None => Some((rows, *size as usize)),
        },
        DType::Struct(fields, _) => fields_overflow(&fields.fields, rows),
        DType::Union(variants, _) => variants_overflow(&variants.variants, rows),
        DType::Extension(extension) => overflow(&extension.storage, rows),
        _ => None,
    }
}

#[cycle(overflow)]
fn fields_overflow(fields: &[Field], rows: usize) -> Option<(usize, usize)>
    ensures { result ≡ fields_overflow (fields_of fields.now) rows }
{
    for field in fields {
        let found = overflow(&field.dtype, rows);
        if found.is_some() {
            return found;
        }
    }
    None
}

#[cycle(overflow)]
fn variants_overflow(variants: &[UnionVariant], rows: usize) -> Option<(usize, usize)>
    ensures { result ≡ variants_overflow (variants_of variants.now) rows }
{
    for variant in variants {
        let found = overflow(&variant.dtype, rows);
        if found.is_some() {
            return found;
        }
    }
    None
}

/// Returns the length and the size of the first fixed-size lists with too many elements, in the columns of elements that the
/// lists in a value would have; `None` if there are none. The value, where `None` is null, is of type `dtype`.
#[cycle(lists)]
pub(crate) fn list_overflow(value: &Option<ScalarValue>, dtype: &DType) -> Option<(usize, usize)>
    ensures { result ≡ list_overflow (type_of dtype.now) (cell_of value.now) }
{
    match value {
        None => None,
        Some(value) => value_overflow(value, dtype),
    }
}

#[cycle(lists)]
fn value_overflow(value: &ScalarValue, dtype: &DType) -> Option<(usize, usize)>
    ensures { result ≡ list_overflow (type_of dtype.now) (value_of value.now) }
{
    match (dtype.bare(), value) {
        (DType::List(element, _), ScalarValue::List(values)) => elements_overflow(values, element),
        (DType::FixedSizeList(element, _, _), ScalarValue::List(values)) => {
            each_overflow(&values.items, element)
        }
        (DType::Map(map, _), ScalarValue::List(values)) => elements_overflow(values, &map.entry),
        (DType::Struct(fields, _), ScalarValue::Struct(values)) => {
            named_overflow(&values.items, &fields.fields)
        }
        (DType::Union(variants, _), ScalarValue::Union(tag, value)) => {
            chosen_overflow(value, *tag, &variants.variants)
        }
        (DType::Variant(_), ScalarValue::Variant(dtype, value)) => list_overflow(value, dtype),
        _ => None,
    }
}

/// Does the same for a list with elements of type `dtype`.
#[cycle(lists)]
fn elements_overflow(values: &ScalarValues, dtype: &DType) -> Option<(usize, usize)>
    ensures { result ≡ or_else (overflow (type_of dtype.now) (count values.now)) (each_overflow (type_of dtype.now) values.now) }
{
    let found = overflow(dtype, values.len());
    if found.is_some() {
        return found;
    }
    each_overflow(&values.items, dtype)
}

/// Does the same for the values of a list.
#[cycle(lists)]
#[tactic(auto, using(crate::proofs::ValuesLemmas::item_lower))]
fn each_overflow(values: &[Option<ScalarValue>], dtype: &DType) -> Option<(usize, usize)>
    ensures { result ≡ each_overflow (type_of dtype.now) (values_of values.now) }
{
    for value in values {
        let found = list_overflow(value, dtype);
        if found.is_some() {
            return found;
        }
    }
    None
}

/// Does the same for the fields of a struct.
#[cycle(lists)]
#[tactic(auto, using(crate::proofs::ValuesLemmas::item_lower, crate::proofs::FitsLemmas::named_at, crate::proofs::FitsLemmas::named_past))]
fn named_overflow(values: &[Option<ScalarValue>], fields: &[Field]) -> Option<(usize, usize)>
    ensures { result ≡ named_overflow (fields_of fields.now) (values_of values.now) }
{
    for i in 0..fields.len() {
        if i >= values.len() {
            return None;
        }
        let found = list_overflow(&values[i], &fields[i].dtype);
        if found.is_some() {
            return found;
        }
    }
    None
}

/// Does the same for a union's value with the tag `tag`.
#[cycle(lists)]
fn chosen_overflow(
    value: &Option<ScalarValue>,
    tag: u8,
    variants: &[UnionVariant],
) -> Option<(usize, usize)>
    ensures { result ≡ list_overflow (the_type (tag_type tag (variants_of variants.now))) (cell_of value.now) }
{
    for variant in variants {
        if tag == variant.tag {
            return list_overflow(value, &variant.dtype);
        }
    }
    None
}
