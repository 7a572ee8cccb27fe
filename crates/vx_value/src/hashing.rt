//! Hashes of types and values.

ghost use Rattle.std.specs.Prelude.{◌≡◌, fold};
ghost use Rattle.vx_value.specs.View.{type_of, fields_of, variants_of, value_of, cell_of, values_of};
ghost use Rattle.vx_value.specs.Writes.{type_writes, fields_writes, variants_writes, value_writes, values_writes};

use crate::{DType, Field, ScalarValue, UnionVariant};
use std::hash::{Hash, Hasher};

/// Writes `dtype`.
#[cycle(type_hashes)]
pub(crate) fn hash_type<H: Hasher>(dtype: &DType, state: &mut H)
    ensures { state.new ≡ fold H.write state.old (type_writes (type_of dtype.now)) }
{
    match dtype {
        DType::Null => state.write_u8(0),
        DType::Bool(nullability) => {
            state.write_u8(1);
            nullability.hash(state);
        }
        DType::Primitive(ptype, nullability) => {
            state.write_u8(2);
            ptype.hash(state);
            nullability.hash(state);
        }
        DType::Decimal(decimal, nullability) => {
            state.write_u8(3);
            state.write_u8(decimal.precision());
            state.write_u8(decimal.scale());
            nullability.hash(state);
        }
        DType::Utf8(nullability) => {
            state.write_u8(4);
            nullability.hash(state);
        }
        DType::Binary(nullability) => {
            state.write_u8(5);
            nullability.hash(state);
        }
        DType::List(element, nullability) => {
            state.write_u8(6);
            nullability.hash(state);
            hash_type(element, state);
        }
        DType::FixedSizeList(element, size, nullability) => {
            state.write_u8(7);
            nullability.hash(state);
            size.hash(state);
            hash_type(element, state);
        }
        DType::Map(map, nullability) => {
            state.write_u8(8);
            nullability.hash(state);
            hash_type(&map.entry, state);
        }
        DType::Struct(fields, nullability) => {
            state.write_u8(9);
            nullability.hash(state);
            hash_fields(&fields.fields, state);
        }
        DType::Union(variants, nullability) => {
            state.write_u8(10);
            nullability.hash(state);
            hash_variants(&variants.variants, state);
        }
        DType::Variant(nullability) => {
            state.write_u8(11);
            nullability.hash(state);
        }
        DType::Extension(extension) => {
            state.write_u8(12);
            extension.id.as_str().hash(state);
            hash_type(&extension.storage, state);
        }
    }
}

#[cycle(type_hashes)]
fn hash_fields<H: Hasher>(fields: &[Field], state: &mut H)
    ensures { state.new ≡ fold H.write state.old (fields_writes (fields_of fields.now)) }
{
    for field in fields {
        field.name.as_str().hash(state);
        hash_type(&field.dtype, state);
    }
    state.write_u8(0);
}

#[cycle(type_hashes)]
fn hash_variants<H: Hasher>(variants: &[UnionVariant], state: &mut H)
    ensures { state.new ≡ fold H.write state.old (variants_writes (variants_of variants.now)) }
{
    for variant in variants {
        state.write_u8(variant.tag);
        variant.name.as_str().hash(state);
        hash_type(&variant.dtype, state);
    }
    state.write_u8(0);
}

/// Writes `value`. `None` is null.
#[cycle(value_hashes)]
pub(crate) fn hash_value<H: Hasher>(value: &Option<ScalarValue>, state: &mut H)
    ensures { state.new ≡ fold H.write state.old (value_writes (cell_of value.now)) }
{
    match value {
        None => state.write_u8(0),
        Some(value) => hash_present(value, state),
    }
}

/// Writes a value that isn't null.
#[cycle(value_hashes)]
fn hash_present<H: Hasher>(value: &ScalarValue, state: &mut H)
    ensures { state.new ≡ fold H.write state.old (value_writes (value_of value.now)) }
{
    match value {
        ScalarValue::Bool(boolean) => {
            state.write_u8(1);
            boolean.hash(state);
        }
        ScalarValue::Integer(number) => {
            state.write_u8(2);
            number.hash(state);
        }
        ScalarValue::Decimal(number) => {
            state.write_u8(3);
            number.unscaled.hash(state);
            number.scale.hash(state);
        }
        ScalarValue::Bytes(bytes) => {
            state.write_u8(4);
            bytes.hash(state);
        }
        ScalarValue::List(values) => {
            state.write_u8(5);
            hash_values(&values.items, state);
        }
        ScalarValue::Struct(values) => {
            state.write_u8(6);
            hash_values(&values.items, state);
        }
        ScalarValue::Union(tag, value) => {
            state.write_u8(7);
            state.write_u8(*tag);
            hash_value(value, state);
        }
        ScalarValue::Variant(dtype, value) => {
            state.write_u8(8);
            hash_type(dtype, state);
            hash_value(value, state);
        }
    }
}

#[cycle(value_hashes)]
#[tactic(auto, using(crate::proofs::ValuesLemmas::item_lower))]
fn hash_values<H: Hasher>(values: &[Option<ScalarValue>], state: &mut H)
    ensures { state.new ≡ fold H.write state.old (values_writes (values_of values.now)) }
{
    for value in values {
        hash_value(value, state);
    }
    state.write_u8(9);
}
