//! Single values of a type.
//!
//! The recursion is over the JSON value, since the type of a variant stands beside its value.

ghost use Rattle.std.specs.Prelude.{◌≡◌, IfOk};
ghost use Rattle.serde_json.specs.View.{view, items_view};
ghost use Rattle.vx_value.specs.Errors.{OnlyOutOfMemory};
ghost use Rattle.vx_value.specs.Nested.{fields_count};
ghost use Rattle.vx_value.specs.Values.{variant};
ghost use Rattle.vx_value.specs.View.{type_of, fields_of, cell_of, value_of};
ghost use Rattle.vx_json.specs.Fields.{keyed};
ghost use Rattle.vx_json.specs.Refused.{IsRead, IsReadAs};
ghost use Rattle.vx_json.specs.SpelledNodes.Constant.{scalar_of};
ghost use Rattle.vx_json.specs.SpelledValues.{plain_spelled, value_in, items_in, entry_in, entries_in, chosen_in, fields_spelled, variant_spelled, value_at, entry_of};
ghost use Rattle.vx_json.specs.SpelledTypes.{tag_spelled};
ghost use Rattle.vx_json.specs.SpelledValues.{array_in, object_in, entry_with, tagged_with};

use crate::BAD_VALUE;
use crate::bytes::byte_buffer;
use crate::decimals::decimal_value;
use crate::fields::check_keys;
use crate::types::{tag_in, type_at};
use crate::values::integer;
use serde_json::Value;
use std::alloc::Global;
use vx_value::{
    DType, Field, MapDType, Scalar, ScalarValue, ScalarValues, StructFields, TypeRef,
    UnionVariants, ValueRef, VortexResult,
};

/// Reads a value of type `dtype`, or null if the type is nullable. `InvalidArgument(BadValue)` if it isn't one, or if a list in it
/// doesn't fit.
///
/// A value of a list or of a fixed-size list is an array of its elements, one of a map an array of `[key,value]`, one of a union
/// `[tag,value]`, one of a struct an object of exactly its fields, one of a variant `{"type":T,"value":v}`, and one of an extension a
/// value of its storage.
pub(crate) fn scalar(alloc: Global, dtype: &DType, value: &Value) -> VortexResult<Scalar>
    ensures read { IsRead (scalar_of (view value.now) (type_of dtype.now)) result }
    ensures typed { IfOk result (λ s. s.of_type ≡ type_of dtype.now) }
{
    let value = value_in(alloc, dtype, value)?;
    match Scalar::try_new(dtype.clone()?, value) {
        Ok(scalar) => Ok(scalar),
        Err(_) => Err(BAD_VALUE),
    }
}

/// Reads what is spelled as a value of type `dtype`. `InvalidArgument(BadValue)` if it is of another form.
#[cycle(value_in)]
#[tactic(auto, using(crate::proofs::ScalarsLemmas::spelled_value))]
fn value_in(alloc: Global, dtype: &DType, value: &Value) -> VortexResult<Option<ScalarValue>>
    ensures { IsReadAs cell_of (value_in (type_of dtype.now) (view value.now)) result }
{
    if let Some(list) = value.as_array() {
        return array_in(alloc, dtype.bare(), list);
    }
    if value.is_object() {
        return object_in(alloc, dtype.bare(), value);
    }
    plain(alloc, dtype.bare(), value)
}

/// Reads what an array spells as a value of type `dtype`: a line for each type with such values.
#[cycle(value_in)]
fn array_in(alloc: Global, dtype: &DType, list: &Vec<Value>) -> VortexResult<Option<ScalarValue>>
    ensures { IsReadAs cell_of (array_in (type_of dtype.now) (items_view list.now.items)) result }
{
    match dtype {
        DType::List(element, _) => Ok(Some(ScalarValue::List(items_in(alloc, element, list)?))),
        DType::FixedSizeList(element, _, _) => {
            Ok(Some(ScalarValue::List(items_in(alloc, element, list)?)))
        }
        DType::Map(map, _) => Ok(Some(ScalarValue::List(entries_in(alloc, map, list)?))),
        DType::Union(variants, _) => Ok(Some(chosen_in(alloc, variants, list)?)),
        _ => Err(BAD_VALUE),
    }
}

/// Reads what an object spells as a value of type `dtype`: a line for each type with such values.
#[cycle(value_in)]
fn object_in(alloc: Global, dtype: &DType, value: &Value) -> VortexResult<Option<ScalarValue>>
    ensures { IsReadAs cell_of (object_in (type_of dtype.now) (view value.now)) result }
{
    match dtype {
        DType::Struct(fields, _) => Ok(Some(ScalarValue::Struct(struct_in(alloc, fields, value)?))),
        DType::Variant(_) => Ok(Some(variant_in(alloc, value)?)),
        _ => Err(BAD_VALUE),
    }
}

/// Reads a list of values of type `dtype`.
#[cycle(value_in)]
fn items_in(alloc: Global, dtype: &DType, list: &Vec<Value>) -> VortexResult<ScalarValues>
    ensures { IsRead (items_in (type_of dtype.now) (items_view list.now.items)) result }
{
    let mut values = Vec::with_capacity(alloc, list.len())?;
    for value in list {
        values.push_reserved(value_in(alloc, dtype, value)?);
    }
    ScalarValues::new(alloc, values)
}

/// Reads a list of entries of a map.
#[cycle(value_in)]
fn entries_in(alloc: Global, map: &MapDType, list: &Vec<Value>) -> VortexResult<ScalarValues>
    ensures { IsRead (entries_in map.now.0 map.now.1 (items_view list.now.items)) result }
{
    let mut entries = Vec::with_capacity(alloc, list.len())?;
    for value in list {
        entries.push_reserved(Some(entry_in(alloc, map, value)?));
    }
    ScalarValues::new(alloc, entries)
}

/// Reads an entry of a map, from a list of its key and its value. `InvalidArgument(BadValue)` if it isn't one.
#[cycle(value_in)]
#[tactic(auto, using(crate::proofs::ScalarsLemmas::entry_none))]
fn entry_in(alloc: Global, map: &MapDType, value: &Value) -> VortexResult<ScalarValue>
    ensures { IsReadAs value_of (entry_in map.now.0 map.now.1 (view value.now)) result }
{
    let Some(list) = value.as_array() else {
        return Err(BAD_VALUE);
    };
    match list.as_slice() {
        [key, item] => pair_in(alloc, map, key, item),
        _ => Err(BAD_VALUE),
    }
}

/// Reads an entry of a map, from its key and its value.
#[cycle(value_in)]
fn pair_in(alloc: Global, map: &MapDType, key: &Value, item: &Value) -> VortexResult<ScalarValue>
    ensures { IsReadAs value_of (entry_with (value_in map.now.0 (view key.now)) (value_in map.now.1 (view item.now))) result }
{
    let key = value_in(alloc, map.key(), key)?;
    let item = value_in(alloc, map.value(), item)?;
    entry(alloc, key, item)
}

/// Makes an entry of a map. Fails only with `OutOfMemory`.
fn entry(
    alloc: Global,
    key: Option<ScalarValue>,
    value: Option<ScalarValue>,
) -> VortexResult<ScalarValue>
    ensures ok { IfOk result (λ e. value_of e ≡ entry_of (cell_of key) (cell_of value)) }
    ensures err { OnlyOutOfMemory result }
{
    let mut parts = Vec::with_capacity(alloc, 2)?;
    parts.push(key)?;
    parts.push(value)?;
    Ok(ScalarValue::Struct(ScalarValues::new(alloc, parts)?))
}

/// Reads a value of a union with these `variants`, from a list of its tag and its value. `InvalidArgument(BadValue)` if it isn't one.
#[cycle(value_in)]
fn chosen_in(
    alloc: Global,
    variants: &UnionVariants,
    list: &Vec<Value>,
) -> VortexResult<ScalarValue>
    ensures { IsReadAs value_of (chosen_in variants.now (items_view list.now.items)) result }
{
    match list.as_slice() {
        [tag, item] => tagged_in(alloc, variants, tag, item),
        _ => Err(BAD_VALUE),
    }
}

/// Reads a value of a union with these `variants`, from its tag and its value. `InvalidArgument(BadValue)` if there is no such tag.
#[cycle(value_in)]
fn tagged_in(
    alloc: Global,
    variants: &UnionVariants,
    tag: &Value,
    item: &Value,
) -> VortexResult<ScalarValue>
    ensures { IsReadAs value_of (tagged_with variants.now (tag_spelled (view tag.now)) (λ t. value_in t (view item.now))) result }
{
    let Some(tag) = tag_in(tag) else {
        return Err(BAD_VALUE);
    };
    let Some(dtype) = variants.variant(tag) else {
        return Err(BAD_VALUE);
    };
    let value = value_in(alloc, dtype, item)?;
    Ok(ScalarValue::Union(tag, ValueRef::new(alloc, value)?))
}

/// Reads the values of a struct with these `fields`, from an object of exactly these. `InvalidArgument(BadValue)` if it isn't one.
#[cycle(value_in)]
fn struct_in(alloc: Global, fields: &StructFields, value: &Value) -> VortexResult<ScalarValues>
    ensures { IsRead (keyed (fields_count fields.now) (view value.now) (fields_spelled (value_at (view value.now)) fields.now)) result }
{
    check_keys(value, fields.nfields())?;
    fields_in(alloc, fields.as_slice(), value)
}

/// Reads a value of the type of each of `fields`, under its name.
#[cycle(value_in)]
fn fields_in(alloc: Global, fields: &[Field], value: &Value) -> VortexResult<ScalarValues>
    ensures { IsRead (fields_spelled (value_at (view value.now)) (fields_of fields.now)) result }
{
    let mut values = Vec::with_capacity(alloc, fields.len())?;
    for field in fields {
        values.push_reserved(field_in(alloc, field, value)?);
    }
    ScalarValues::new(alloc, values)
}

/// Reads a value of the type of `field`, under its name. `InvalidArgument(BadValue)` if none is spelled there.
#[cycle(value_in)]
fn field_in(alloc: Global, field: &Field, value: &Value) -> VortexResult<Option<ScalarValue>>
    ensures { IsReadAs cell_of (value_at (view value.now) field.now.name (type_of field.now.dtype)) result }
{
    match value.get(field.name.as_str()) {
        Some(spelled) => value_in(alloc, &field.dtype, spelled),
        None => Err(BAD_VALUE),
    }
}

/// Reads a value of type variant, from an object of its type and its value. `InvalidArgument(BadValue)` if it isn't one.
#[cycle(value_in)]
fn variant_in(alloc: Global, value: &Value) -> VortexResult<ScalarValue>
    ensures { IsReadAs value_of (keyed 2 (view value.now) (variant_spelled (view value.now) (value_at (view value.now)))) result }
{
    check_keys(value, 2)?;
    let dtype = type_at(alloc, value)?;
    match value.get("value") {
        Some(spelled) => {
            let part = value_in(alloc, &dtype, spelled)?;
            variant(alloc, dtype, part)
        }
        None => Err(BAD_VALUE),
    }
}

/// Makes a value of type variant. Fails only with `OutOfMemory`.
fn variant(alloc: Global, dtype: DType, value: Option<ScalarValue>) -> VortexResult<ScalarValue>
    ensures ok { IfOk result (λ v. value_of v ≡ variant (type_of dtype) (cell_of value)) }
    ensures err { OnlyOutOfMemory result }
{
    let value = ValueRef::new(alloc, value)?;
    Ok(ScalarValue::Variant(TypeRef::new(alloc, dtype)?, value))
}

/// Reads a value of type `dtype` that is neither an array nor an object, or null if the type is nullable. `InvalidArgument(BadValue)` if
/// it is of another form.
fn plain(alloc: Global, dtype: &DType, value: &Value) -> VortexResult<Option<ScalarValue>>
    ensures { IsReadAs cell_of (plain_spelled (type_of dtype.now) (view value.now)) result }
{
    if value.is_null() && dtype.is_nullable() {
        return Ok(None);
    }
    Ok(Some(match dtype {
        DType::Bool(_) => ScalarValue::Bool(value.as_bool().ok_or(BAD_VALUE)?),
        DType::Primitive(_, _) => ScalarValue::Integer(integer(value).ok_or(BAD_VALUE)?),
        DType::Decimal(decimal, _) => ScalarValue::Decimal(decimal_value(decimal, value)?),
        _ => ScalarValue::Bytes(byte_buffer(alloc, dtype.storage(), value)?),
    }))
}
