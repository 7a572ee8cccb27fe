//! The types that JSON spells.

ghost use Rattle.std.specs.Prelude.{◌≡◌, ◌≤◌, true, option_map, option_and_then, codes, map, Some, IfOk};
ghost use Rattle.serde_json.specs.View.{view, items_view};
ghost use Rattle.serde_json.specs.Find.{get, as_str};
ghost use Rattle.vx_value.specs.View.{type_of};
ghost use Rattle.vx_value.specs.Supported.{has_columns};
ghost use Rattle.vx_json.specs.Refused.{IsRead, IsReadAs};
ghost use Rattle.vx_json.specs.SpelledTypes.{type_named, type_spelled, nullability_spelled, form_keys, form_nullability};
ghost use Rattle.vx_json.specs.SpelledTypes.{decimal_sized, decimal_listed, decimal_type_spelled, size_at, tag_spelled};
ghost use Rattle.vx_json.specs.SpelledTypes.{list_type_spelled, fixed_size_list_type_spelled, map_with, map_type_spelled};
ghost use Rattle.vx_json.specs.SpelledTypes.{struct_with, struct_type_spelled, union_with, union_type_spelled};
ghost use Rattle.vx_json.specs.SpelledTypes.{extension_with, extension_type_spelled, object_type_spelled};
ghost use Rattle.vx_json.specs.SpelledTypes.{both, type_in, pair_listed, named_listed, named_in, tagged_in, fields_listed, variants_listed};
ghost use Rattle.vx_json.specs.SpelledTypes.{element_at, listed_at, type_at, column_type_at, named_of, tagged_of};

use crate::BAD_VALUE;
use crate::fields::{check_keys, has, items, number};
use serde_json::Value;
use std::alloc::Global;
use vx_value::{
    DType, DecimalDType, ExtDType, Field, MapDType, Name, Nullability, PType, StructFields,
    TypeRef, UnionVariant, UnionVariants, VortexError, VortexResult, has_columns,
};

/// Returns the type named `name`, with this nullability. `null` isn't among them, as it is always nullable.
fn type_named(name: &str, nullability: Nullability) -> Option<DType>
    ensures { option_map type_of result ≡ type_named name.now nullability }
{
    let ptype = match name {
        "bool" => return Some(DType::Bool(nullability)),
        "u8" => PType::U8,
        "u16" => PType::U16,
        "u32" => PType::U32,
        "u64" => PType::U64,
        "i8" => PType::I8,
        "i16" => PType::I16,
        "i32" => PType::I32,
        "i64" => PType::I64,
        "utf8" => return Some(DType::Utf8(nullability)),
        "binary" => return Some(DType::Binary(nullability)),
        "variant" => return Some(DType::Variant(nullability)),
        _ => return None,
    };
    Some(DType::Primitive(ptype, nullability))
}

/// Returns the type that `text` spells: its name, followed by `?` if the type is nullable. Type null is always nullable, and
/// takes no `?`.
fn type_spelled(text: &str) -> Option<DType>
    ensures { option_map type_of result ≡ type_spelled text.now }
{
    if text == "null" {
        return Some(DType::Null);
    }
    match text.strip_suffix('?') {
        Some(name) => type_named(name, Nullability::Nullable),
        None => type_named(text, Nullability::NonNullable),
    }
}

/// Returns the type of decimals of this precision and scale, if there is one.
fn decimal_sized(nullability: Nullability, precision: u64, scale: u64) -> Option<DType>
    ensures { option_map type_of result ≡ decimal_sized nullability precision scale }
{
    let precision = u8::try_from(precision).ok()?;
    let scale = u8::try_from(scale).ok()?;
    let decimal = DecimalDType::try_new(precision, scale).ok()?;
    Some(DType::Decimal(decimal, nullability))
}

/// Returns the type of decimals whose precision and scale are listed.
#[tactic(auto, using(crate::proofs::SpelledTypesLemmas::listed_none))]
fn decimal_listed(nullability: Nullability, list: &Vec<Value>) -> Option<DType>
    ensures { option_map type_of result ≡ decimal_listed nullability (items_view list.now.items) }
{
    match list.as_slice() {
        [precision, scale] => decimal_sized(nullability, precision.as_u64()?, scale.as_u64()?),
        _ => None,
    }
}

/// Returns the nullability of a type: nullable if the value under `null` is `true`.
pub(crate) fn nullability_at(value: &Value) -> Option<Nullability>
    ensures { result ≡ nullability_spelled (get (codes "null") (view value.now)) }
{
    let Some(spelled) = value.get("null") else {
        return Some(Nullability::NonNullable);
    };
    if spelled.as_bool()? {
        Some(Nullability::Nullable)
    } else {
        Some(Nullability::NonNullable)
    }
}

/// Returns the number of keys that spell a type with one key of its own: 2 with `null`, else 1.
pub(crate) fn form_keys(value: &Value) -> usize
    ensures { result ≡ form_keys (get (codes "null") (view value.now)) }
{
    match value.get("null") {
        Some(_) => 2,
        None => 1,
    }
}

/// Returns the nullability of a type that an object spells with one key of its own and `more` others. `InvalidArgument(BadValue)` if
/// the object has other keys, or another value than `true` and `false` under `null`.
fn form_nullability(value: &Value, more: usize) -> VortexResult<Nullability>
    requires { more ≤ 1 }
    ensures { IsRead (form_nullability more (view value.now)) result }
{
    check_keys(value, more + form_keys(value))?;
    nullability_at(value).ok_or(BAD_VALUE)
}

/// Reads the type of decimals that an object spells. `InvalidArgument(BadValue)` if it spells none.
fn decimal_type(value: &Value) -> VortexResult<DType>
    ensures { IsReadAs type_of (decimal_type_spelled (view value.now)) result }
{
    let nullability = form_nullability(value, 0)?;
    let Some(list) = items(value, "decimal") else {
        return Err(BAD_VALUE);
    };
    decimal_listed(nullability, list).ok_or(BAD_VALUE)
}

/// Makes the type of lists with elements of type `element`, nullable if the object `value` says so. `InvalidArgument(BadValue)` if the
/// object has other keys.
fn list_of(alloc: Global, value: &Value, element: DType) -> VortexResult<DType>
    ensures { IsReadAs type_of (list_type_spelled (view value.now) (Some (type_of element))) result }
{
    let nullability = form_nullability(value, 0)?;
    Ok(DType::List(TypeRef::new(alloc, element)?, nullability))
}

/// Returns the number of elements of a fixed-size list, under `size`.
fn size(value: &Value) -> Option<u32>
    ensures { result ≡ size_at (view value.now) }
{
    u32::try_from(number(value, "size")?).ok()
}

/// Makes the type of fixed-size lists with elements of type `element`, of the size and the nullability that the object `value` says.
/// `InvalidArgument(BadValue)` if it says none, or has other keys.
fn fixed_size_list_of(alloc: Global, value: &Value, element: DType) -> VortexResult<DType>
    ensures { IsReadAs type_of (fixed_size_list_type_spelled (view value.now) (Some (type_of element))) result }
{
    let nullability = form_nullability(value, 1)?;
    let Some(size) = size(value) else {
        return Err(BAD_VALUE);
    };
    Ok(DType::FixedSizeList(TypeRef::new(alloc, element)?, size, nullability))
}

/// Makes the type of maps with these keys and values. `InvalidArgument(BadValue)` if `key` is nullable.
fn map_of(alloc: Global, nullability: Nullability, key: DType, value: DType) -> VortexResult<DType>
    ensures { IsReadAs type_of (map_with nullability (type_of key, type_of value)) result }
{
    match MapDType::try_new(alloc, key, value) {
        Ok(map) => Ok(DType::Map(map, nullability)),
        Err(VortexError::OutOfMemory) => Err(VortexError::OutOfMemory),
        Err(_) => Err(BAD_VALUE),
    }
}

/// Makes the type of structs with these fields. `InvalidArgument(BadValue)` if two have one name.
#[tactic(auto, using(crate::proofs::SpelledTypesLemmas::fields_same))]
fn struct_of(alloc: Global, fields: Vec<Field>, nullability: Nullability) -> VortexResult<DType>
    ensures { IsReadAs type_of (struct_with (map named_of fields.items) nullability) result }
{
    match StructFields::try_new(alloc, fields) {
        Ok(fields) => Ok(DType::Struct(fields, nullability)),
        Err(VortexError::OutOfMemory) => Err(VortexError::OutOfMemory),
        Err(_) => Err(BAD_VALUE),
    }
}

/// Makes the type of unions of these variants. `InvalidArgument(BadValue)` if there are none, or if two have one tag or one name.
#[tactic(auto, using(crate::proofs::SpelledTypesLemmas::variants_same))]
fn union_of(
    alloc: Global,
    variants: Vec<UnionVariant>,
    nullability: Nullability,
) -> VortexResult<DType>
    ensures { IsReadAs type_of (union_with (map tagged_of variants.items) nullability) result }
{
    match UnionVariants::try_new(alloc, variants) {
        Ok(variants) => Ok(DType::Union(variants, nullability)),
        Err(VortexError::OutOfMemory) => Err(VortexError::OutOfMemory),
        Err(_) => Err(BAD_VALUE),
    }
}

/// Makes the extension type `id` that is stored as `storage`. `InvalidArgument(BadValue)` if `id` is empty.
fn extension_of(alloc: Global, id: Name, storage: DType) -> VortexResult<DType>
    ensures { IsReadAs type_of (extension_with (id, type_of storage)) result }
{
    match ExtDType::try_new(id, TypeRef::new(alloc, storage)?) {
        Ok(extension) => Ok(DType::Extension(extension)),
        Err(_) => Err(BAD_VALUE),
    }
}

/// Reads the type of lists that an object spells. `InvalidArgument(BadValue)` if it spells none.
#[cycle(type_in)]
fn list_type(alloc: Global, value: &Value) -> VortexResult<DType>
    ensures { IsReadAs type_of (list_type_spelled (view value.now) (element_at (codes "list") (view value.now))) result }
{
    match value.get("list") {
        Some(spelled) => list_of(alloc, value, type_in(alloc, spelled)?),
        None => Err(BAD_VALUE),
    }
}

/// Reads the type of fixed-size lists that an object spells. `InvalidArgument(BadValue)` if it spells none.
#[cycle(type_in)]
fn fixed_size_list_type(alloc: Global, value: &Value) -> VortexResult<DType>
    ensures { IsReadAs type_of (fixed_size_list_type_spelled (view value.now) (element_at (codes "fsl") (view value.now))) result }
{
    match value.get("fsl") {
        Some(spelled) => fixed_size_list_of(alloc, value, type_in(alloc, spelled)?),
        None => Err(BAD_VALUE),
    }
}

/// Reads the type of maps that an object spells. `InvalidArgument(BadValue)` if it spells none.
#[cycle(type_in)]
fn map_type(alloc: Global, value: &Value) -> VortexResult<DType>
    ensures { IsReadAs type_of (map_type_spelled (view value.now) (listed_at pair_listed (codes "map") (view value.now))) result }
{
    let nullability = form_nullability(value, 0)?;
    match items(value, "map") {
        Some(list) => map_listed(alloc, nullability, list),
        None => Err(BAD_VALUE),
    }
}

/// Reads the type of maps whose keys and values are of the types in `list`. `InvalidArgument(BadValue)` if these aren't its items.
#[cycle(type_in)]
fn map_listed(alloc: Global, nullability: Nullability, list: &Vec<Value>) -> VortexResult<DType>
    ensures { IsReadAs type_of (option_and_then (map_with nullability) (pair_listed (items_view list.now.items))) result }
{
    match list.as_slice() {
        [key, item] => {
            let key = type_in(alloc, key)?;
            let item = type_in(alloc, item)?;
            map_of(alloc, nullability, key, item)
        }
        _ => Err(BAD_VALUE),
    }
}

/// Reads the type of structs that an object spells. `InvalidArgument(BadValue)` if it spells none.
#[cycle(type_in)]
fn struct_type(alloc: Global, value: &Value) -> VortexResult<DType>
    ensures { IsReadAs type_of (struct_type_spelled (view value.now) (listed_at fields_listed (codes "struct") (view value.now))) result }
{
    let Some(list) = items(value, "struct") else {
        return Err(BAD_VALUE);
    };
    let fields = fields_in(alloc, list)?;
    struct_of(alloc, fields, form_nullability(value, 0)?)
}

/// Reads the type of unions that an object spells. `InvalidArgument(BadValue)` if it spells none.
#[cycle(type_in)]
fn union_type(alloc: Global, value: &Value) -> VortexResult<DType>
    ensures { IsReadAs type_of (union_type_spelled (view value.now) (listed_at variants_listed (codes "union") (view value.now))) result }
{
    let Some(list) = items(value, "union") else {
        return Err(BAD_VALUE);
    };
    let variants = variants_in(alloc, list)?;
    union_of(alloc, variants, form_nullability(value, 0)?)
}

/// Reads the extension type that an object spells. `InvalidArgument(BadValue)` if it spells none.
#[cycle(type_in)]
fn extension_type(alloc: Global, value: &Value) -> VortexResult<DType>
    ensures { IsReadAs type_of (extension_type_spelled (view value.now) (listed_at named_listed (codes "ext") (view value.now))) result }
{
    check_keys(value, 1)?;
    let Some(list) = items(value, "ext") else {
        return Err(BAD_VALUE);
    };
    let Field { name, dtype } = named(alloc, list)?;
    extension_of(alloc, name, dtype)
}

/// Reads the type that an object spells: a line for each form. `InvalidArgument(BadValue)` if it spells none.
#[cycle(type_in)]
fn object_type(alloc: Global, value: &Value) -> VortexResult<DType>
    ensures { IsReadAs type_of (object_type_spelled (view value.now)) result }
{
    if has(value, "decimal") {
        return decimal_type(value);
    }
    if has(value, "list") {
        return list_type(alloc, value);
    }
    if has(value, "fsl") {
        return fixed_size_list_type(alloc, value);
    }
    if has(value, "map") {
        return map_type(alloc, value);
    }
    if has(value, "struct") {
        return struct_type(alloc, value);
    }
    if has(value, "union") {
        return union_type(alloc, value);
    }
    if has(value, "ext") {
        return extension_type(alloc, value);
    }
    Err(BAD_VALUE)
}

/// Returns the name that `value` spells. `InvalidArgument(BadValue)` if it is no text.
pub(crate) fn name_in(alloc: Global, value: &Value) -> VortexResult<Name>
    ensures { IsRead (as_str (view value.now)) result }
{
    let Some(text) = value.as_str() else {
        return Err(BAD_VALUE);
    };
    Ok(Name::new(alloc, String::from_str(alloc, text)?)?)
}

/// Reads a name and a type.
#[cycle(type_in)]
fn name_and_type(alloc: Global, name: &Value, dtype: &Value) -> VortexResult<Field>
    ensures { IsReadAs named_of (both (as_str (view name.now)) (type_in (view dtype.now))) result }
{
    let dtype = type_in(alloc, dtype)?;
    let name = name_in(alloc, name)?;
    Ok(Field { name, dtype })
}

/// Reads a name and a type, from `list`. `InvalidArgument(BadValue)` if these aren't its items.
#[cycle(type_in)]
#[tactic(auto, using(crate::proofs::SpelledTypesLemmas::named_none))]
fn named(alloc: Global, list: &Vec<Value>) -> VortexResult<Field>
    ensures { IsReadAs named_of (named_listed (items_view list.now.items)) result }
{
    match list.as_slice() {
        [name, dtype] => name_and_type(alloc, name, dtype),
        _ => Err(BAD_VALUE),
    }
}

/// Reads a field, from a list of its name and its type. `InvalidArgument(BadValue)` if it isn't one.
#[cycle(type_in)]
fn field_in(alloc: Global, value: &Value) -> VortexResult<Field>
    ensures { IsReadAs named_of (named_in (view value.now)) result }
{
    match value.as_array() {
        Some(list) => named(alloc, list),
        None => Err(BAD_VALUE),
    }
}

/// Reads a list of fields. `InvalidArgument(BadValue)` if an item isn't one.
#[cycle(type_in)]
fn fields_in(alloc: Global, list: &Vec<Value>) -> VortexResult<Vec<Field>>
    ensures { IsReadAs (λ v. map named_of v.items) (fields_listed (items_view list.now.items)) result }
{
    let mut fields = Vec::with_capacity(alloc, list.len())?;
    for value in list {
        fields.push_reserved(field_in(alloc, value)?);
    }
    Ok(fields)
}

/// Returns the tag that `value` spells, a byte.
pub(crate) fn tag_in(value: &Value) -> Option<u8>
    ensures { result ≡ tag_spelled (view value.now) }
{
    u8::try_from(value.as_u64()?).ok()
}

/// Reads a variant of a union, from a list of its tag, its name and its type. `InvalidArgument(BadValue)` if it isn't one.
#[cycle(type_in)]
#[tactic(auto, using(crate::proofs::SpelledTypesLemmas::tagged_none))]
fn variant_in(alloc: Global, value: &Value) -> VortexResult<UnionVariant>
    ensures { IsReadAs tagged_of (tagged_in (view value.now)) result }
{
    let Some(list) = value.as_array() else {
        return Err(BAD_VALUE);
    };
    match list.as_slice() {
        [tag, name, dtype] => {
            let Some(tag) = tag_in(tag) else {
                return Err(BAD_VALUE);
            };
            let Field { name, dtype } = name_and_type(alloc, name, dtype)?;
            Ok(UnionVariant { tag, name, dtype })
        }
        _ => Err(BAD_VALUE),
    }
}

/// Reads a list of variants. `InvalidArgument(BadValue)` if an item isn't one.
#[cycle(type_in)]
fn variants_in(alloc: Global, list: &Vec<Value>) -> VortexResult<Vec<UnionVariant>>
    ensures { IsReadAs (λ v. map tagged_of v.items) (variants_listed (items_view list.now.items)) result }
{
    let mut variants = Vec::with_capacity(alloc, list.len())?;
    for value in list {
        variants.push_reserved(variant_in(alloc, value)?);
    }
    Ok(variants)
}

/// Reads the type that `value` spells. `InvalidArgument(BadValue)` if it spells none.
#[cycle(type_in)]
#[tactic(auto, using(crate::proofs::SpelledTypesLemmas::spelled_type))]
fn type_in(alloc: Global, value: &Value) -> VortexResult<DType>
    ensures { IsReadAs type_of (type_in (view value.now)) result }
{
    match value.as_str() {
        Some(text) => type_spelled(text).ok_or(BAD_VALUE),
        None => object_type(alloc, value),
    }
}

/// Reads the type under `type`. `InvalidArgument(BadValue)` if none is spelled there.
pub(crate) fn type_at(alloc: Global, value: &Value) -> VortexResult<DType>
    ensures { IsReadAs type_of (type_at (view value.now)) result }
{
    match value.get("type") {
        Some(spelled) => type_in(alloc, spelled),
        None => Err(BAD_VALUE),
    }
}

/// Reads the type of a node's rows, under `type`. `InvalidArgument(BadValue)` if none is spelled there, or if there are no columns of it.
pub(crate) fn column_type_at(alloc: Global, value: &Value) -> VortexResult<DType>
    ensures spelled { IsReadAs type_of (column_type_at (view value.now)) result }
    ensures columns { IfOk result (λ t. has_columns (type_of t) ≡ true) }
{
    let dtype = type_at(alloc, value)?;
    if has_columns(&dtype) {
        Ok(dtype)
    } else {
        Err(BAD_VALUE)
    }
}
