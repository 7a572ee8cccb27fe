//! The text of a row.

ghost use Rattle.std.specs.Prelude.{◌≡◌, ◌++◌, ◌∷◌, [], OnOk, IfOk, true, false, string_bytes};
ghost use Rattle.std.specs.Fmt.{signed_decimal};
ghost use Rattle.hex.specs.Hex.{encode_lower};
ghost use Rattle.serde_json.specs.Data.{string};
ghost use Rattle.serde_json.specs.Written.{comma_if, compact_text};
ghost use Rattle.std.specs.Str.{is_utf8};
ghost use Rattle.std.specs.List.{list_any};
ghost use Rattle.vx_value.specs.IsOf.{is_of, all_of, are_of};
ghost use Rattle.vx_value.specs.Nested.{bare, entry_type};
ghost use Rattle.vx_value.specs.Storage.{is_nested};
ghost use Rattle.vx_value.specs.Text.{type_text};
ghost use Rattle.vx_value.specs.Types as type;
ghost use Rattle.vx_value.specs.Values.{fields, tagged, variant};
ghost use Rattle.vx_value.specs.declared.dtype.Nullability.TheVariants.{NonNullable};
ghost use Rattle.vx_value.specs.View.{type_of, fields_of, value_of, cell_of, cell_seen, values_of};
ghost use Rattle.vx_json.specs.RowText.{has_escape, in_quotes, plain_text, field_text, items_text, entries_text, entry_text, pair_text, fields_text, text_of, row_text};

use crate::text::printed::PrintedNumber;
use itoa::Buffer;
use serde_json::Value;
use std::alloc::{AllocError, Global};
use vx_value::{
    DType, Field, MapDType, Name, Scalar, ScalarValue, ScalarValues, StructFields, UnionVariants,
    ValueRef, VortexResult, type_text,
};

/// Appends the text of a row, without spaces: `null`, `true`, `false`, an integer in decimal, a string, an array or an object.
///
/// The string of a decimal is its unscaled integer, as `"4200"` for 42.00; that of a binary value has two lower-case hexadecimal digits
/// for each byte. The array of a list has its elements, that of a map an array of key and value for each entry, and that of a union its
/// tag and its value. The object of a struct has its fields, in order, and that of a variant the text of its type under `type`, and its
/// value under `value`. The text of an extension is that of what it is stored as. If memory runs out, part of it may have been
/// appended. (own)
pub(crate) fn push_row(text: &mut String, scalar: &Scalar) -> Result<(), AllocError>
    ensures { OnOk result (string_bytes text.new ≡ string_bytes text.old ++ row_text scalar.now.of_type scalar.now.value) }
{
    push_value(text, scalar.dtype(), scalar.value())
}

/// Appends the text of a row of type `dtype`. `None` is null. If memory runs out, part of it may have been appended.
#[cycle(push_value)]
#[tactic(auto, using(crate::proofs::RowTextLemmas::null_row, vx_value::proofs::TypedLemmas::present_typed))]
fn push_value(
    text: &mut String,
    dtype: &DType,
    value: Option<&ScalarValue>,
) -> Result<(), AllocError>
    requires { is_of (type_of dtype.now) (cell_seen value) ≡ true }
    ensures { OnOk result (string_bytes text.new ≡ string_bytes text.old ++ row_text (type_of dtype.now) (cell_seen value.entry)) }
{
    match value {
        None => text.push_str("null"),
        Some(value) => push_present(text, dtype.bare(), value),
    }
}

/// Appends the text of a row of type `dtype`, which isn't an extension: a line for each nested type.
#[cycle(push_value)]
fn push_present(text: &mut String, dtype: &DType, value: &ScalarValue) -> Result<(), AllocError>
    requires bare { bare (type_of dtype.now) ≡ type_of dtype.now }
    requires typed { is_of (type_of dtype.now) (value_of value.now) ≡ true }
    ensures { OnOk result (string_bytes text.new ≡ string_bytes text.old ++ text_of (type_of dtype.now) (value_of value.now)) }
{
    match (dtype, value) {
        (DType::List(element, _), ScalarValue::List(values)) => push_list(text, element, values),
        (DType::FixedSizeList(element, _, _), ScalarValue::List(values)) => {
            push_list(text, element, values)
        }
        (DType::Map(map, _), ScalarValue::List(values)) => push_map(text, map, values),
        (DType::Struct(fields, _), ScalarValue::Struct(values)) => {
            push_struct(text, fields, values)
        }
        (DType::Union(variants, _), ScalarValue::Union(tag, value)) => {
            push_union(text, variants, *tag, value)
        }
        (DType::Variant(_), ScalarValue::Variant(dtype, value)) => {
            push_variant(text, dtype, value)
        }
        _ => push_plain(text, dtype, value),
    }
}

/// Appends a comma if others stand before (`later`).
fn push_comma(text: &mut String, later: bool) -> Result<(), AllocError>
    ensures { OnOk result (string_bytes text.new ≡ string_bytes text.old ++ comma_if later) }
{
    if later {
        text.push_str(",")?;
    }
    Ok(())
}

/// Appends an array of `values`, the elements of a list, of type `dtype`.
#[cycle(push_value)]
fn push_list(text: &mut String, dtype: &DType, values: &ScalarValues) -> Result<(), AllocError>
    requires { all_of (type_of dtype.now) values.now ≡ true }
    ensures { OnOk result (string_bytes text.new ≡ string_bytes text.old ++ (91 ∷ items_text false (type_of dtype.now) values.now)) }
{
    text.push_str("[")?;
    push_items(text, dtype, values.as_slice())
}

/// Appends the text of each of `values`, of type `dtype`, and the closing bracket.
#[cycle(push_value)]
fn push_items(
    text: &mut String,
    dtype: &DType,
    values: &[Option<ScalarValue>],
) -> Result<(), AllocError>
    requires { all_of (type_of dtype.now) (values_of values.now) ≡ true }
    ensures { OnOk result (string_bytes text.new ≡ string_bytes text.old ++ items_text false (type_of dtype.now) (values_of values.now)) }
{
    for i in 0..values.len() {
        push_comma(text, i > 0)?;
        push_value(text, dtype, values[i].as_ref())?;
    }
    text.push_str("]")
}

/// Appends an array of `entries`, those of a map.
#[cycle(push_value)]
fn push_map(text: &mut String, map: &MapDType, entries: &ScalarValues) -> Result<(), AllocError>
    requires { all_of (entry_type map.now.0 map.now.1) entries.now ≡ true }
    ensures { OnOk result (string_bytes text.new ≡ string_bytes text.old ++ (91 ∷ entries_text false map.now.0 map.now.1 entries.now)) }
{
    text.push_str("[")?;
    push_entries(text, map, entries.as_slice())
}

/// Appends the text of each of `entries`, those of a map, and the closing bracket.
#[cycle(push_value)]
fn push_entries(
    text: &mut String,
    map: &MapDType,
    entries: &[Option<ScalarValue>],
) -> Result<(), AllocError>
    requires { all_of (entry_type map.now.0 map.now.1) (values_of entries.now) ≡ true }
    ensures { OnOk result (string_bytes text.new ≡ string_bytes text.old ++ entries_text false map.now.0 map.now.1 (values_of entries.now)) }
{
    for i in 0..entries.len() {
        push_comma(text, i > 0)?;
        push_entry(text, map, entries[i].as_ref())?;
    }
    text.push_str("]")
}

/// Appends an array of the key and the value of an entry of a map.
#[cycle(push_value)]
fn push_entry(
    text: &mut String,
    map: &MapDType,
    entry: Option<&ScalarValue>,
) -> Result<(), AllocError>
    requires { is_of (entry_type map.now.0 map.now.1) (cell_seen entry) ≡ true }
    ensures { OnOk result (string_bytes text.new ≡ string_bytes text.old ++ entry_text map.now.0 map.now.1 (cell_seen entry.entry)) }
{
    match entry {
        Some(ScalarValue::Struct(parts)) => push_parts(text, map, parts.as_slice()),
        _ => unreachable!(),
    }
}

/// Appends an array of `parts`, the key and the value of an entry of a map.
#[cycle(push_value)]
fn push_parts(
    text: &mut String,
    map: &MapDType,
    parts: &[Option<ScalarValue>],
) -> Result<(), AllocError>
    requires { is_of (entry_type map.now.0 map.now.1) (fields (values_of parts.now)) ≡ true }
    ensures { OnOk result (string_bytes text.new ≡ string_bytes text.old ++ entry_text map.now.0 map.now.1 (fields (values_of parts.now))) }
{
    match parts {
        [key, item] => push_pair(text, map, key, item),
        _ => unreachable!(),
    }
}

/// Appends an array of a key and a value of a map.
#[cycle(push_value)]
fn push_pair(
    text: &mut String,
    map: &MapDType,
    key: &Option<ScalarValue>,
    value: &Option<ScalarValue>,
) -> Result<(), AllocError>
    requires key { is_of map.now.0 (cell_of key.now) ≡ true }
    requires value { is_of map.now.1 (cell_of value.now) ≡ true }
    ensures { OnOk result (string_bytes text.new ≡ string_bytes text.old ++ pair_text map.now.0 map.now.1 (cell_of key.now) (cell_of value.now)) }
{
    text.push_str("[")?;
    push_value(text, map.key(), key.as_ref())?;
    text.push_str(",")?;
    push_value(text, map.value(), value.as_ref())?;
    text.push_str("]")
}

/// Appends an object of `values`, which are those of `fields`.
#[cycle(push_value)]
fn push_struct(
    text: &mut String,
    fields: &StructFields,
    values: &ScalarValues,
) -> Result<(), AllocError>
    requires { are_of fields.now values.now ≡ true }
    ensures { OnOk result (string_bytes text.new ≡ string_bytes text.old ++ (123 ∷ fields_text false fields.now values.now)) }
{
    text.push_str("{")?;
    push_fields(text, fields.as_slice(), values.as_slice())
}

/// Appends the text of each of `values`, which are those of `fields`, behind its name, and the closing brace.
#[cycle(push_value)]
fn push_fields(
    text: &mut String,
    fields: &[Field],
    values: &[Option<ScalarValue>],
) -> Result<(), AllocError>
    requires { are_of (fields_of fields.now) (values_of values.now) ≡ true }
    ensures { OnOk result (string_bytes text.new ≡ string_bytes text.old ++ fields_text false (fields_of fields.now) (values_of values.now)) }
{
    for i in 0..fields.len() {
        let field = &fields[i];
        push_name(text, i > 0, &field.name)?;
        push_value(text, &field.dtype, values[i].as_ref())?;
    }
    text.push_str("}")
}

/// Appends the name of a field as a JSON string, behind a comma if others stand before it (`later`), and a colon.
fn push_name(text: &mut String, later: bool, name: &Name) -> Result<(), AllocError>
    ensures { OnOk result (string_bytes text.new ≡ string_bytes text.old ++ field_text later name.now []) }
{
    push_comma(text, later)?;
    push_text(text, name.as_str())?;
    text.push_str(":")
}

/// Appends an array of `tag`, that of one of `variants`, and of `value`.
#[cycle(push_value)]
fn push_union(
    text: &mut String,
    variants: &UnionVariants,
    tag: u8,
    value: &ValueRef,
) -> Result<(), AllocError>
    requires { is_of (type.union variants.now NonNullable) (tagged tag value.now) ≡ true }
    ensures { OnOk result (string_bytes text.new ≡ string_bytes text.old ++ text_of (type.union variants.now NonNullable) (tagged tag value.now)) }
{
    let Some(dtype) = variants.variant(tag) else {
        unreachable!()
    };
    text.push_str("[")?;
    push_integer(text, tag)?;
    text.push_str(",")?;
    push_value(text, dtype, value.as_ref())?;
    text.push_str("]")
}

/// Appends an object of the text of type `dtype`, and of `value`.
#[cycle(push_value)]
fn push_variant(text: &mut String, dtype: &DType, value: &ValueRef) -> Result<(), AllocError>
    requires { is_of (type_of dtype.now) value.now ≡ true }
    ensures { OnOk result (string_bytes text.new ≡ string_bytes text.old ++ text_of (type.variant NonNullable) (variant (type_of dtype.now) value.now)) }
{
    text.push_str("{\"type\":")?;
    push_type(text, dtype)?;
    text.push_str(",\"value\":")?;
    push_value(text, dtype, value.as_ref())?;
    text.push_str("}")
}

/// Appends the text of type `dtype` as a JSON string.
fn push_type(text: &mut String, dtype: &DType) -> Result<(), AllocError>
    ensures { OnOk result (string_bytes text.new ≡ string_bytes text.old ++ compact_text (string (type_text (type_of dtype.now)))) }
{
    match type_text(*text.allocator(), dtype) {
        Ok(name) => push_text(text, name.as_str()),
        Err(_) => Err(AllocError),
    }
}

/// Appends the text of a row of type `dtype`, which must not be nested.
fn push_plain(text: &mut String, dtype: &DType, value: &ScalarValue) -> Result<(), AllocError>
    requires plain { is_nested (type_of dtype.now) ≡ false }
    requires typed { is_of (type_of dtype.now) (value_of value.now) ≡ true }
    ensures { OnOk result (string_bytes text.new ≡ string_bytes text.old ++ plain_text (type_of dtype.now) (value_of value.now)) }
{
    match value {
        ScalarValue::Bool(true) => text.push_str("true"),
        ScalarValue::Bool(false) => text.push_str("false"),
        ScalarValue::Integer(number) => push_integer(text, *number),
        ScalarValue::Decimal(decimal) => push_decimal(text, decimal.unscaled),
        ScalarValue::Bytes(bytes) => match dtype {
            DType::Utf8(_) => push_utf8(text, bytes.as_slice()),
            _ => push_hex(text, bytes.as_slice()),
        },
        _ => unreachable!(),
    }
}

/// Appends `number` in decimal. If memory runs out, part of it may have been appended. (own)
#[inline]
pub(crate) fn push_integer<T: PrintedNumber>(text: &mut String, number: T) -> Result<(), AllocError>
    ensures { OnOk result (string_bytes text.new ≡ string_bytes text.old ++ signed_decimal (T.value number)) }
{
    number.is_printed();
    text.push_str(Buffer::new().format(number))
}

/// Appends `number`, a decimal without its point, between quotation marks.
pub(crate) fn push_decimal<T: PrintedNumber>(text: &mut String, number: T) -> Result<(), AllocError>
    ensures { OnOk result (string_bytes text.new ≡ string_bytes text.old ++ in_quotes (signed_decimal (T.value number))) }
{
    number.is_printed();
    push_quoted(text, Buffer::new().format(number))
}

/// Appends `inner` between quotation marks.
fn push_quoted(text: &mut String, inner: &str) -> Result<(), AllocError>
    ensures { OnOk result (string_bytes text.new ≡ string_bytes text.old ++ in_quotes inner.now) }
{
    text.push_str("\"")?;
    text.push_str(inner)?;
    text.push_str("\"")
}

/// Appends `bytes`, which must be UTF-8, as a JSON string. Text without escapes is copied unchanged.
pub(crate) fn push_utf8(text: &mut String, bytes: &[u8]) -> Result<(), AllocError>
    requires { is_utf8 bytes.now ≡ true }
    ensures { OnOk result (string_bytes text.new ≡ string_bytes text.old ++ compact_text (string bytes.now)) }
{
    // Safety: the bytes are UTF-8, as the condition says.
    push_text(text, unsafe { str::from_utf8_unchecked(bytes) })
}

/// Appends `utf8` as a JSON string. Text without escapes is copied unchanged.
fn push_text(text: &mut String, utf8: &str) -> Result<(), AllocError>
    ensures { OnOk result (string_bytes text.new ≡ string_bytes text.old ++ compact_text (string utf8.now)) }
{
    if !has_escapes(utf8.as_bytes()) {
        return push_quoted(text, utf8);
    }
    push_escaped(text, utf8)
}

/// Appends `utf8` as a JSON string, with its escapes.
fn push_escaped(text: &mut String, utf8: &str) -> Result<(), AllocError>
    ensures { OnOk result (string_bytes text.new ≡ string_bytes text.old ++ compact_text (string utf8.now)) }
{
    let alloc = *text.allocator();
    let value = Value::String(String::from_str(alloc, utf8)?);
    text.push_str(value.to_string(alloc)?.as_str())
}

/// Returns whether a JSON string of `bytes` has an escape: for a quotation mark, a backslash or a control character.
fn has_escapes(bytes: &[u8]) -> bool
    ensures { result ≡ list_any has_escape bytes.now }
{
    bytes
        .iter()
        .any(|byte| *byte < 32 || *byte == b'"' || *byte == b'\\')
}

/// Appends two hexadecimal digits for each of `bytes`, between quotation marks.
pub(crate) fn push_hex(text: &mut String, bytes: &[u8]) -> Result<(), AllocError>
    ensures { OnOk result (string_bytes text.new ≡ string_bytes text.old ++ in_quotes (encode_lower bytes.now)) }
{
    let digits = hex::encode(*text.allocator(), bytes)?;
    push_quoted(text, digits.as_str())
}

/// Returns the text of a row, as `push_row` appends it. Fails only with `OutOfMemory`. (own)
pub fn row_text(alloc: Global, scalar: &Scalar) -> VortexResult<String>
    ensures { IfOk result (λ s. string_bytes s ≡ row_text scalar.now.of_type scalar.now.value) }
{
    let mut text = String::new(alloc);
    push_row(&mut text, scalar)?;
    Ok(text)
}
