//! Types as text.

ghost use Rattle.std.specs.Prelude.{◌≡◌, ◌++◌, OnOk, IfOk, codes, string_bytes, false};
ghost use Rattle.std.specs.Fmt.{decimal};
ghost use Rattle.vx_value.specs.View.{type_of, fields_of, variants_of};
ghost use Rattle.vx_value.specs.Errors.{OnlyOutOfMemory};
ghost use Rattle.vx_value.specs.Text.{type_text, fields_text, variants_text, json_string, bare_text, type_mark, mark, ptype_text};

use crate::{DType, DecimalDType, Field, Name, Nullability, PType, UnionVariant, VortexResult};
use serde_json::Value;
use std::alloc::{AllocError, Global};

/// Returns the text of `dtype`, for example `i32`, `decimal(10,2)` or `struct("id":i64,"tags":list(utf8)?)`. A nullable type ends
/// in `?`; `null` and extensions have no mark. Names are written as JSON strings.
///
/// Fails only with `OutOfMemory`. (own)
pub fn type_text(alloc: Global, dtype: &DType) -> VortexResult<String>
    ensures ok { IfOk result (λ s. string_bytes s ≡ type_text (type_of dtype.now)) }
    ensures err { OnlyOutOfMemory result }
{
    let mut text = String::new(alloc);
    push_type(alloc, &mut text, dtype)?;
    Ok(text)
}

/// Appends the text of `dtype`.
#[cycle(texts)]
fn push_type(alloc: Global, text: &mut String, dtype: &DType) -> Result<(), AllocError>
    ensures { OnOk result (string_bytes text.new ≡ string_bytes text.old ++ type_text (type_of dtype.now)) }
{
    push_bare(alloc, text, dtype)?;
    text.push_str(type_mark(dtype))
}

/// Appends the text of `dtype` apart from its nullability.
#[cycle(texts)]
fn push_bare(alloc: Global, text: &mut String, dtype: &DType) -> Result<(), AllocError>
    ensures { OnOk result (string_bytes text.new ≡ string_bytes text.old ++ bare_text (type_of dtype.now)) }
{
    match dtype {
        DType::Null => text.push_str("null"),
        DType::Bool(_) => text.push_str("bool"),
        DType::Primitive(ptype, _) => text.push_str(ptype_text(*ptype)),
        DType::Decimal(decimal, _) => push_decimal(text, *decimal),
        DType::Utf8(_) => text.push_str("utf8"),
        DType::Binary(_) => text.push_str("binary"),
        DType::List(element, _) => {
            text.push_str("list(")?;
            push_type(alloc, text, element)?;
            text.push_str(")")
        }
        DType::FixedSizeList(element, size, _) => {
            text.push_str("fsl(")?;
            push_type(alloc, text, element)?;
            write!(text, ",{size})")
        }
        DType::Map(map, _) => {
            text.push_str("map(")?;
            push_type(alloc, text, map.key())?;
            text.push_str(",")?;
            push_type(alloc, text, map.value())?;
            text.push_str(")")
        }
        DType::Struct(fields, _) => {
            text.push_str("struct(")?;
            push_fields(alloc, text, &fields.fields)?;
            text.push_str(")")
        }
        DType::Union(variants, _) => {
            text.push_str("union(")?;
            push_variants(alloc, text, &variants.variants)?;
            text.push_str(")")
        }
        DType::Variant(_) => text.push_str("variant"),
        DType::Extension(extension) => {
            text.push_str("ext(")?;
            push_name(alloc, text, &extension.id)?;
            text.push_str(",")?;
            push_type(alloc, text, &extension.storage)?;
            text.push_str(")")
        }
    }
}

/// Appends the names and types of fields.
#[cycle(texts)]
fn push_fields(alloc: Global, text: &mut String, fields: &[Field]) -> Result<(), AllocError>
    ensures { OnOk result (string_bytes text.new ≡ string_bytes text.old ++ fields_text false (fields_of fields.now)) }
{
    let mut later = false;
    for field in fields {
        if later {
            text.push_str(",")?;
        }
        later = true;
        push_name(alloc, text, &field.name)?;
        text.push_str(":")?;
        push_type(alloc, text, &field.dtype)?;
    }
    Ok(())
}

/// Appends the tags, names and types of a union's variants.
#[cycle(texts)]
fn push_variants(
    alloc: Global,
    text: &mut String,
    variants: &[UnionVariant],
) -> Result<(), AllocError>
    ensures { OnOk result (string_bytes text.new ≡ string_bytes text.old ++ variants_text false (variants_of variants.now)) }
{
    let mut later = false;
    for variant in variants {
        if later {
            text.push_str(",")?;
        }
        later = true;
        write!(text, "{}:", variant.tag)?;
        push_name(alloc, text, &variant.name)?;
        text.push_str(":")?;
        push_type(alloc, text, &variant.dtype)?;
    }
    Ok(())
}

/// Appends a name as a JSON string.
fn push_name(alloc: Global, text: &mut String, name: &Name) -> Result<(), AllocError>
    ensures { OnOk result (string_bytes text.new ≡ string_bytes text.old ++ json_string name.now) }
{
    let value = Value::String(String::from_str(alloc, name.as_str())?);
    text.push_str(value.to_string(alloc)?.as_str())
}

/// Appends the text of a decimal type.
fn push_decimal(text: &mut String, dtype: DecimalDType) -> Result<(), AllocError>
    ensures { OnOk result (string_bytes text.new
        ≡ string_bytes text.old ++ codes "decimal(" ++ decimal dtype.precision ++ codes "," ++ decimal dtype.scale ++ codes ")") }
{
    write!(text, "decimal({},{})", dtype.precision(), dtype.scale())
}

/// Returns the mark of a nullable type, or the empty text.
fn type_mark(dtype: &DType) -> &'static str
    ensures { result.now ≡ type_mark (type_of dtype.now) }
{
    match dtype {
        DType::Null | DType::Extension(_) => "",
        _ => mark(dtype.nullability()),
    }
}

fn ptype_text(ptype: PType) -> &'static str
    ensures { result.now ≡ ptype_text ptype }
{
    match ptype {
        PType::U8 => "u8",
        PType::U16 => "u16",
        PType::U32 => "u32",
        PType::U64 => "u64",
        PType::I8 => "i8",
        PType::I16 => "i16",
        PType::I32 => "i32",
        PType::I64 => "i64",
    }
}

fn mark(nullability: Nullability) -> &'static str
    ensures { result.now ≡ mark nullability }
{
    match nullability {
        Nullability::NonNullable => "",
        Nullability::Nullable => "?",
    }
}
