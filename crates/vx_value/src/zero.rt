//! Zero values.

ghost use Rattle.std.specs.Prelude.{◌≡◌, IfOk, OnOk, true};
ghost use Rattle.vx_value.specs.Errors.{OnlyOutOfMemory};
ghost use Rattle.vx_value.specs.View.{type_of, fields_of, variants_of, value_of, cell_of};
ghost use Rattle.vx_value.specs.Types.{union};
ghost use Rattle.vx_value.specs.Nested.{is_some_variant};
ghost use Rattle.vx_value.specs.Values.{repeated, no_values};
ghost use Rattle.vx_value.specs.IsOf.{is_of, are_of, are_parts};
ghost use Rattle.vx_value.specs.Defaults.{zero_of, zeros_of, first_zero};
ghost use Rattle.vx_value.specs.declared.dtype.Nullability.TheVariants.{NonNullable};

use crate::{
    ByteBuffer, DType, DecimalValue, Field, ScalarValue, ScalarValues, TypeRef, UnionVariant,
    ValueRef, VortexResult,
};
use std::alloc::Global;

/// Returns the zero value of type `dtype`; `None` is null. Fails only with `OutOfMemory`.
#[cycle(zeros)]
#[tactic(auto, using(crate::proofs::DefaultsLemmas::zero_typed, crate::proofs::DefaultsLemmas::sized_typed, crate::proofs::TypedLemmas::bare_typed))]
pub(crate) fn zero_of(alloc: Global, dtype: &DType) -> VortexResult<Option<ScalarValue>>
    ensures ok { IfOk result (λ v. cell_of v ≡ zero_of (type_of dtype.now)) }
    ensures typed { OnOk result (is_of (type_of dtype.now) (zero_of (type_of dtype.now)) ≡ true) }
    ensures err { OnlyOutOfMemory result }
{
    match dtype {
        DType::Null => Ok(None),
        DType::Bool(_) => Ok(Some(ScalarValue::Bool(false))),
        DType::Primitive(_, _) => Ok(Some(ScalarValue::Integer(0))),
        DType::Decimal(decimal, _) => {
            let scale = decimal.scale();
            Ok(Some(ScalarValue::Decimal(DecimalValue { unscaled: 0, scale })))
        }
        DType::Utf8(_) => Ok(Some(ScalarValue::Bytes(ByteBuffer::empty()))),
        DType::Binary(_) => Ok(Some(ScalarValue::Bytes(ByteBuffer::empty()))),
        DType::List(_, _) => Ok(Some(ScalarValue::List(empty(alloc)?))),
        DType::FixedSizeList(element, size, _) => {
            let elements = repeated(alloc, zero_of(alloc, element)?, *size)?;
            Ok(Some(ScalarValue::List(elements)))
        }
        DType::Map(_, _) => Ok(Some(ScalarValue::List(empty(alloc)?))),
        DType::Struct(fields, _) => {
            let values = zeros_of(alloc, &fields.fields)?;
            Ok(Some(ScalarValue::Struct(values)))
        }
        DType::Union(variants, _) => Ok(Some(first_zero(alloc, &variants.variants)?)),
        DType::Variant(_) => {
            let (dtype, value) = (
                TypeRef::new(alloc, DType::Null)?,
                ValueRef::new(alloc, None)?,
            );
            Ok(Some(ScalarValue::Variant(dtype, value)))
        }
        DType::Extension(extension) => zero_of(alloc, &extension.storage),
    }
}

/// Returns the zero value of a union with these variants, of which there is one at least: that of the first.
#[cycle(zeros)]
#[tactic(auto, using(crate::proofs::DefaultsLemmas::first_typed))]
fn first_zero(alloc: Global, variants: &[UnionVariant]) -> VortexResult<ScalarValue>
    requires { is_some_variant (variants_of variants.now) ≡ true }
    ensures ok { IfOk result (λ v. value_of v ≡ first_zero (variants_of variants.now)) }
    ensures typed { OnOk result (are_parts (union (variants_of variants.now) NonNullable) (first_zero (variants_of variants.now)) ≡ true) }
    ensures err { OnlyOutOfMemory result }
{
    let first = &variants[0];
    let value = ValueRef::new(alloc, zero_of(alloc, &first.dtype)?)?;
    Ok(ScalarValue::Union(first.tag, value))
}

/// Returns no values.
fn empty(alloc: Global) -> VortexResult<ScalarValues>
    ensures ok { IfOk result (λ vs. vs ≡ no_values) }
    ensures err { OnlyOutOfMemory result }
{
    ScalarValues::new(alloc, Vec::new(alloc))
}

/// Returns the zero values of the types of `fields`.
#[cycle(zeros)]
#[tactic(auto, using(crate::proofs::ValuesLemmas::prepend_one, crate::proofs::ValuesLemmas::prepend_none))]
fn zeros_of(alloc: Global, fields: &[Field]) -> VortexResult<ScalarValues>
    ensures ok { IfOk result (λ vs. vs ≡ zeros_of (fields_of fields.now)) }
    ensures typed { OnOk result (are_of (fields_of fields.now) (zeros_of (fields_of fields.now)) ≡ true) }
    ensures err { OnlyOutOfMemory result }
{
    let mut items = Vec::with_capacity(alloc, fields.len())?;
    for field in fields {
        items.push(zero_of(alloc, &field.dtype)?)?;
    }
    ScalarValues::new(alloc, items)
}

/// Returns `value` `count` times; `None` is null. Nested parts are shared.
#[tactic(auto, using(crate::proofs::ValuesLemmas::repeated_more))]
fn repeated(alloc: Global, value: Option<ScalarValue>, count: u32) -> VortexResult<ScalarValues>
    ensures ok { IfOk result (λ vs. vs ≡ repeated count (cell_of value)) }
    ensures err { OnlyOutOfMemory result }
{
    let mut items = Vec::with_capacity(alloc, count as usize)?;
    for _ in 0..count {
        items.push(value.clone()?)?;
    }
    ScalarValues::new(alloc, items)
}
