//! Nested types and values: each constructor, with memory to spare.

use std::alloc::Global;
use std::test::Fail;
use vx_fn::{ScalarFnRef, apply_row};
use vx_value::{
    ArgKind, DType, ExtDType, Field, MapDType, Name, Nullability, PType, Scalar, ScalarValue,
    ScalarValues, StructFields, TypeRef, UnionVariant, UnionVariants, VortexError, VortexResult,
    fits, type_text,
};

const NEVER: Nullability = Nullability::NonNullable;

const MAYBE: Nullability = Nullability::Nullable;

fn integer(nullability: Nullability) -> DType {
    DType::Primitive(PType::I32, nullability)
}

fn name(alloc: Global, text: &str) -> VortexResult<Name> {
    Name::new(alloc, String::from_str(alloc, text)?)
}

fn list(alloc: Global, element: DType, nullability: Nullability) -> VortexResult<DType> {
    Ok(DType::List(TypeRef::new(alloc, element)?, nullability))
}

fn fixed(alloc: Global, size: u32) -> VortexResult<DType> {
    let element = TypeRef::new(alloc, DType::Primitive(PType::U8, NEVER))?;
    Ok(DType::FixedSizeList(element, size, NEVER))
}

fn map(alloc: Global, keys: Nullability) -> VortexResult<DType> {
    let value = DType::Primitive(PType::I64, MAYBE);
    let map = MapDType::try_new(alloc, DType::Utf8(keys), value)?;
    Ok(DType::Map(map, NEVER))
}

fn field(alloc: Global, text: &str, dtype: DType) -> VortexResult<Field> {
    let name = name(alloc, text)?;
    Ok(Field { name, dtype })
}

/// Makes a struct of two fields, of which the second has this name.
fn pair(alloc: Global, second: &str) -> VortexResult<DType> {
    let bools = list(alloc, DType::Bool(NEVER), NEVER)?;
    let first = field(alloc, "a", DType::Primitive(PType::I8, NEVER))?;
    let fields = vec![in alloc; first, field(alloc, second, bools)?]?;
    Ok(DType::Struct(StructFields::try_new(alloc, fields)?, MAYBE))
}

fn variant(alloc: Global, tag: u8, text: &str, dtype: DType) -> VortexResult<UnionVariant> {
    let name = name(alloc, text)?;
    Ok(UnionVariant { tag, name, dtype })
}

fn either(alloc: Global) -> VortexResult<DType> {
    let int = variant(alloc, 5, "int", integer(MAYBE))?;
    let variants = vec![in alloc; int, variant(alloc, 9, "string", DType::Utf8(NEVER))?]?;
    Ok(DType::Union(UnionVariants::try_new(alloc, variants)?, NEVER))
}

fn neither(alloc: Global) -> VortexResult<DType> {
    Ok(DType::Union(UnionVariants::try_new(alloc, Vec::new(alloc))?, NEVER))
}

fn extension(alloc: Global, id: &str) -> VortexResult<DType> {
    let storage = TypeRef::new(alloc, integer(NEVER))?;
    Ok(DType::Extension(ExtDType::try_new(name(alloc, id)?, storage)?))
}

/// Checks that the type was made, and has this text.
fn has_text(alloc: Global, made: VortexResult<DType>, text: &str) -> VortexResult<bool> {
    Ok(type_text(alloc, &made?)?.as_str() == text)
}

/// Checks that the type was refused.
fn is_refused(made: VortexResult<DType>) -> bool {
    match made {
        Ok(_) => false,
        Err(e) => e == VortexError::InvalidArgument(ArgKind::BadType),
    }
}

#[test]
fn nested_types_are_made(rt: HostRuntime) -> Result<(), Fail> {
    let alloc = rt.alloc();
    assert!(rt; has_text(alloc, list(alloc, integer(MAYBE), MAYBE), "list(i32?)?")?);
    assert!(rt; has_text(alloc, fixed(alloc, 3), "fsl(u8,3)")?);
    assert!(rt; has_text(alloc, map(alloc, NEVER), "map(utf8,i64?)")?);
    assert!(rt; has_text(alloc, pair(alloc, "b"), r#"struct("a":i8,"b":list(bool))?"#)?);
    assert!(rt;
        has_text(
            alloc,
            either(alloc),
            r#"union(5:"int":i32?,9:"string":utf8)"#
        )?
    );
    assert!(rt; has_text(alloc, Ok(DType::Variant(MAYBE)), "variant?")?);
    assert!(rt; has_text(alloc, extension(alloc, "id"), r#"ext("id",i32)"#)?);
    Ok(())
}

#[test]
fn nested_types_are_refused(rt: HostRuntime) -> Result<(), Fail> {
    let alloc = rt.alloc();
    assert!(rt; is_refused(map(alloc, MAYBE)));
    assert!(rt; is_refused(pair(alloc, "a")));
    assert!(rt; is_refused(neither(alloc)));
    assert!(rt; is_refused(extension(alloc, "")));
    Ok(())
}

#[test]
fn rows_of_fixed_size_lists_are_counted(rt: HostRuntime) -> Result<(), Fail> {
    let lists = fixed(rt.alloc(), 4_294_967_295)?;
    assert!(rt; fits(&lists, 4_294_967_297));
    assert!(rt; !fits(&lists, 4_294_967_298));
    Ok(())
}

/// Makes a list of two integers, of which the second may be null.
fn integers(alloc: Global, second: Option<i128>, nullability: Nullability) -> VortexResult<Scalar> {
    let items = vec![in alloc;
        Some(ScalarValue::Integer(1)),
        second.map(ScalarValue::Integer),
    ]?;
    let value = ScalarValue::List(ScalarValues::new(alloc, items)?);
    Scalar::try_new(list(alloc, integer(nullability), NEVER)?, Some(value))
}

fn cast_to_bytes(alloc: Global, second: i128) -> VortexResult<Scalar> {
    let target = list(alloc, DType::Primitive(PType::U8, NEVER), NEVER)?;
    integers(alloc, Some(second), NEVER)?.cast(alloc, &target)
}

fn is_fault(made: VortexResult<Scalar>) -> bool {
    match made {
        Ok(_) => false,
        Err(e) => e == VortexError::Fault,
    }
}

#[test]
fn lists_are_cast(rt: HostRuntime) -> Result<(), Fail> {
    assert!(rt; cast_to_bytes(rt.alloc(), 2).is_ok());
    assert!(rt; is_fault(cast_to_bytes(rt.alloc(), 300)));
    Ok(())
}

/// Returns whether the list of 1 and `second` contains `needle`.
fn contains(alloc: Global, second: Option<i128>, needle: i128) -> VortexResult<Option<bool>> {
    let list = integers(alloc, second, MAYBE)?;
    let needle = Scalar::try_new(integer(NEVER), Some(ScalarValue::Integer(needle)))?;
    let types = vec![in alloc; list.dtype().clone()?, needle.dtype().clone()?]?;
    ScalarFnRef::ListContains.return_dtype(alloc, types.as_slice())?;
    let arguments = vec![in alloc; list, needle]?;
    Ok(apply_row(alloc, &ScalarFnRef::ListContains, arguments.as_slice())?.as_bool())
}

#[test]
fn elements_are_found(rt: HostRuntime) -> Result<(), Fail> {
    assert!(rt; contains(rt.alloc(), None, 2)?.is_none());
    assert!(rt; contains(rt.alloc(), None, 1)? == Some(true));
    assert!(rt; contains(rt.alloc(), Some(3), 2)? == Some(false));
    Ok(())
}
