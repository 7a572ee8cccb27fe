//! The text of a row by itself, which the program never asks for, and single rows of a tree.

use std::alloc::Global;
use std::test::Fail;
use vx_column::{Builder, execute_scalar};
use vx_fn::{Operator, ScalarFnRef};
use vx_json::row_text;
use vx_tree::{ArrayRef, IntoArray, ScalarFnArray};
use vx_value::{
    ByteBuffer, DType, Nullability, PType, Scalar, ScalarValue, VortexError, VortexResult,
};

#[test]
fn a_row_by_itself(rt: HostRuntime) -> Result<(), Fail> {
    let text = ScalarValue::Bytes(ByteBuffer::copy_from(rt.alloc(), b"a\nb")?);
    let scalar = Scalar::try_new(DType::Utf8(Nullability::NonNullable), Some(text))?;
    assert!(rt; row_text(rt.alloc(), &scalar)?.as_str() == r#""a\nb""#);
    Ok(())
}

/// Returns the numbers from 0 to 9, with null in place of every fourth if `nullability` allows it.
fn numbers(alloc: Global, nullability: Nullability) -> VortexResult<ArrayRef> {
    let dtype = DType::Primitive(PType::I64, nullability);
    let mut builder = Builder::with_capacity(alloc, dtype, 10)?;
    for number in 0..10_usize {
        if number % 4 == 0 && nullability == Nullability::Nullable {
            builder.append_nulls(1)?;
        } else {
            let dtype = DType::Primitive(PType::I64, nullability);
            let value = ScalarValue::Integer(number as i128);
            builder.append_scalar(&Scalar::try_new(dtype, Some(value))?)?;
        }
    }
    Ok(builder.finish(alloc)?.into_array())
}

/// Applies `operator` lazily.
fn call(alloc: Global, operator: Operator, lhs: ArrayRef, rhs: ArrayRef) -> VortexResult<ArrayRef> {
    let children = vec![in alloc; lhs, rhs]?;
    Ok(ScalarFnArray::try_new(alloc, ScalarFnRef::Binary(operator), children)?.into_array())
}

/// Returns each number plus and times the numbers from 0 to 9.
fn products(alloc: Global) -> VortexResult<ArrayRef> {
    let lhs = numbers(alloc, Nullability::Nullable)?;
    let rhs = numbers(alloc, Nullability::NonNullable)?;
    let sum = call(alloc, Operator::Add, lhs, rhs.clone()?)?;
    call(alloc, Operator::Mul, sum, rhs)
}

#[test]
fn single_rows_of_a_tree(rt: HostRuntime) -> Result<(), Fail> {
    let alloc = rt.alloc();
    let array = products(alloc)?;
    assert!(rt; execute_scalar(alloc, &array, 0)?.is_null());
    assert!(rt; execute_scalar(alloc, &array, 9)?.as_integer() == Some(162));
    let refusal = VortexError::OutOfBounds {
        start: 10,
        stop: 10,
        len: 10,
    };
    assert!(rt; matches!(execute_scalar(alloc, &array, 10), Err(e) if e == refusal));
    Ok(())
}
