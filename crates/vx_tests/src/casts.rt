//! Casts of scalars to each kind, types without null, and a part of a mask: each with memory to spare.

use std::alloc::Global;
use std::test::Fail;
use vx_mask::{BitBuilder, Mask};
use vx_value::{
    ByteBuffer, DType, DecimalDType, Nullability, PType, Scalar, ScalarValue, VortexResult,
};

const NEVER: Nullability = Nullability::NonNullable;

const MAYBE: Nullability = Nullability::Nullable;

/// Checks that `scalar` has a cast to `dtype`.
fn has_cast(alloc: Global, scalar: &Scalar, dtype: &DType) -> bool {
    match scalar.cast(alloc, dtype) {
        Ok(cast) => cast.dtype() == dtype,
        Err(_) => false,
    }
}

fn decimal(precision: u8) -> VortexResult<DType> {
    Ok(DType::Decimal(DecimalDType::try_new(precision, 1)?, NEVER))
}

#[test]
fn numbers_are_cast(rt: HostRuntime) -> Result<(), Fail> {
    let seven = Scalar::primitive(7, PType::I32, NEVER);
    assert!(rt; has_cast(rt.alloc(), &seven, &DType::Primitive(PType::U8, MAYBE)));
    assert!(rt; has_cast(rt.alloc(), &seven, &decimal(2)?));
    assert!(rt;
        has_cast(
            rt.alloc(),
            &seven.cast(rt.alloc(), &decimal(2)?)?,
            &decimal(4)?
        )
    );
    assert!(rt; has_cast(rt.alloc(), &Scalar::bool(true, NEVER), &DType::Bool(MAYBE)));
    assert!(rt; has_cast(rt.alloc(), &Scalar::null(DType::Null), &DType::Bool(MAYBE)));
    Ok(())
}

fn text(alloc: Global) -> VortexResult<Scalar> {
    let bytes = ByteBuffer::copy_from(alloc, b"row")?;
    Scalar::try_new(DType::Utf8(NEVER), Some(ScalarValue::Bytes(bytes)))
}

#[test]
fn bytes_are_cast(rt: HostRuntime) -> Result<(), Fail> {
    let text = text(rt.alloc())?;
    assert!(rt; has_cast(rt.alloc(), &text, &DType::Binary(NEVER)));
    assert!(rt;
        has_cast(
            rt.alloc(),
            &text.cast(rt.alloc(), &DType::Binary(NEVER))?,
            &DType::Utf8(MAYBE)
        )
    );
    assert!(rt; text.dtype().as_nonnullable(rt.alloc())? == DType::Utf8(NEVER));
    Ok(())
}

fn alternating(alloc: Global) -> VortexResult<Mask> {
    let mut bits = BitBuilder::with_capacity(alloc, 3)?;
    for bit in [true, false, true] {
        bits.push(bit)?;
    }
    Ok(Mask::from_bits(bits.finish(alloc)?))
}

fn true_rows(alloc: Global) -> VortexResult<usize> {
    let mask = alternating(alloc)?;
    if mask.len() < 3 {
        return Ok(0);
    }
    Ok(mask.slice(1..3)?.true_count())
}

#[test]
fn masks_are_sliced(rt: HostRuntime) -> Result<(), Fail> {
    assert!(rt; true_rows(rt.alloc())? == 1);
    Ok(())
}
