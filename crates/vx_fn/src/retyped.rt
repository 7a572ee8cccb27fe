//! The values of scalars, and scalars with another nullability.

ghost use Rattle.std.specs.Prelude.{◌≡◌, IfOk, true};
ghost use Rattle.vx_value.specs.Errors.{OnlyOutOfMemory};
ghost use Rattle.vx_value.specs.View.{type_of, cell_of};
ghost use Rattle.vx_value.specs.IsOf.{is_of};
ghost use Rattle.vx_value.specs.Fits.{ListsFit};

use vx_value::{DType, Scalar, ScalarValue, VortexResult};

/// Returns the value of `scalar`; `None` is null. Bytes and nested values are shared. Fails only with `OutOfMemory`.
pub(crate) fn value_of(scalar: &Scalar) -> VortexResult<Option<ScalarValue>>
    ensures ok { IfOk result (λ v. cell_of v ≡ scalar.now.value) }
    ensures err { OnlyOutOfMemory result }
{
    match scalar.value() {
        Some(value) => Ok(Some(value.clone()?)),
        None => Ok(None),
    }
}

/// Returns the value of `scalar` as one of type `dtype`, which must be able to hold it. Fails only with `OutOfMemory`.
pub(crate) fn retyped(scalar: &Scalar, dtype: DType) -> VortexResult<Scalar>
    requires typed { is_of (type_of dtype) scalar.now.value ≡ true }
    requires fits { ListsFit (type_of dtype) scalar.now.value }
    ensures ok { IfOk result (λ s. s ≡ record { of_type = type_of dtype; value = scalar.now.value }) }
    ensures err { OnlyOutOfMemory result }
{
    Ok(Scalar::new_unchecked(dtype, value_of(scalar)?))
}
