//! Comparison of types.

ghost use Rattle.std.specs.Prelude.{◌≡◌};
ghost use Rattle.vx_value.specs.Types.{same_type};
ghost use Rattle.vx_value.specs.View.{type_of};

use vx_value::{DType, Nullability};

/// The type of a validity's rows. (own)
pub(crate) const BOOLEANS: DType = DType::Bool(Nullability::NonNullable);

/// Returns whether two types are the same. (own)
#[inline]
pub fn is_same_type(dtype: &DType, other: &DType) -> bool
    ensures { result ≡ same_type (type_of dtype.now) (type_of other.now) }
{
    *dtype == *other
}
