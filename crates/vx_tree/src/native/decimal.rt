//! What the integer types that decimals are stored in have in common.

ghost use Rattle.std.specs.Prelude.{◌≡◌, ◌↔◌, ℤ, map, Some, None, true, option_map, refl, if◌then◌else◌};
ghost use Rattle.std.specs.Int.{w8, w16, w32, w64, w128};
ghost use Rattle.vx_value.specs.declared.decimal.DecimalType.{DecimalType as WidthOf};
ghost use Rattle.vx_value.specs.declared.decimal.DecimalType.TheVariants as width;
ghost use Rattle.vx_tree.specs.Widths.{fits_width};
ghost use Rattle.vx_tree.specs.DecimalNumbers.{numbers_of, decimal_type_of};
ghost use Rattle.vx_tree.specs.Ranges.{width_native, signed_range};

use crate::native::number::fitted;
use crate::native::{DecimalValues, NativeNumber, NativeValues};
use vx_mask::Buffer;
use vx_value::DecimalType;

/// The integer types that decimals are stored in, without their points.
pub trait NativeDecimalType: NativeNumber {
    // which of the five it is
    ghost kind: { WidthOf };

    /// Returns which of the five it is.
    fn decimal_type() -> DecimalType
        ensures { result ≡ kind };

    // it is the type that the kind names
    ghost of_kind: { Self.native ≡ width_native kind };

    // the type has the integers of its width
    ghost fits_kind: { (z : ℤ) → Self.fits z ↔ (fits_width kind z ≡ true) };

    /// Returns the numbers as those of a column. Shares their storage.
    final fn wrap_decimals(values: Buffer<Self>) -> DecimalValues
        ensures same_kind { decimal_type_of result ≡ kind }
        ensures values { numbers_of result ≡ map Self.value values }
    {
        NativeValues::new(Self::decimal_type(), values)
    }

    /// Returns the buffer of `values`, which must be of the width.
    final fn decimals(values: &DecimalValues) -> &Buffer<Self>
        requires { decimal_type_of values.now ≡ kind }
        ensures { map Self.value result.now ≡ numbers_of values.now }
    {
        values.numbers()
    }

    /// Returns `wide` in the type, or `None` if it doesn't fit.
    #[inline]
    final fn narrow(wide: i128) -> Option<Self>
        ensures { option_map Self.value result ≡ (if fits_width kind wide then Some wide else None) }
    {
        Self::from_i128(wide)
    }
}

/// Returns `wide` as a `T`, which it must fit. (own)
pub fn narrowed<T: NativeDecimalType>(wide: i128) -> T
    requires { fits_width T.kind wide ≡ true }
    ensures { T.value result ≡ wide }
{
    fitted(wide)
}

impl NativeDecimalType for i8 {
    ghost kind = { width.I8 };

    ghost of_kind = { refl };

    ghost fits_kind = { signed_range w8 };

    fn decimal_type() -> DecimalType {
        DecimalType::I8
    }
}

impl NativeDecimalType for i16 {
    ghost kind = { width.I16 };

    ghost of_kind = { refl };

    ghost fits_kind = { signed_range w16 };

    fn decimal_type() -> DecimalType {
        DecimalType::I16
    }
}

impl NativeDecimalType for i32 {
    ghost kind = { width.I32 };

    ghost of_kind = { refl };

    ghost fits_kind = { signed_range w32 };

    fn decimal_type() -> DecimalType {
        DecimalType::I32
    }
}

impl NativeDecimalType for i64 {
    ghost kind = { width.I64 };

    ghost of_kind = { refl };

    ghost fits_kind = { signed_range w64 };

    fn decimal_type() -> DecimalType {
        DecimalType::I64
    }
}

impl NativeDecimalType for i128 {
    ghost kind = { width.I128 };

    ghost of_kind = { refl };

    ghost fits_kind = { signed_range w128 };

    fn decimal_type() -> DecimalType {
        DecimalType::I128
    }
}
