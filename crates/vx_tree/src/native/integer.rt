//! What the native integer types have in common.

ghost use Rattle.std.specs.Prelude.{◌≡◌, ◌↔◌, ℤ, map, Some, None, true, option_map, refl, if◌then◌else◌};
ghost use Rattle.std.specs.Int.{w8, w16, w32, w64};
ghost use Rattle.vx_value.specs.IsOf.{in_range};
ghost use Rattle.vx_value.specs.declared.dtype.PType.{PType as PTypeOf};
ghost use Rattle.vx_value.specs.declared.dtype.PType.TheVariants as ptype;
ghost use Rattle.vx_tree.specs.Natives.{values_of, ptype_of};
ghost use Rattle.vx_tree.specs.Ranges.{ptype_native, unsigned_range, signed_range};

use crate::native::number::fitted;
use crate::native::{NativeNumber, NativeValues, PrimitiveValues};
use vx_mask::Buffer;
use vx_value::PType;

/// The integer types that a column can hold. (own)
pub trait NativeInteger: NativeNumber {
    // which of the eight it is
    ghost kind: { PTypeOf };

    /// Returns which of the eight it is.
    fn ptype() -> PType
        ensures { result ≡ kind };

    // it is the type that the kind names
    ghost of_kind: { Self.native ≡ ptype_native kind };

    // the type has the integers of its range
    ghost fits_kind: { (z : ℤ) → Self.fits z ↔ (in_range kind z ≡ true) };

    /// Returns the values as those of a column. Shares their storage.
    final fn wrap(values: Buffer<Self>) -> PrimitiveValues
        ensures same_kind { ptype_of result ≡ kind }
        ensures values { values_of result ≡ map Self.value values }
    {
        NativeValues::new(Self::ptype(), values)
    }

    /// Returns the buffer of `values`, which must be of the type.
    final fn numbers(values: &PrimitiveValues) -> &Buffer<Self>
        requires { ptype_of values.now ≡ kind }
        ensures { map Self.value result.now ≡ values_of values.now }
    {
        values.numbers()
    }

    /// Returns `wide` in the type, or `None` if it is out of range.
    #[inline]
    final fn from_wide(wide: i128) -> Option<Self>
        ensures { option_map Self.value result ≡ (if in_range kind wide then Some wide else None) }
    {
        Self::from_i128(wide)
    }

    /// Returns the number in 128 bits.
    #[inline]
    final fn to_wide(self) -> i128
        ensures wide { result ≡ Self.value self }
        ensures ranged { in_range kind result ≡ true }
    {
        self.widened()
    }

    /// States that the number is in the range of its type.
    final fn number_in_range(self)
        ensures { in_range kind (Self.value self) ≡ true }
    {
        let _in_range = self.to_wide();
    }
}

/// Returns `wide` as a `T`, which it must fit. (own)
pub fn native_of<T: NativeInteger>(wide: i128) -> T
    requires { in_range T.kind wide ≡ true }
    ensures { T.value result ≡ wide }
{
    fitted(wide)
}

impl NativeInteger for u8 {
    ghost kind = { ptype.U8 };

    ghost of_kind = { refl };

    ghost fits_kind = { unsigned_range 8 };

    fn ptype() -> PType {
        PType::U8
    }
}

impl NativeInteger for u16 {
    ghost kind = { ptype.U16 };

    ghost of_kind = { refl };

    ghost fits_kind = { unsigned_range 16 };

    fn ptype() -> PType {
        PType::U16
    }
}

impl NativeInteger for u32 {
    ghost kind = { ptype.U32 };

    ghost of_kind = { refl };

    ghost fits_kind = { unsigned_range 32 };

    fn ptype() -> PType {
        PType::U32
    }
}

impl NativeInteger for u64 {
    ghost kind = { ptype.U64 };

    ghost of_kind = { refl };

    ghost fits_kind = { unsigned_range 64 };

    fn ptype() -> PType {
        PType::U64
    }
}

impl NativeInteger for i8 {
    ghost kind = { ptype.I8 };

    ghost of_kind = { refl };

    ghost fits_kind = { signed_range w8 };

    fn ptype() -> PType {
        PType::I8
    }
}

impl NativeInteger for i16 {
    ghost kind = { ptype.I16 };

    ghost of_kind = { refl };

    ghost fits_kind = { signed_range w16 };

    fn ptype() -> PType {
        PType::I16
    }
}

impl NativeInteger for i32 {
    ghost kind = { ptype.I32 };

    ghost of_kind = { refl };

    ghost fits_kind = { signed_range w32 };

    fn ptype() -> PType {
        PType::I32
    }
}

impl NativeInteger for i64 {
    ghost kind = { ptype.I64 };

    ghost of_kind = { refl };

    ghost fits_kind = { signed_range w64 };

    fn ptype() -> PType {
        PType::I64
    }
}
