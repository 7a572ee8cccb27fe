//! The native integer types, and the kinds that name some of them.

ghost use Rattle.std.specs.Prelude.{◌≡◌, ℤ, Bool};
ghost use Rattle.vx_value.specs.IsOf.{in_range};
ghost use Rattle.vx_tree.specs.declared.native.native.NativeType.{NativeType as NativeTypeOf};
ghost use Rattle.vx_tree.specs.Ranges.{in_native, ptype_native, ptype_range, width_native, width_range};
ghost use Rattle.vx_tree.specs.Widths.{fits_width};

use crate::native::macros::{for_decimals, for_integers, named};
use vx_value::{DecimalType, PType};

/// The native integer types that columns store. (own)
#[derive(Clone, Copy, Debug)]
pub enum NativeType {
    U8,
    U16,
    U32,
    U64,
    I8,
    I16,
    I32,
    I64,
    I128,
}

/// Names some of the native types: `PType` the eight of integers, `DecimalType` the five that decimals are stored in. (own)
pub trait NativeKind: Copy {
    // the type that it names
    ghost native: { Self → NativeTypeOf };

    // which integers that type has
    ghost has: { Self → ℤ → Bool };

    ghost has_native: { (k : Self) (z : ℤ) → has k z ≡ in_native (native k) z };

    /// Returns the type that it names.
    fn native_type(self) -> NativeType
        ensures { result ≡ native self };
}

impl NativeKind for PType {
    ghost native = { ptype_native };

    ghost has = { in_range };

    ghost has_native = { ptype_range };

    fn native_type(self) -> NativeType {
        for_integers!(named!(self, PType => NativeType))
    }
}

impl NativeKind for DecimalType {
    ghost native = { width_native };

    ghost has = { fits_width };

    ghost has_native = { width_range };

    fn native_type(self) -> NativeType {
        for_decimals!(named!(self, DecimalType => NativeType))
    }
}
