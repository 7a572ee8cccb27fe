//! What all native integer types have in common.

ghost use Rattle.std.specs.Prelude.{◌≡◌, ◌↔◌, ℤ, map, true};
ghost use Rattle.std.specs.Int.{w8, w16, w32, w64, w128};
ghost use Rattle.vx_tree.specs.declared.native.native.NativeType.{NativeType as NativeTypeOf};
ghost use Rattle.vx_tree.specs.declared.native.native.NativeType.TheVariants as native;
ghost use Rattle.vx_tree.specs.declared.native.buffer.NativeBuffer.TheVariants as variant;
ghost use Rattle.vx_tree.specs.Buffers.{native_in, numbers_in};
ghost use Rattle.vx_tree.specs.Ranges.{in_native, unsigned_range, signed_range, same_number};

use crate::native::NativeBuffer;
use crate::native::macros::numbers_of;
use num_traits::{FromPrimitive, Integral, Zero};
use vx_mask::Buffer;

/// The native integer types that a column stores: the eight of `NativeInteger`, and `i128`. (own)
// no more of num_traits than columns need: each function over such a type is proved with all that it has
pub trait NativeNumber: Copy + Integral + Zero + FromPrimitive {
    // which of the nine it is
    ghost native: { NativeTypeOf };

    /// Returns the number, one of the type's, in 128 bits.
    fn widened(self) -> i128
        ensures value { result ≡ Self.value self }
        ensures fits { Self.fits result };

    /// Returns the numbers in `buffer`, which must be of this type.
    fn of_native(buffer: &NativeBuffer) -> &Buffer<Self>
        requires { native ≡ native_in buffer.now }
        ensures { map Self.value result.now ≡ numbers_in buffer.now };

    /// Returns `numbers` as a `NativeBuffer`. Shares their storage.
    fn into_native(numbers: Buffer<Self>) -> NativeBuffer
        ensures of_type { native_in result ≡ native }
        ensures same { numbers_in result ≡ map Self.value numbers };

    // a clone is the number itself
    ghost clones_same: { (x y : Self) → Self.is_clone x y → y ≡ x };

    // the type has the integers of its range
    ghost fits_native: { (z : ℤ) → Self.fits z ↔ (in_native native z ≡ true) };

    /// Returns the number in 128 bits.
    #[inline]
    final fn wide(self) -> i128
        ensures { result ≡ Self.value self }
    {
        self.widened()
    }
}

/// Returns `wide` as a `T`, which it must fit.
pub(crate) fn fitted<T: NativeNumber>(wide: i128) -> T
    requires { in_native T.native wide ≡ true }
    ensures { T.value result ≡ wide }
{
    let Some(value) = T::from_i128(wide) else {
        unreachable!()
    };
    value
}

impl NativeNumber for u8 {
    ghost native = { native.U8 };

    #[inline]
    fn widened(self) -> i128 {
        self as i128
    }

    fn of_native(buffer: &NativeBuffer) -> &Buffer<u8> {
        numbers_of!(buffer, U8)
    }

    fn into_native(numbers: Buffer<u8>) -> NativeBuffer
        ensures { result ≡ variant.U8 numbers }
    {
        NativeBuffer::U8(numbers)
    }

    ghost clones_same = { same_number };

    ghost fits_native = { unsigned_range 8 };
}

impl NativeNumber for u16 {
    ghost native = { native.U16 };

    #[inline]
    fn widened(self) -> i128 {
        self as i128
    }

    fn of_native(buffer: &NativeBuffer) -> &Buffer<u16> {
        numbers_of!(buffer, U16)
    }

    fn into_native(numbers: Buffer<u16>) -> NativeBuffer
        ensures { result ≡ variant.U16 numbers }
    {
        NativeBuffer::U16(numbers)
    }

    ghost clones_same = { same_number };

    ghost fits_native = { unsigned_range 16 };
}

impl NativeNumber for u32 {
    ghost native = { native.U32 };

    #[inline]
    fn widened(self) -> i128 {
        self as i128
    }

    fn of_native(buffer: &NativeBuffer) -> &Buffer<u32> {
        numbers_of!(buffer, U32)
    }

    fn into_native(numbers: Buffer<u32>) -> NativeBuffer
        ensures { result ≡ variant.U32 numbers }
    {
        NativeBuffer::U32(numbers)
    }

    ghost clones_same = { same_number };

    ghost fits_native = { unsigned_range 32 };
}

impl NativeNumber for u64 {
    ghost native = { native.U64 };

    #[inline]
    fn widened(self) -> i128 {
        self as i128
    }

    fn of_native(buffer: &NativeBuffer) -> &Buffer<u64> {
        numbers_of!(buffer, U64)
    }

    fn into_native(numbers: Buffer<u64>) -> NativeBuffer
        ensures { result ≡ variant.U64 numbers }
    {
        NativeBuffer::U64(numbers)
    }

    ghost clones_same = { same_number };

    ghost fits_native = { unsigned_range 64 };
}

impl NativeNumber for i8 {
    ghost native = { native.I8 };

    #[inline]
    fn widened(self) -> i128 {
        self as i128
    }

    fn of_native(buffer: &NativeBuffer) -> &Buffer<i8> {
        numbers_of!(buffer, I8)
    }

    fn into_native(numbers: Buffer<i8>) -> NativeBuffer
        ensures { result ≡ variant.I8 numbers }
    {
        NativeBuffer::I8(numbers)
    }

    ghost clones_same = { same_number };

    ghost fits_native = { signed_range w8 };
}

impl NativeNumber for i16 {
    ghost native = { native.I16 };

    #[inline]
    fn widened(self) -> i128 {
        self as i128
    }

    fn of_native(buffer: &NativeBuffer) -> &Buffer<i16> {
        numbers_of!(buffer, I16)
    }

    fn into_native(numbers: Buffer<i16>) -> NativeBuffer
        ensures { result ≡ variant.I16 numbers }
    {
        NativeBuffer::I16(numbers)
    }

    ghost clones_same = { same_number };

    ghost fits_native = { signed_range w16 };
}

impl NativeNumber for i32 {
    ghost native = { native.I32 };

    #[inline]
    fn widened(self) -> i128 {
        self as i128
    }

    fn of_native(buffer: &NativeBuffer) -> &Buffer<i32> {
        numbers_of!(buffer, I32)
    }

    fn into_native(numbers: Buffer<i32>) -> NativeBuffer
        ensures { result ≡ variant.I32 numbers }
    {
        NativeBuffer::I32(numbers)
    }

    ghost clones_same = { same_number };

    ghost fits_native = { signed_range w32 };
}

impl NativeNumber for i64 {
    ghost native = { native.I64 };

    #[inline]
    fn widened(self) -> i128 {
        self as i128
    }

    fn of_native(buffer: &NativeBuffer) -> &Buffer<i64> {
        numbers_of!(buffer, I64)
    }

    fn into_native(numbers: Buffer<i64>) -> NativeBuffer
        ensures { result ≡ variant.I64 numbers }
    {
        NativeBuffer::I64(numbers)
    }

    ghost clones_same = { same_number };

    ghost fits_native = { signed_range w64 };
}

impl NativeNumber for i128 {
    ghost native = { native.I128 };

    #[inline]
    fn widened(self) -> i128 {
        self
    }

    fn of_native(buffer: &NativeBuffer) -> &Buffer<i128> {
        numbers_of!(buffer, I128)
    }

    fn into_native(numbers: Buffer<i128>) -> NativeBuffer
        ensures { result ≡ variant.I128 numbers }
    {
        NativeBuffer::I128(numbers)
    }

    ghost clones_same = { same_number };

    ghost fits_native = { signed_range w128 };
}
