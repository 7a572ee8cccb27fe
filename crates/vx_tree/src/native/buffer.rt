//! Numbers of any of the nine types.

ghost use Rattle.std.specs.Prelude.{◌≡◌, IfOk, true, replicate};
ghost use Rattle.vx_tree.specs.Ranges.{in_native};
ghost use Rattle.vx_tree.specs.Buffers.{native_in, numbers_in};

use crate::native::NativeType;
use crate::native::buffers::{clone_of, copies_of};
use crate::{at_type, by_native};
use std::alloc::{AllocError, Global};
use vx_mask::Buffer;

/// Numbers of one of the nine native types, in shared storage. (own)
#[derive(Debug, Drop)]
pub enum NativeBuffer {
    U8(Buffer<u8>),
    U16(Buffer<u16>),
    U32(Buffer<u32>),
    U64(Buffer<u64>),
    I8(Buffer<i8>),
    I16(Buffer<i16>),
    I32(Buffer<i32>),
    I64(Buffer<i64>),
    I128(Buffer<i128>),
}

impl NativeBuffer {
    /// Returns `len` copies of `wide`, which must fit the type. Takes one allocation.
    pub(crate) fn repeat(
        alloc: Global,
        native: NativeType,
        wide: i128,
        len: usize,
    ) -> Result<NativeBuffer, AllocError>
        requires { in_native native wide ≡ true }
        ensures native { IfOk result (λ copies. native_in copies ≡ native) }
        ensures numbers { IfOk result (λ copies. numbers_in copies ≡ replicate len wide) }
    {
        at_type!(
            native,
            NativeType[U8 = u8, U16 = u16, U32 = u32, U64 = u64, I8 = i8, I16 = i16, I32 = i32, I64 = i64, I128 = i128],
            copies_of(alloc, wide, len)
        )
    }
}

impl Clone for NativeBuffer {
    ghost is_clone = { λ a b. (native_in b ≡ native_in a) × (numbers_in b ≡ numbers_in a) };

    fn clone(&self) -> Result<NativeBuffer, AllocError> {
        by_native!(self, |numbers| clone_of(numbers))
    }
}
