//! Values of columns: numbers of a type that a kind names.

ghost use Rattle.std.specs.Prelude.{◌≡◌, ◌<◌, ◌≤◌, map, length, IfOk, Some, true, slice_get, slice_range, replicate};
ghost use Rattle.std.specs.List.{list_all};
ghost use Rattle.vx_value.specs.Errors.{OnlyOutOfMemory};
ghost use Rattle.vx_value.specs.Decimals.{has_digits};
ghost use Rattle.vx_mask.specs.Masks.{bits_in};
ghost use Rattle.vx_mask.specs.Places.{chosen};
ghost use Rattle.vx_tree.specs.Buffers.{native_in, numbers_in};

use crate::by_native;
use crate::native::buffers::{all_digits, chosen_of, number_at, part_of};
use crate::native::{NativeBuffer, NativeKind, NativeNumber};
use std::alloc::{AllocError, Global};
use std::marker::Model;
use std::ops::Range;
use vx_mask::{Buffer, Mask};
use vx_value::{DecimalDType, DecimalType, PType, VortexResult};

/// Numbers of the native type that a kind names, in shared storage. (own)
#[derive(Debug)]
pub struct NativeValues<K: NativeKind> {
    kind: K,
    buffer: NativeBuffer,
}

// by hand: a derived drop would be proved with all nine buffers wherever values are dropped
impl<K: NativeKind> Drop for NativeValues<K> {
    fn drop(self) {
        let NativeValues { kind: _, buffer } = self;
        drop(buffer);
    }
}

/// Integers of one of the eight types, in shared storage.
pub type PrimitiveValues = NativeValues<PType>;

/// Decimals without their points, integers of one width, in shared storage.
pub type DecimalValues = NativeValues<DecimalType>;

impl<K: NativeKind> Model for NativeValues<K> {
    ghost use Rattle.std.specs.Prelude.{◌≡◌};
    ghost use Rattle.vx_tree.specs.Numbers.{Numbers};
    ghost use Rattle.vx_tree.specs.Buffers.{native_in, numbers_in};

    ghost Value = { Numbers K };

    ghost view = { λ v. record { kind = v.kind; numbers = numbers_in v.buffer } };

    ghost invariant = { λ v. native_in v.buffer ≡ K.native v.kind };
}

impl<K: NativeKind> NativeValues<K> {
    /// Makes values of the numbers in `buffer`, which must be of the type that `kind` names.
    pub(crate) fn of(kind: K, buffer: NativeBuffer) -> NativeValues<K>
        requires { native_in buffer ≡ K.native kind }
        ensures { result ≡ record { kind = kind; numbers = numbers_in buffer } }
    {
        NativeValues { kind, buffer }
    }

    /// Makes values of numbers of the type that `kind` names. Shares their storage.
    pub fn new<T: NativeNumber>(kind: K, numbers: Buffer<T>) -> NativeValues<K>
        requires { T.native ≡ K.native kind }
        ensures { result ≡ record { kind = kind; numbers = map T.value numbers } }
    {
        NativeValues::of(kind, T::into_native(numbers))
    }

    /// Returns the values as numbers of `T`, which must be the type that their kind names.
    pub fn numbers<T: NativeNumber>(&self) -> &Buffer<T>
        requires { T.native ≡ K.native self.now.kind }
        ensures { map T.value result.now ≡ self.now.numbers }
    {
        T::of_native(&self.buffer)
    }

    /// Returns the numbers, whatever type the kind names. (own)
    pub fn buffer(&self) -> &NativeBuffer
        ensures { numbers_in result.now ≡ self.now.numbers }
    {
        &self.buffer
    }

    /// Returns the number of values.
    pub fn len(&self) -> usize
        ensures { result ≡ length self.now.numbers }
    {
        by_native!(&self.buffer, |numbers| numbers.len())
    }

    /// Returns the value at `index`, counted from 0. It must be in bounds. (own)
    pub fn wide_at(&self, index: usize) -> i128
        requires { index < length self.now.numbers }
        ensures value { slice_get self.now.numbers index ≡ Some result }
        ensures ranged { K.has self.now.kind result ≡ true }
    {
        by_native!(&self.buffer, |numbers| number_at(self.kind, numbers, index))
    }

    /// Returns the values in `range`, which must be in order and in bounds. Shares their storage. Fails only with
    /// `OutOfMemory`.
    pub fn slice(&self, range: Range<usize>) -> VortexResult<NativeValues<K>>
        requires order { range.start ≤ range.end }
        requires bounds { range.end ≤ length self.now.numbers }
        ensures ok { IfOk result (λ part. part ≡ record { kind = self.now.kind; numbers = slice_range self.now.numbers range.start range.end }) }
        ensures err { OnlyOutOfMemory result }
    {
        by_native!(&self.buffer, |numbers| part_of(self.kind, numbers, range))
    }

    /// Returns the values at the true bits of `mask`, in order; it must have a bit for each value. Shares their storage if the
    /// true bits are consecutive. Fails only with `OutOfMemory`.
    pub fn filter(&self, alloc: Global, mask: &Mask) -> VortexResult<NativeValues<K>>
        requires { length (bits_in mask.now) ≡ length self.now.numbers }
        ensures ok { IfOk result (λ kept. kept ≡ record { kind = self.now.kind; numbers = chosen (bits_in mask.now) self.now.numbers }) }
        ensures err { OnlyOutOfMemory result }
    {
        by_native!(
            &self.buffer,
            |numbers| chosen_of(self.kind, numbers, alloc, mask)
        )
    }

    /// Returns `len` copies of `wide`, which must fit the type that `kind` names. Takes one allocation. Fails only with
    /// `OutOfMemory`. (own)
    pub fn repeat(alloc: Global, kind: K, wide: i128, len: usize) -> VortexResult<NativeValues<K>>
        requires { K.has kind wide ≡ true }
        ensures ok { IfOk result (λ copies. copies ≡ record { kind = kind; numbers = replicate len wide }) }
        ensures err { OnlyOutOfMemory result }
    {
        let buffer = NativeBuffer::repeat(alloc, kind.native_type(), wide, len)?;
        Ok(NativeValues::of(kind, buffer))
    }
}

impl PrimitiveValues {
    /// Returns the type of the values.
    pub fn ptype(&self) -> PType
        ensures { result ≡ self.now.kind }
    {
        self.kind
    }
}

impl DecimalValues {
    /// Returns the width of the values.
    pub fn values_type(&self) -> DecimalType
        ensures { result ≡ self.now.kind }
    {
        self.kind
    }

    /// Checks whether each value has at most as many digits as the precision of `decimal`. (own)
    pub fn has_digits(&self, decimal: &DecimalDType) -> bool
        ensures { result ≡ list_all (has_digits decimal.now.precision) self.now.numbers }
    {
        by_native!(&self.buffer, |numbers| all_digits(numbers, decimal))
    }
}

impl<K: NativeKind> Clone for NativeValues<K> {
    ghost is_clone = { λ a b. b ≡ a };

    fn clone(&self) -> Result<NativeValues<K>, AllocError> {
        Ok(NativeValues::of(self.kind, self.buffer.clone()?))
    }
}
