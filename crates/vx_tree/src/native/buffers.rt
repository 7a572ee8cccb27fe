//! Buffers of numbers, as lists of the integers that they stand for.

ghost use Rattle.std.specs.Prelude.{◌≡◌, ◌<◌, ◌≤◌, map, length, IfOk, Some, true, slice_get, slice_range, replicate};
ghost use Rattle.vx_value.specs.Errors.{OnlyOutOfMemory};
ghost use Rattle.vx_tree.specs.Buffers.{native_in, numbers_in};
ghost use Rattle.std.specs.List.{list_all};
ghost use Rattle.vx_value.specs.Decimals.{has_digits};
ghost use Rattle.vx_tree.specs.Ranges.{in_native};
ghost use Rattle.vx_mask.specs.Masks.{bits_in};
ghost use Rattle.vx_mask.specs.Places.{chosen};

use crate::native::number::fitted;
use crate::native::{NativeBuffer, NativeKind, NativeNumber, NativeValues};
use std::alloc::{AllocError, Global};
use std::ops::Range;
use vx_mask::{Buffer, Mask};
use vx_value::{DecimalDType, VortexResult};

/// Returns the number at `index`, counted from 0. It must be in bounds.
pub(crate) fn number_at<K: NativeKind, T: NativeNumber>(
    kind: K,
    buffer: &Buffer<T>,
    index: usize,
) -> i128
    requires named { T.native ≡ K.native kind }
    requires bounds { index < length (map T.value buffer.now) }
    ensures value { slice_get (map T.value buffer.now) index ≡ Some result }
    ensures ranged { K.has kind result ≡ true }
{
    buffer.as_slice()[index].widened()
}

/// Returns the numbers in `range`, which must be in order and in bounds. Shares their storage. Fails only with
/// `OutOfMemory`.
#[tactic(auto, using(crate::proofs::NativesLemmas::map_part))]
pub(crate) fn part_of<K: NativeKind, T: NativeNumber>(
    kind: K,
    buffer: &Buffer<T>,
    range: Range<usize>,
) -> VortexResult<NativeValues<K>>
    requires named { T.native ≡ K.native kind }
    requires order { range.start ≤ range.end }
    requires bounds { range.end ≤ length (map T.value buffer.now) }
    ensures ok { IfOk result (λ part. part ≡ record { kind = kind; numbers = slice_range (map T.value buffer.now) range.start range.end }) }
    ensures err { OnlyOutOfMemory result }
{
    Ok(NativeValues::new(kind, buffer.slice(range)?))
}

/// Returns the numbers at the true bits of `mask`, in order; it must have a bit for each number. Shares their storage if the
/// true bits are consecutive. Fails only with `OutOfMemory`.
#[tactic(auto, using(vx_mask::proofs::ChosenLemmas::chosen_map))]
pub(crate) fn chosen_of<K: NativeKind, T: NativeNumber>(
    kind: K,
    buffer: &Buffer<T>,
    alloc: Global,
    mask: &Mask,
) -> VortexResult<NativeValues<K>>
    requires named { T.native ≡ K.native kind }
    requires sized { length (bits_in mask.now) ≡ length (map T.value buffer.now) }
    ensures ok { IfOk result (λ kept. kept ≡ record { kind = kind; numbers = chosen (bits_in mask.now) (map T.value buffer.now) }) }
    ensures err { OnlyOutOfMemory result }
{
    Ok(NativeValues::new(kind, buffer.filter(alloc, mask)?))
}

/// Returns the numbers in `values` in shared storage, without copying them. Fails only with `OutOfMemory`.
pub(crate) fn shared_of<K: NativeKind, T: NativeNumber>(
    alloc: Global,
    kind: K,
    values: Vec<T>,
) -> VortexResult<NativeValues<K>>
    requires { T.native ≡ K.native kind }
    ensures ok { IfOk result (λ shared. shared ≡ record { kind = kind; numbers = map T.value values.items }) }
    ensures err { OnlyOutOfMemory result }
{
    Ok(NativeValues::new(kind, Buffer::from_vec(alloc, values)?))
}

/// Returns `len` copies of `wide`, which must fit the type. Takes one allocation.
pub(crate) fn copies_of<T: NativeNumber>(
    alloc: Global,
    wide: i128,
    len: usize,
) -> Result<NativeBuffer, AllocError>
    requires { in_native T.native wide ≡ true }
    ensures native { IfOk result (λ copies. native_in copies ≡ T.native) }
    ensures numbers { IfOk result (λ copies. numbers_in copies ≡ replicate len wide) }
{
    let value: T = fitted(wide);
    let values = vec![in alloc; value; len]?;
    Ok(T::into_native(Buffer::from_vec(alloc, values)?))
}

/// Returns the same numbers, in the storage of `buffer`.
pub(crate) fn clone_of<T: NativeNumber>(buffer: &Buffer<T>) -> Result<NativeBuffer, AllocError>
    ensures native { IfOk result (λ copy. native_in copy ≡ T.native) }
    ensures numbers { IfOk result (λ copy. numbers_in copy ≡ map T.value buffer.now) }
{
    Ok(T::into_native(buffer.clone()?))
}

/// Checks whether each number has at most as many digits as the precision of `decimal`.
pub(crate) fn all_digits<T: NativeNumber>(buffer: &Buffer<T>, decimal: &DecimalDType) -> bool
    ensures { result ≡ list_all (has_digits decimal.now.precision) (map T.value buffer.now) }
{
    let digits = decimal.digits();
    for value in buffer.as_slice() {
        if !digits.contain(value.wide()) {
            return false;
        }
    }
    true
}
