//! Vectors of any of the nine types.

ghost use Rattle.std.specs.Prelude.{◌≡◌, ◌<◌, ◌∷◌, [], ◌++◌, pos, map, length, replicate, true, IfOk, OnOk, OnErr};
ghost use Rattle.vx_value.specs.Errors.{OnlyOutOfMemory};
ghost use Rattle.vx_tree.specs.Ranges.{in_native};
ghost use Rattle.vx_tree.specs.Vecs.{native_of_vec, numbers_of_vec, valid_number, valid_numbers};

use crate::native::buffers::shared_of;
use crate::native::macros::{for_natives, made, over};
use crate::native::number::fitted;
use crate::native::{NativeKind, NativeNumber, NativeType, NativeValues};
use std::alloc::{AllocError, Global};
use std::marker::Model;
use vx_mask::{BitBuffer, Buffer};
use vx_value::VortexResult;

/// A vector of numbers of one of the nine native types.
#[derive(Debug, Drop)]
enum AnyVec {
    U8(Vec<u8>),
    U16(Vec<u16>),
    U32(Vec<u32>),
    U64(Vec<u64>),
    I8(Vec<i8>),
    I16(Vec<i16>),
    I32(Vec<i32>),
    I64(Vec<i64>),
    I128(Vec<i128>),
}

/// A vector of numbers of the native type that a kind names. (own)
#[derive(Debug)]
pub struct NativeVec<K: NativeKind> {
    kind: K,
    values: AnyVec,
}

// by hand: see `NativeValues`
impl<K: NativeKind> Drop for NativeVec<K> {
    fn drop(self) {
        let NativeVec { kind: _, values } = self;
        drop(values);
    }
}

impl<K: NativeKind> Model for NativeVec<K> {
    ghost use Rattle.std.specs.Prelude.{◌≡◌};
    ghost use Rattle.vx_tree.specs.Numbers.{Numbers};
    ghost use Rattle.vx_tree.specs.Vecs.{native_of_vec, numbers_of_vec};

    ghost Value = { Numbers K };

    ghost view = { λ v. record { kind = v.kind; numbers = numbers_of_vec v.values } };

    ghost invariant = { λ v. native_of_vec v.values ≡ K.native v.kind };
}

fn push_wide<T: NativeNumber>(values: &mut Vec<T>, wide: i128) -> Result<(), AllocError>
    requires { in_native T.native wide ≡ true }
    ensures ok { OnOk result (map T.value values.new.items ≡ map T.value values.old.items ++ wide ∷ []) }
    ensures err { OnErr result (values.new.items ≡ values.old.items) }
{
    values.push(fitted(wide))?;
    Ok(())
}

fn push_zeros<T: NativeNumber>(values: &mut Vec<T>, count: usize) -> Result<(), AllocError>
    ensures ok { OnOk result (map T.value values.new.items ≡ map T.value values.old.items ++ replicate count (pos 0)) }
    ensures err { OnErr result (values.new.items ≡ values.old.items) }
{
    values.reserve(count)?;
    values.resize(values.len() + count, T::zero())?;
    Ok(())
}

fn push_copies<T: NativeNumber>(
    values: &mut Vec<T>,
    wide: i128,
    count: usize,
) -> Result<(), AllocError>
    requires { in_native T.native wide ≡ true }
    ensures ok { OnOk result (map T.value values.new.items ≡ map T.value values.old.items ++ replicate count wide) }
    ensures err { OnErr result (values.new.items ≡ values.old.items) }
{
    values.reserve(count)?;
    values.resize(values.len() + count, fitted(wide))?;
    Ok(())
}

fn append<K: NativeKind, T: NativeNumber>(
    values: &mut Vec<T>,
    numbers: &NativeValues<K>,
) -> Result<(), AllocError>
    requires { T.native ≡ K.native numbers.now.kind }
    ensures ok { OnOk result (map T.value values.new.items ≡ map T.value values.old.items ++ numbers.now.numbers) }
    ensures err { OnErr result (values.new.items ≡ values.old.items) }
{
    let buffer: &Buffer<T> = numbers.numbers();
    values.extend_from_slice(buffer.as_slice())
}

fn append_valid<K: NativeKind, T: NativeNumber>(
    values: &mut Vec<T>,
    numbers: &NativeValues<K>,
    valid: &BitBuffer,
) -> Result<(), AllocError>
    requires named { T.native ≡ K.native numbers.now.kind }
    requires sized { length valid.now ≡ length numbers.now.numbers }
    ensures ok { OnOk result (map T.value values.new.items ≡ map T.value values.old.items ++ valid_numbers valid.now numbers.now.numbers) }
    ensures err { OnErr result (values.new.items ≡ values.old.items) }
{
    let buffer: &Buffer<T> = numbers.numbers();
    let items = buffer.as_slice();
    values.reserve(items.len())?;
    for index in 0..items.len() {
        values.push_reserved(valid_or_zero(items, valid, index));
    }
    Ok(())
}

/// Returns the number at `index` if its bit in `valid` is true, else 0.
#[inline]
fn valid_or_zero<T: NativeNumber>(numbers: &[T], valid: &BitBuffer, index: usize) -> T
    requires bounds { index < length numbers.now }
    requires sized { length valid.now ≡ length numbers.now }
    ensures { T.value result ≡ valid_number valid.now (map T.value numbers.now) index }
{
    if valid.value(index) {
        numbers[index]
    } else {
        T::zero()
    }
}

fn any_with_capacity(
    alloc: Global,
    native: NativeType,
    capacity: usize,
) -> Result<AnyVec, AllocError>
    ensures native { IfOk result (λ v. native_of_vec v ≡ native) }
    ensures empty { IfOk result (λ v. numbers_of_vec v ≡ []) }
{
    for_natives!(made!(native, NativeType => AnyVec, Vec::with_capacity(alloc, capacity)))
}

impl<K: NativeKind> NativeVec<K> {
    /// Makes an empty vector of numbers of the type that `kind` names, with room for `capacity` of them. Fails only
    /// with `OutOfMemory`.
    pub fn with_capacity(alloc: Global, kind: K, capacity: usize) -> VortexResult<NativeVec<K>>
        ensures ok { IfOk result (λ v. v ≡ record { kind = kind; numbers = [] }) }
        ensures err { OnlyOutOfMemory result }
    {
        let values = any_with_capacity(alloc, kind.native_type(), capacity)?;
        Ok(NativeVec { kind, values })
    }

    /// Appends `wide`, which must fit the type. Fails only with `OutOfMemory`; the numbers are then unchanged.
    pub fn push(&mut self, wide: i128) -> VortexResult<()>
        requires { K.has self.old.kind wide ≡ true }
        ensures ok { OnOk result (self.new ≡ record { kind = self.old.kind; numbers = self.old.numbers ++ wide ∷ [] }) }
        ensures err { OnErr result (self.new ≡ self.old) }
        ensures memory { OnlyOutOfMemory result }
    {
        for_natives!(over!(&mut self.values, AnyVec(values) => push_wide(values, wide)))?;
        Ok(())
    }

    /// Appends 0 `count` times, in one allocation. Fails only with `OutOfMemory`; the numbers are then unchanged.
    pub fn push_zeros(&mut self, count: usize) -> VortexResult<()>
        ensures ok { OnOk result (self.new ≡ record { kind = self.old.kind; numbers = self.old.numbers ++ replicate count (pos 0) }) }
        ensures err { OnErr result (self.new ≡ self.old) }
        ensures memory { OnlyOutOfMemory result }
    {
        for_natives!(over!(&mut self.values, AnyVec(values) => push_zeros(values, count)))?;
        Ok(())
    }

    /// Appends `wide`, which must fit the type, `count` times, in one allocation. Fails only with `OutOfMemory`; the numbers are
    /// then unchanged.
    pub fn push_copies(&mut self, wide: i128, count: usize) -> VortexResult<()>
        requires { K.has self.old.kind wide ≡ true }
        ensures ok { OnOk result (self.new ≡ record { kind = self.old.kind; numbers = self.old.numbers ++ replicate count wide }) }
        ensures err { OnErr result (self.new ≡ self.old) }
        ensures memory { OnlyOutOfMemory result }
    {
        for_natives!(over!(&mut self.values, AnyVec(values) => push_copies(values, wide, count)))?;
        Ok(())
    }

    /// Appends `numbers`, which must be of the same type, in one copy. Fails only with `OutOfMemory`; the numbers are then
    /// unchanged.
    pub fn append(&mut self, numbers: &NativeValues<K>) -> VortexResult<()>
        requires { numbers.now.kind ≡ self.old.kind }
        ensures ok { OnOk result (self.new ≡ record { kind = self.old.kind; numbers = self.old.numbers ++ numbers.now.numbers }) }
        ensures err { OnErr result (self.new ≡ self.old) }
        ensures memory { OnlyOutOfMemory result }
    {
        for_natives!(over!(&mut self.values, AnyVec(values) => append(values, numbers)))?;
        Ok(())
    }

    /// Appends `numbers`, which must be of the same type, with 0 in place of each whose bit in `valid` is false, in one allocation.
    /// Fails only with `OutOfMemory`; the numbers are then unchanged.
    pub fn append_valid(&mut self, numbers: &NativeValues<K>, valid: &BitBuffer) -> VortexResult<()>
        requires kind { numbers.now.kind ≡ self.old.kind }
        requires sized { length valid.now ≡ length numbers.now.numbers }
        ensures ok { OnOk result (self.new ≡ record { kind = self.old.kind; numbers = self.old.numbers ++ valid_numbers valid.now numbers.now.numbers }) }
        ensures err { OnErr result (self.new ≡ self.old) }
        ensures memory { OnlyOutOfMemory result }
    {
        for_natives!(
            over!(&mut self.values, AnyVec(values) => append_valid(values, numbers, valid))
        )?;
        Ok(())
    }

    /// Returns the numbers in shared storage, without copying them. Fails only with `OutOfMemory`.
    pub fn into_values(self, alloc: Global) -> VortexResult<NativeValues<K>>
        ensures ok { IfOk result (λ v. v ≡ self) }
        ensures err { OnlyOutOfMemory result }
    {
        let NativeVec { kind, values } = self;
        for_natives!(over!(values, AnyVec(values) => shared_of(alloc, kind, values)))
    }
}
