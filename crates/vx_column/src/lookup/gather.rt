//! Columns gathered by the numbers of their rows.

ghost use Rattle.std.specs.Prelude.{◌≡◌, ◌&&◌, ◌<◌, ℕ, length, map, IfOk};
ghost use Rattle.std.specs.List.{range_with_len};
ghost use Rattle.vx_value.specs.Errors.{OnlyOutOfMemory};
ghost use Rattle.vx_value.specs.Nullabilities.{union};
ghost use Rattle.vx_mask.specs.Operands.{bit_in};
ghost use Rattle.vx_tree.specs.Canonicals.{canonical_tree};
ghost use Rattle.vx_column.specs.Arguments.{HasStored};
ghost use Rattle.vx_column.specs.LookedUp.{place_at, IsGathered};
ghost use Rattle.vx_column.specs.ValidRows.{is_valid, HasValidity, nullability_in};

use crate::functions::kernel::{stored_column, valid_bools, valid_bytes};
use crate::lookup::numbers::{gather_decimals, gather_integers};
use crate::lookup::views::gather_bytes;
use crate::rows::{ArgumentRows, ValidRows};
use std::alloc::{AllocError, Global};
use vx_mask::{BitBuffer, BitBuilder, BitOperand};
use vx_tree::Canonical;
use vx_value::VortexResult;

/// Makes the column of `rows` at `places`, `len` of them; null in each row that isn't `valid`, where nothing is looked up.
/// Fails only with `OutOfMemory`.
#[tactic(auto, using(crate::proofs::ValidRowsLemmas::counted))]
pub(crate) fn gather(
    alloc: Global,
    rows: ArgumentRows<'_>,
    places: &[u64],
    valid: &ValidRows,
    len: usize,
) -> VortexResult<Canonical>
    requires rows { (n : ℕ) × HasStored rows n }
    requires places { length places.now ≡ len }
    requires valid { HasValidity valid.now len }
    ensures ok { IfOk result (λ c. IsGathered rows.entry places.now valid.now len (canonical_tree c)) }
    ensures err { OnlyOutOfMemory result }
{
    match rows {
        ArgumentRows::Nulls => stored_column(alloc, rows, valid, len),
        ArgumentRows::Bits(bits) => {
            let bits = gather_bits(alloc, bits, places, valid, len)?;
            valid_bools(alloc, bits, valid, len)
        }
        ArgumentRows::Integers(integers) => gather_integers(alloc, integers, places, valid, len),
        ArgumentRows::Decimals(decimals) => gather_decimals(alloc, decimals, places, valid, len),
        ArgumentRows::Bytes(bytes) => {
            let rows = gather_bytes(alloc, bytes, places, valid, len)?;
            valid_bytes(alloc, bytes.storage, rows, valid, len)
        }
    }
}

/// Returns the rows that are valid of `len` codes at `places` among `values`: `codes` says which codes are.
pub(crate) fn gather_valid(
    alloc: Global,
    codes: &ValidRows,
    values: &ValidRows,
    places: &[u64],
    len: usize,
) -> Result<ValidRows, AllocError>
    requires places { length places.now ≡ len }
    requires codes { HasValidity codes.now len }
    ensures rows { IfOk result (λ r. (i : ℕ) → i < len → is_valid r i ≡ (is_valid codes.now i && is_valid values.now (place_at places.now i))) }
    ensures sized { IfOk result (λ r. HasValidity r len) }
    ensures nullability { IfOk result (λ r. nullability_in r ≡ union (nullability_in codes.now) (nullability_in values.now)) }
{
    match (codes, values) {
        (ValidRows::All(first), ValidRows::All(second)) => Ok(ValidRows::All(first.union(*second))),
        (ValidRows::Bits(bits), ValidRows::All(_)) => Ok(ValidRows::Bits(bits.clone()?)),
        _ => {
            let bits = gather_bits(alloc, values.as_operand(), places, codes, len)?;
            Ok(ValidRows::Bits(bits))
        }
    }
}

/// Returns `bits` at `places`, `len` of them; `false` in each row that isn't `valid`.
fn gather_bits(
    alloc: Global,
    bits: BitOperand<'_>,
    places: &[u64],
    valid: &ValidRows,
    len: usize,
) -> Result<BitBuffer, AllocError>
    requires places { length places.now ≡ len }
    requires valid { HasValidity valid.now len }
    ensures { IfOk result (λ b. b ≡ map (λ i. is_valid valid.now i && bit_in bits.entry (place_at places.now i)) (range_with_len 0 len)) }
{
    let mut gathered = BitBuilder::with_capacity(alloc, len)?;
    for index in 0..len {
        let kept = kept_bit(valid.is_valid(index), bits, places[index] as usize);
        gathered.push(kept)?;
    }
    gathered.finish(alloc)
}

/// Returns the bit at `place` if its row is `valid`, else `false`.
#[inline]
fn kept_bit(valid: bool, bits: BitOperand<'_>, place: usize) -> bool
    ensures { result ≡ (valid && bit_in bits.entry place) }
{
    valid && bit_at(bits, place)
}

/// Returns the bit at `place`; `false` past the last one.
#[inline]
fn bit_at(bits: BitOperand<'_>, place: usize) -> bool
    ensures { result ≡ bit_in bits.entry place }
{
    match bits {
        BitOperand::Bits(rows) => rows.get(place).unwrap_or(false),
        BitOperand::Bit(bit) => bit,
    }
}
