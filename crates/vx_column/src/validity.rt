//! Tests which rows of a column aren't null.

ghost use Rattle.std.specs.Prelude.{◌≡◌, ◌<◌, ℕ, length, IfOk, IfErr};
ghost use Rattle.vx_mask.specs.Logic.{bit_row};
ghost use Rattle.vx_tree.specs.Tree.{validity_in};
ghost use Rattle.vx_tree.specs.Keeps.{KeepsExactly};
ghost use Rattle.vx_tree.specs.Canonicals.{canonical_tree, columnar_tree};
ghost use Rattle.vx_column.specs.Arguments.{IsUnread};
ghost use Rattle.vx_column.specs.Formed.{TellsShown};
ghost use Rattle.vx_column.specs.ValidRows.{is_valid, HasValidity};

use crate::rows::{ValidRows, argument_of, bool_column, execute_scalar};
use std::alloc::{AllocError, Global};
use vx_mask::{BitBuffer, BitBuilder};
use vx_tree::{ArrayRef, Canonical, Columnar, Validity};
use vx_value::VortexResult;

/// Tests each row of `column` for not being null. Returns a column of non-nullable booleans. (own)
///
/// # Errors
///
/// `Fault` if a row of `column` has no value; `OutOfMemory`.
pub fn validity_canonical(alloc: Global, column: &Columnar) -> VortexResult<Canonical>
    ensures ok { IfOk result (λ c. KeepsExactly (validity_in (columnar_tree column.now)) (canonical_tree c)) }
    ensures err { IfErr result (IsUnread (columnar_tree column.now)) }
{
    match shown_bits(alloc, column) {
        Ok(bits) => bool_column(alloc, bits, &Validity::NonNullable),
        Err(e) => Err(e),
    }
}

/// Returns a bit for each row of `column`, true if the row isn't null. `Fault` if a row has no value.
#[tactic(auto, using(crate::proofs::ShownLemmas::argument_shown))]
fn shown_bits(alloc: Global, column: &Columnar) -> VortexResult<BitBuffer>
    ensures ok { IfOk result (TellsShown (columnar_tree column.now)) }
    ensures err { IfErr result (IsUnread (columnar_tree column.now)) }
{
    let array = column.as_array();
    if column.dtype().is_nested() {
        return shown_rows(alloc, array);
    }
    array.well_formed_tree();
    match argument_of(alloc, column) {
        Ok(argument) => Ok(valid_bits(alloc, argument.valid, array.len())?),
        Err(e) => Err(e),
    }
}

/// Returns a bit for each row of `array`, true if the row isn't null. Reads them one by one. `Fault` if a row has no value.
#[tactic(auto, using(crate::proofs::ShownLemmas::shown_more, crate::proofs::ShownLemmas::all_shown))]
fn shown_rows(alloc: Global, array: &ArrayRef) -> VortexResult<BitBuffer>
    ensures ok { IfOk result (TellsShown array.now) }
    ensures err { IfErr result (IsUnread array.now) }
{
    array.well_formed_tree();
    let mut bits = BitBuilder::with_capacity(alloc, array.len())?;
    for index in 0..array.len() {
        match execute_scalar(alloc, array, index) {
            Ok(scalar) => bits.push(!scalar.is_null())?,
            Err(e) => return Err(e),
        }
    }
    Ok(bits.finish(alloc)?)
}

/// Returns a bit for each of `len` rows, true if the row is `valid`.
fn valid_bits(alloc: Global, valid: ValidRows, len: usize) -> Result<BitBuffer, AllocError>
    requires { HasValidity valid len }
    ensures sized { IfOk result (λ bits. length bits ≡ len) }
    ensures rows { IfOk result (λ bits. (i : ℕ) → i < len → bit_row bits i ≡ is_valid valid i) }
{
    match valid {
        ValidRows::All(_) => BitBuffer::repeat(alloc, true, len),
        ValidRows::Bits(bits) => Ok(bits),
    }
}
