//! Casts of bytes to text.

ghost use Rattle.std.specs.Prelude.{◌≡◌, ◌↔◌, ◌<◌, ℕ, true, map, IfOk, IfErr, IsTrue, MatchOption};
ghost use Rattle.std.specs.List.{range_with_len};
ghost use Rattle.std.specs.Str.{is_utf8};
ghost use Rattle.vx_value.specs.Types.{utf8};
ghost use Rattle.vx_value.specs.Values.{bytes as bytes_value};
ghost use Rattle.vx_value.specs.Cell.{fault};
ghost use Rattle.vx_value.specs.Casts.{to_text};
ghost use Rattle.vx_tree.specs.ColumnTypes.{are_bytes_of};
ghost use Rattle.vx_tree.specs.Canonicals.{canonical_tree};
ghost use Rattle.vx_tree.specs.Tree.{dtype};
ghost use Rattle.vx_column.specs.Arguments.{bytes_in, HasBytes, AreBytes};
ghost use Rattle.vx_column.specs.Casts.{none_unless};
ghost use Rattle.vx_column.specs.Computed.{IsColumnOfCells};
ghost use Rattle.vx_column.specs.Operands.{IsFaultyRow};
ghost use Rattle.vx_column.specs.ValidRows.{is_valid, HasValidity, nullability_in};
ghost use Rattle.vx_tree.specs.Views.{rows_of};

use crate::functions::kernel::{stored_column, valid_bytes};
use crate::rows::{ArgumentRows, BytesOperand, BytesRows, ValidRows};
use std::alloc::Global;
use vx_tree::{BinaryBuilder, BinaryViews, Canonical};
use vx_value::{Storage, VortexError, VortexResult, is_text};

/// Casts the `valid` rows of `bytes`, `len` rows, to text; the others are null. Shares the rows if every row is UTF-8. `Fault`
/// if a valid one isn't.
#[tactic(auto, using(crate::proofs::ValidRowsLemmas::counted))]
pub(crate) fn cast_to_text(
    alloc: Global,
    bytes: BytesOperand<'_>,
    valid: &ValidRows,
    len: usize,
) -> VortexResult<Canonical>
    requires bytes { AreBytes bytes len }
    requires valid { HasValidity valid.now len }
    ensures ok { IfOk result (λ c. (dtype (canonical_tree c) ≡ utf8 (nullability_in valid.now))
        × IsColumnOfCells valid.now (λ i. to_text (bytes_value (bytes_in bytes.entry i))) len (canonical_tree c)) }
    ensures err { IfErr result (IsFaultyRow (is_valid valid.now) (λ i. to_text (bytes_value (bytes_in bytes.entry i))) len) }
{
    if are_text(bytes) {
        let text = BytesOperand {
            storage: Storage::Text,
            rows: bytes.rows,
        };
        return stored_column(alloc, ArgumentRows::Bytes(text), valid, len);
    }
    let rows = text_rows(alloc, bytes, valid, len)?;
    valid_bytes(alloc, Storage::Text, rows, valid, len)
}

/// Returns whether each row of `bytes` is UTF-8.
fn are_text(bytes: BytesOperand<'_>) -> bool
    ensures { (n : ℕ) → AreBytes bytes.entry n → IsTrue result ↔ HasBytes Storage.Text bytes.entry.rows n }
{
    match (bytes.storage, bytes.rows) {
        (Storage::Text, _) => true,
        (_, BytesRows::Rows(rows)) => rows.is_utf8(),
        (_, BytesRows::Value(value)) => is_text(value),
    }
}

/// Returns the `valid` rows of `bytes`, `len` rows, with empty bytes in place of the others. `Fault` if a valid one isn't
/// UTF-8.
fn text_rows(
    alloc: Global,
    bytes: BytesOperand<'_>,
    valid: &ValidRows,
    len: usize,
) -> VortexResult<BinaryViews>
    requires bytes { AreBytes bytes len }
    requires valid { HasValidity valid.now len }
    ensures rows { IfOk result (λ r. rows_of r ≡ map (λ i. none_unless (is_valid valid.now i) (bytes_in bytes.entry i)) (range_with_len 0 len)) }
    ensures text { IfOk result (λ r. are_bytes_of Storage.Text (rows_of r) ≡ true) }
    ensures err { IfErr result (IsFaultyRow (is_valid valid.now) (λ i. to_text (bytes_value (bytes_in bytes.entry i))) len) }
{
    let mut rows = BinaryBuilder::with_capacity(alloc, len)?;
    for index in 0..len {
        let Some(text) = text_at(&bytes, valid, index) else {
            return Err(VortexError::Fault);
        };
        rows.push(text)?;
    }
    Ok(rows.finish(alloc)?)
}

/// Returns the bytes of row `index`, which must exist, or empty bytes if it isn't valid. `None` if it is valid and isn't UTF-8.
fn text_at<'a>(bytes: &'a BytesOperand<'_>, valid: &ValidRows, index: usize) -> Option<&'a [u8]>
    requires { (n : ℕ) × (index < n) × AreBytes bytes.now n × HasValidity valid.now n }
    ensures { MatchOption result
        ((is_valid valid.now index ≡ true) × (to_text (bytes_value (bytes_in bytes.now index)) ≡ fault))
        (λ r. (r.now ≡ none_unless (is_valid valid.now index) (bytes_in bytes.now index)) × (is_utf8 r.now ≡ true)) }
{
    if !valid.is_valid(index) {
        return Some(&[]);
    }
    let value = bytes.value(index);
    if is_text(value) { Some(value) } else { None }
}
