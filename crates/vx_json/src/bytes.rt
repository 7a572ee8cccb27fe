//! Values of text and of bytes, and lists of them.

ghost use Rattle.std.specs.Prelude.{◌≡◌, ◌≢◌, ℕ, List, ◌∷◌, [], true, Some, None, IfOk, IfErr, OnOk};
ghost use Rattle.std.specs.List.{list_any};
ghost use Rattle.std.specs.Char.{is_ascii_uppercase};
ghost use Rattle.hex.specs.Hex.{IsBytes, encode_lower};
ghost use Rattle.serde_json.specs.View.{view, items_view};
ghost use Rattle.vx_tree.specs.ColumnTypes.{are_bytes_of};
ghost use Rattle.vx_json.specs.ReadRows.{read_unless, RowsRead};
ghost use Rattle.vx_json.specs.Refused.{IsRefused};
ghost use Rattle.vx_json.specs.SpelledValues.{hex_bytes, bytes_spelled};
ghost use Rattle.vx_tree.specs.Views.{rows_of, packed};

use crate::BAD_VALUE;
use crate::row_nulls::RowNulls;
use serde_json::Value;
use std::alloc::Global;
use vx_tree::{BinaryBuilder, BinaryViews};
use vx_value::{ByteBuffer, Storage, VortexResult};

/// Returns whether `digits` has a capital letter.
fn has_capitals(digits: &str) -> bool
    ensures { result ≡ list_any is_ascii_uppercase digits.now }
{
    digits
        .as_bytes()
        .iter()
        .any(|digit| digit.is_ascii_uppercase())
}

/// Decodes lower-case hex into `decoded`, reusing its memory. `InvalidArgument(BadValue)` if `digits` isn't lower-case hex.
#[tactic(auto, using(crate::proofs::SpelledBytesLemmas::halved))]
fn decode(digits: &str, decoded: &mut Vec<u8>) -> VortexResult<()>
    ensures ok { OnOk result (hex_bytes digits.now ≡ Some decoded.new.items) }
    ensures err { IfErr result (IsRefused (hex_bytes digits.now ≡ None)) }
    ensures written { OnOk result (encode_lower decoded.new.items ≡ digits.now) }
    ensures unwritten { IfErr result (IsRefused ((bytes : List ℕ) → IsBytes bytes → encode_lower bytes ≢ digits.now)) }
{
    if has_capitals(digits) {
        return Err(BAD_VALUE);
    }
    decoded.resize(digits.len() / 2, 0)?;
    match hex::decode_to_slice(digits, decoded.as_mut_slice()) {
        Ok(()) => Ok(()),
        Err(_) => Err(BAD_VALUE),
    }
}

/// Reads a value of text or bytes; `storage` says which. Text is the string itself; bytes are hex, decoded into `decoded`.
/// `InvalidArgument(BadValue)` if it isn't such a value.
#[tactic(auto, using(vx_value::proofs::BytesLemmas::is_text))]
fn bytes<'v>(storage: Storage, value: &'v Value, decoded: &'v mut Vec<u8>) -> VortexResult<&'v [u8]>
    ensures ok { IfOk result (λ bytes. bytes_spelled storage (view value.now) ≡ Some bytes.now) }
    ensures typed { IfOk result (λ bytes. are_bytes_of storage (bytes.now ∷ []) ≡ true) }
    ensures err { IfErr result (IsRefused (bytes_spelled storage (view value.now) ≡ None)) }
{
    let Some(text) = value.as_str() else {
        return Err(BAD_VALUE);
    };
    match storage {
        Storage::Text => Ok(text.as_bytes()),
        Storage::Bytes => {
            decode(text, decoded)?;
            Ok(decoded.as_slice())
        }
        _ => Err(BAD_VALUE),
    }
}

/// Reads a value of text or bytes, as `bytes` does, into a buffer of its own.
pub(crate) fn byte_buffer(
    alloc: Global,
    storage: Storage,
    value: &Value,
) -> VortexResult<ByteBuffer>
    ensures ok { IfOk result (λ bytes. bytes_spelled storage (view value.now) ≡ Some bytes) }
    ensures typed { IfOk result (λ bytes. are_bytes_of storage (bytes ∷ []) ≡ true) }
    ensures err { IfErr result (IsRefused (bytes_spelled storage (view value.now) ≡ None)) }
{
    let mut decoded = Vec::new(alloc);
    let bytes = bytes(storage, value, &mut decoded)?;
    Ok(ByteBuffer::copy_from(alloc, bytes)?)
}

/// Reads a value of text or bytes, as `bytes` does; returns empty bytes for a null row.
#[tactic(auto, using(crate::proofs::SpelledBytesLemmas::typed_none))]
#[inline]
fn bytes_or_none<'v>(
    null: bool,
    storage: Storage,
    value: &'v Value,
    decoded: &'v mut Vec<u8>,
) -> VortexResult<&'v [u8]>
    ensures ok { IfOk result (λ bytes. read_unless null [] (bytes_spelled storage (view value.now)) ≡ Some bytes.now) }
    ensures typed { IfOk result (λ bytes. are_bytes_of storage (bytes.now ∷ []) ≡ true) }
    ensures err { IfErr result (IsRefused (read_unless null [] (bytes_spelled storage (view value.now)) ≡ None)) }
{
    if null {
        Ok(&[])
    } else {
        bytes(storage, value, decoded)
    }
}

/// Reads a list of values of text or bytes; `storage` says which. Records in `nulls` which rows aren't null. Returns the bytes,
/// empty for null. `InvalidArgument(BadValue)` if an item is neither such a value nor a null row.
pub(crate) fn byte_rows<N: RowNulls>(
    alloc: Global,
    storage: Storage,
    nulls: &mut N,
    list: &Vec<Value>,
) -> VortexResult<BinaryViews>
    requires { N.told nulls.old ≡ [] }
    ensures rows { RowsRead N.mode [] (bytes_spelled storage) (items_view list.now.items) result (λ rows. rows_of rows) (N.told nulls.new) }
    ensures packed { IfOk result (λ rows. rows ≡ packed (rows_of rows)) }
    ensures typed { IfOk result (λ rows. are_bytes_of storage (rows_of rows) ≡ true) }
{
    let mut rows = BinaryBuilder::with_capacity(alloc, list.len())?;
    let mut decoded = Vec::new(alloc);
    for value in list {
        let null = N::is_null_row(value);
        rows.push(bytes_or_none(null, storage, value, &mut decoded)?)?;
        nulls.tell(!null)?;
    }
    Ok(rows.finish(alloc)?)
}
