//! The tree that a JSON value spells.
//!
//! A tree is an object whose `enc` names the encoding. Each encoding has exactly its own keys:
//! `{"enc":"col","type":"i32?","rows":[1,null]}`, `{"enc":"flat","type":"i32?","values":[1,-2],"validity":{..}}`, of which
//! `validity` may be absent, `{"enc":"constant","type":"bool","value":true,"len":3}`, `{"enc":"null","len":3}`,
//! `{"enc":"slice","start":0,"stop":1,"child":{..}}`, `{"enc":"filter","mask":[true,false],"child":{..}}`,
//! `{"enc":"masked","child":{..},"validity":{..}}`, of which `validity` may be absent, `{"enc":"is_valid","child":{..}}`,
//! `{"enc":"fn","fn":"add","args":[{..},{..}]}`, `{"enc":"dict","codes":{..},"values":{..}}`,
//! `{"enc":"chunked","type":"i32","chunks":[{..},{..}]}`, `{"enc":"interleave","arrays":{..},"rows":{..},"values":[{..},{..}]}`,
//! `{"enc":"struct","type":{..},"len":3,"fields":[{..},{..}],"validity":{..}}`, of which `validity` may be absent, and
//! `{"enc":"ext","id":"year","storage":{..}}`.
//!
//! A type is a name, followed by `?` if the type is nullable; `null` is always nullable, and takes no `?`. Other types are objects:
//! `{"decimal":[4,2]}` has 4 digits, 2 of them behind the point; `{"list":"i32"}` has lists of integers, and `{"fsl":"i32","size":3}` lists
//! of three; `{"map":["utf8","i32"]}` has keys, whose type isn't nullable, and values; `{"struct":[["x","i32"],["y","utf8?"]]}` has these
//! fields, no two of one name; `{"union":[[5,"int","i32"],[7,"text","utf8"]]}` has a value of one of these variants, of which there is at
//! least one, each with a byte as its tag, and no two of one tag or one name; and `{"ext":["year","i32"]}` is the extension with the id
//! `year`, which isn't empty, stored as `i32`. These types are nullable with the further key `"null":true`; an extension is if its
//! storage is.
//!
//! The only value of type `null` is `null`. A value of type `utf8` is a string, and one of type `binary` a string of two
//! lower-case hexadecimal digits for each byte. A decimal is a string of its unscaled integer, without `+`, leading zeros or
//! `-0`: `"4200"` for 42.00. A list is an array of its elements, a map an array of `[key,value]` for each entry, and a union an array of its
//! tag and its value. A struct is an object of exactly its fields, in any order, and a value of type `variant` is `{"type":T,"value":v}`,
//! with its own type. An extension is spelled as its storage.
//!
//! Columns of structs and of extensions are spelled by `struct`, `ext`, `constant` and `col`, none by `flat`. There are no columns of lists,
//! maps, unions and variants, so no node has such a type, or one with such a part.

ghost use Rattle.std.specs.Prelude.{◌≡◌, ◌⊎◌, Some, None, IfOk, IfErr};
ghost use Rattle.serde_json.specs.View.{view, items_view};
ghost use Rattle.vx_json.specs.Keys.{key_text};
ghost use Rattle.vx_json.specs.Refused.{IsRefused, IsRead};
ghost use Rattle.vx_json.specs.SpelledNulls.{nulls_at};
ghost use Rattle.vx_json.specs.Spelled.{tree_spelled, trees_spelled, tree_at, trees_at, tree_named, Spells, SpellsNone};

use crate::columns::{col, flat};
use crate::fields::{items, text};
use crate::key::Key;
use crate::nulls::Nulls;
use crate::{BAD_VALUE, nodes};
use serde_json::Value;
use std::alloc::Global;
use vx_tree::ArrayRef;
use vx_value::{ArgKind, VortexError, VortexResult};

/// Reads the trees in `list`.
#[cycle(tree_of)]
fn trees_of(alloc: Global, list: &Vec<Value>) -> VortexResult<Vec<ArrayRef>>
    ensures ok { IfOk result (λ v. trees_spelled (items_view list.now.items) ≡ Some v.items) }
    ensures err { IfErr result (IsRefused (trees_spelled (items_view list.now.items) ≡ None)) }
{
    let mut trees = Vec::with_capacity(alloc, list.len())?;
    for value in list {
        trees.push_reserved(tree_of(alloc, value)?);
    }
    Ok(trees)
}

/// Reads the trees in the list under `key`.
#[cycle(tree_of)]
fn children(alloc: Global, value: &Value, key: Key) -> VortexResult<Vec<ArrayRef>>
    ensures ok { IfOk result (λ v. trees_at (key_text key) (view value.now) ≡ Some v.items) }
    ensures err { IfErr result (IsRefused (trees_at (key_text key) (view value.now) ≡ None)) }
{
    match items(value, key.text()) {
        Some(list) => trees_of(alloc, list),
        None => Err(BAD_VALUE),
    }
}

/// Reads the tree under `key`.
#[cycle(tree_of)]
fn child(alloc: Global, value: &Value, key: Key) -> VortexResult<ArrayRef>
    ensures { IsRead (tree_at (key_text key) (view value.now)) result }
{
    match value.get(key.text()) {
        Some(child) => tree_of(alloc, child),
        None => Err(BAD_VALUE),
    }
}

/// Reads which rows are null, from what is under `validity`.
#[cycle(tree_of)]
fn nulls(alloc: Global, value: &Value) -> VortexResult<Nulls>
    ensures { IsRead (nulls_at (view value.now) (tree_at (key_text Key.Validity) (view value.now))) result }
{
    let Some(spelled) = value.get(Key::Validity.text()) else {
        return Ok(Nulls::Absent);
    };
    if let Value::Bool(false) = spelled {
        return Ok(Nulls::EveryRow);
    }
    Ok(Nulls::Told(tree_of(alloc, spelled)?))
}

/// Reads the tree of the encoding named `name`.
#[cycle(tree_of)]
fn node(alloc: Global, value: &Value, name: &str) -> VortexResult<ArrayRef>
    ensures { IsRead (tree_named (view value.now) name.now) result }
{
    match name {
        "col" => col(alloc, value),
        "flat" => flat(alloc, value, &nulls(alloc, value)?),
        "constant" => nodes::constant::read(alloc, value),
        "null" => nodes::null::read(alloc, value),
        "slice" => nodes::slice::read(alloc, value, child(alloc, value, Key::Child)?),
        "filter" => nodes::filter::read(alloc, value, child(alloc, value, Key::Child)?),
        "masked" => {
            let child = child(alloc, value, Key::Child)?;
            nodes::masked::read(alloc, value, child, &nulls(alloc, value)?)
        }
        "is_valid" => nodes::is_valid::read(alloc, value, child(alloc, value, Key::Child)?),
        "fn" => nodes::call::read(alloc, value, children(alloc, value, Key::Args)?),
        "dict" => {
            let codes = child(alloc, value, Key::Codes)?;
            nodes::dict::read(alloc, value, codes, child(alloc, value, Key::Values)?)
        }
        "chunked" => nodes::chunked::read(alloc, value, children(alloc, value, Key::Chunks)?),
        "interleave" => {
            let arrays = child(alloc, value, Key::Arrays)?;
            let rows = child(alloc, value, Key::Rows)?;
            let values = children(alloc, value, Key::Values)?;
            nodes::interleave::read(alloc, value, arrays, rows, values)
        }
        "struct" => {
            let columns = children(alloc, value, Key::Fields)?;
            nodes::structs::read(alloc, value, columns, &nulls(alloc, value)?)
        }
        "ext" => nodes::extension::read(alloc, value, child(alloc, value, Key::Storage)?),
        _ => Err(BAD_VALUE),
    }
}

/// Reads the tree that `value` spells. (own)
///
/// # Errors
///
/// `InvalidArgument(BadValue)` if `value` spells no tree; `OutOfMemory`.
#[cycle(tree_of)]
#[tactic(auto, using(crate::proofs::SpelledLemmas::spelled_by))]
pub fn tree_of(alloc: Global, value: &Value) -> VortexResult<ArrayRef>
    ensures ok { IfOk result (λ t. tree_spelled (view value.now) ≡ Some t) }
    ensures err { IfErr result (λ e. (e ≡ VortexError.OutOfMemory)
        ⊎ ((e ≡ VortexError.InvalidArgument ArgKind.BadValue)
        × (tree_spelled (view value.now) ≡ None))) }
{
    match text(value, "enc") {
        Some(name) => node(alloc, value, name),
        None => Err(BAD_VALUE),
    }
}

/// Reads the tree that the JSON text in `bytes` spells. (own)
///
/// # Errors
///
/// `InvalidArgument(BadValue)` if `bytes` aren't JSON or spell no tree; `OutOfMemory`.
pub fn tree_of_bytes(alloc: Global, bytes: &[u8]) -> VortexResult<ArrayRef>
    ensures ok { IfOk result (λ t. Spells bytes.now t) }
    ensures err { IfErr result (λ e. (e ≡ VortexError.OutOfMemory)
        ⊎ ((e ≡ VortexError.InvalidArgument ArgKind.BadValue) × SpellsNone bytes.now)) }
{
    match Value::from_slice(alloc, bytes) {
        Ok(value) => tree_of(alloc, &value),
        Err(e) => if e.is_memory() {
            Err(VortexError::OutOfMemory)
        } else {
            Err(BAD_VALUE)
        },
    }
}
