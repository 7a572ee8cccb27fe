//! The values under the keys of an object, one function for each kind.

ghost use Rattle.std.specs.Prelude.{◌≡◌, ◌==◌, true, false, is_some, option_map, MatchResult};
ghost use Rattle.serde_json.specs.Find.{get};
ghost use Rattle.serde_json.specs.View.{view, items_view};
ghost use Rattle.vx_json.specs.Fields.{member_count, boolean_at, text_at, number_at, items_at};

use crate::BAD_VALUE;
use serde_json::Value;
use vx_value::{ArgKind, VortexError, VortexResult};

/// Returns the number of keys of an object, or 0 for another value.
pub(crate) fn count(value: &Value) -> usize
    ensures { result ≡ member_count (view value.now) }
{
    match value.as_object() {
        Some(map) => map.len(),
        None => 0,
    }
}

/// Checks that `value` is an object of exactly `keys` keys. `InvalidArgument(BadValue)` if it isn't.
pub(crate) fn check_keys(value: &Value, keys: usize) -> VortexResult<()>
    ensures { MatchResult result
        (λ _. (member_count (view value.now) == keys) ≡ true)
        (λ e. (e ≡ VortexError.InvalidArgument ArgKind.BadValue) × ((member_count (view value.now) == keys) ≡ false)) }
{
    if count(value) == keys {
        Ok(())
    } else {
        Err(BAD_VALUE)
    }
}

/// Checks whether there is a value under `key`.
pub(crate) fn has(value: &Value, key: &str) -> bool
    ensures { result ≡ is_some (get key.now (view value.now)) }
{
    value.get(key).is_some()
}

/// Returns the boolean under `key`.
pub(crate) fn boolean(value: &Value, key: &str) -> Option<bool>
    ensures { result ≡ boolean_at key.now (view value.now) }
{
    value.get(key)?.as_bool()
}

/// Returns the text under `key`.
pub(crate) fn text<'v>(value: &'v Value, key: &str) -> Option<&'v str>
    ensures { option_map (λ s. s.now) result ≡ text_at key.now (view value.now) }
{
    value.get(key)?.as_str()
}

/// Returns the `u64` under `key`.
pub(crate) fn number(value: &Value, key: &str) -> Option<u64>
    ensures { result ≡ number_at key.now (view value.now) }
{
    value.get(key)?.as_u64()
}

/// Returns the list under `key`.
pub(crate) fn items<'v>(value: &'v Value, key: &str) -> Option<&'v Vec<Value>>
    ensures { option_map (λ v. items_view v.now.items) result ≡ items_at key.now (view value.now) }
{
    value.get(key)?.as_array()
}
