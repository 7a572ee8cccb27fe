//! The functions that objects spell.

ghost use Rattle.std.specs.Prelude.{◌≡◌, Some};
ghost use Rattle.serde_json.specs.View.{view};
ghost use Rattle.vx_json.specs.Fields.{keyed};
ghost use Rattle.serde_json.specs.View.{items_view};
ghost use Rattle.serde_json.specs.Find.{as_str};
ghost use Rattle.vx_json.specs.Refused.{IsRead, IsReadAs};
ghost use Rattle.vx_json.specs.SpelledValues.{all_read};
ghost use Rattle.vx_json.specs.SpelledFunctions.{without_options, operator_named, strictness_at, between_options, between, cast, get_item, pack_options, pack, other_named, function_at};

use crate::BAD_VALUE;
use crate::fields::{boolean, check_keys, items, text};
use crate::types::{column_type_at, form_keys, name_in, nullability_at};
use serde_json::Value;
use std::alloc::Global;
use vx_fn::{BetweenOptions, Operator, PackOptions, ScalarFnRef, StrictComparison};
use vx_value::{FieldNames, Name, VortexResult};

/// Returns `function`. `InvalidArgument(BadValue)` if the object doesn't have exactly `keys` keys.
fn with_keys(value: &Value, keys: usize, function: ScalarFnRef) -> VortexResult<ScalarFnRef>
    ensures { IsRead (keyed keys (view value.now) (Some function)) result }
{
    check_keys(value, keys)?;
    Ok(function)
}

/// Returns `function`, which has no options. `InvalidArgument(BadValue)` if the object doesn't have exactly the keys `enc`, `fn` and
/// `args`.
fn without_options(value: &Value, function: ScalarFnRef) -> VortexResult<ScalarFnRef>
    ensures { IsRead (without_options function (view value.now)) result }
{
    with_keys(value, 3, function)
}

/// Returns the binary operator named `name`.
fn operator_named(name: &str) -> Option<Operator>
    ensures { result ≡ operator_named name.now }
{
    match name {
        "add" => Some(Operator::Add),
        "sub" => Some(Operator::Sub),
        "mul" => Some(Operator::Mul),
        "div" => Some(Operator::Div),
        "eq" => Some(Operator::Eq),
        "not_eq" => Some(Operator::NotEq),
        "lt" => Some(Operator::Lt),
        "lte" => Some(Operator::Lte),
        "gt" => Some(Operator::Gt),
        "gte" => Some(Operator::Gte),
        "and" => Some(Operator::And),
        "or" => Some(Operator::Or),
        _ => None,
    }
}

/// Returns how a bound is compared: `true` under `key` for `<`, `false` for `<=`.
fn strictness(value: &Value, key: &str) -> Option<StrictComparison>
    ensures { result ≡ strictness_at key.now (view value.now) }
{
    if boolean(value, key)? {
        Some(StrictComparison::Strict)
    } else {
        Some(StrictComparison::NonStrict)
    }
}

/// Returns the options of `between`.
fn between_options(value: &Value) -> Option<BetweenOptions>
    ensures { result ≡ between_options (view value.now) }
{
    Some(BetweenOptions {
        lower_strict: strictness(value, "lower_strict")?,
        upper_strict: strictness(value, "upper_strict")?,
    })
}

/// Reads `between`. `InvalidArgument(BadValue)` if the object doesn't have exactly the keys `enc`, `fn`, `args` and its two options.
fn between(value: &Value) -> VortexResult<ScalarFnRef>
    ensures { IsRead (between (view value.now)) result }
{
    let Some(options) = between_options(value) else {
        return Err(BAD_VALUE);
    };
    with_keys(value, 5, ScalarFnRef::Between(options))
}

/// Reads the cast to the type under `type`, which isn't nested. `InvalidArgument(BadValue)` if the object doesn't have exactly the
/// keys `enc`, `fn`, `args` and `type`.
#[tactic(auto, using(crate::proofs::SpelledFunctionsLemmas::target_named, crate::proofs::SpelledFunctionsLemmas::no_target))]
fn cast(alloc: Global, value: &Value) -> VortexResult<ScalarFnRef>
    ensures { IsRead (cast (view value.now)) result }
{
    let target = column_type_at(alloc, value)?;
    if target.is_nested() {
        return Err(BAD_VALUE);
    }
    with_keys(value, 4, ScalarFnRef::Cast(target))
}

/// Reads the function that gives the field named under `field`. `InvalidArgument(BadValue)` if the object doesn't have exactly the keys
/// `enc`, `fn`, `args` and `field`.
fn get_item(alloc: Global, value: &Value) -> VortexResult<ScalarFnRef>
    ensures { IsRead (get_item (view value.now)) result }
{
    let Some(field) = text(value, "field") else {
        return Err(BAD_VALUE);
    };
    let name = Name::new(alloc, String::from_str(alloc, field)?)?;
    with_keys(value, 4, ScalarFnRef::GetItem(name))
}

/// Returns the names that the values of `list` spell. `InvalidArgument(BadValue)` if one of them is no text.
fn names_in(alloc: Global, list: &Vec<Value>) -> VortexResult<Vec<Name>>
    ensures { IsReadAs (λ v. v.items) (all_read as_str (items_view list.now.items)) result }
{
    let mut names = Vec::with_capacity(alloc, list.len())?;
    for value in list {
        names.push(name_in(alloc, value)?)?;
    }
    Ok(names)
}

/// Returns the options of `pack`. `InvalidArgument(BadValue)` if they aren't spelled.
fn pack_options(alloc: Global, value: &Value) -> VortexResult<PackOptions>
    ensures { IsRead (pack_options (view value.now)) result }
{
    let Some(nullability) = nullability_at(value) else {
        return Err(BAD_VALUE);
    };
    let Some(list) = items(value, "names") else {
        return Err(BAD_VALUE);
    };
    let names = FieldNames::new(alloc, names_in(alloc, list)?)?;
    Ok(PackOptions { names, nullability })
}

/// Reads the function that makes structs of its arguments, whose fields are named under `names`; their type is nullable if `null` is
/// `true`. `InvalidArgument(BadValue)` if the object doesn't have exactly the keys `enc`, `fn`, `args` and `names`, and `null` too if it
/// has it.
fn pack(alloc: Global, value: &Value) -> VortexResult<ScalarFnRef>
    ensures { IsRead (pack (view value.now)) result }
{
    let options = pack_options(alloc, value)?;
    with_keys(value, 3 + form_keys(value), ScalarFnRef::Pack(options))
}

/// Reads the function named `name`, which isn't a binary operator, with the options that the object has for it.
/// `InvalidArgument(BadValue)` if there is none.
fn other_named(alloc: Global, value: &Value, name: &str) -> VortexResult<ScalarFnRef>
    ensures { IsRead (other_named (view value.now) name.now) result }
{
    match name {
        "between" => between(value),
        "not" => without_options(value, ScalarFnRef::Not),
        "mask" => without_options(value, ScalarFnRef::Mask),
        "zip" => without_options(value, ScalarFnRef::Zip),
        "fill_null" => without_options(value, ScalarFnRef::FillNull),
        "is_null" => without_options(value, ScalarFnRef::IsNull),
        "is_not_null" => without_options(value, ScalarFnRef::IsNotNull),
        "get_item" => get_item(alloc, value),
        "pack" => pack(alloc, value),
        "cast" => cast(alloc, value),
        _ => Err(BAD_VALUE),
    }
}

/// Reads the function named under `fn`, with its options. `InvalidArgument(BadValue)` if there is none, or if the object doesn't
/// have exactly its keys.
pub(crate) fn function_at(alloc: Global, value: &Value) -> VortexResult<ScalarFnRef>
    ensures { IsRead (function_at (view value.now)) result }
{
    let Some(name) = text(value, "fn") else {
        return Err(BAD_VALUE);
    };
    match operator_named(name) {
        Some(operator) => without_options(value, ScalarFnRef::Binary(operator)),
        None => other_named(alloc, value, name),
    }
}
