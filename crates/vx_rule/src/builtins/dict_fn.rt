//! The rule of a function over a dictionary.

ghost use Rattle.std.specs.Prelude.{◌≡◌, IfOk, Some, None, true};
ghost use Rattle.vx_value.specs.Errors.{OnlyOutOfMemory};
ghost use Rattle.vx_tree.specs.Tree.{Tree, datum, is_dict};
ghost use Rattle.vx_tree.specs.Slots.{HasSlot};
ghost use Rattle.vx_tree.specs.Calls.{call_refusal, called};
ghost use Rattle.vx_rule.specs.Tags.{applies};
ghost use Rattle.vx_rule.specs.Builtins.{passes_dict, BuiltinAnswers};
ghost use Rattle.vx_rule.specs.DictFunctions.{AreAll, IsListOfValues};
ghost use Rattle.vx_rule.specs.declared.builtins.builtin.BuiltinKind.TheVariants.{DictFn};

use crate::nodes::{constant_like, dict_node, dict_parts, function_parts};
use crate::raw_node::RawNode;
use std::alloc::Global;
use vx_fn::ScalarFnRef;
use vx_tree::{ArrayRef, Constant, Dict, Encoding, IntoArray, ScalarFnArray};
use vx_value::VortexResult;

/// Returns the dictionary of the function of the values of `child`, which must be in `slot` of `parent`, if it is a dictionary, all other
/// arguments of `parent` are constants, and its function is a negation, a comparison or `between`. `None` exactly if not. Fails only with
/// `OutOfMemory`.
#[tactic(auto, using(crate::proofs::DictFunctionsLemmas::functions_quiet))]
pub(crate) fn answer(
    alloc: Global,
    child: &ArrayRef,
    parent: &ArrayRef,
    slot: usize,
) -> VortexResult<Option<RawNode>>
    requires { HasSlot slot child.now parent.now }
    ensures { BuiltinAnswers DictFn slot parent.now result }
{
    if !applies_passing(parent) || !child.is::<Dict>() {
        return Ok(None);
    }
    function_of_dict(alloc, child, parent, slot)
}

/// Returns whether `array` applies a function that passes to the values of a dictionary.
fn applies_passing(array: &ArrayRef) -> bool
    ensures { result ≡ applies passes_dict (datum array.now) }
{
    match array.encoding() {
        Encoding::ScalarFn(data) => passes_dict(&data.scalar_fn),
        _ => false,
    }
}

/// Returns whether `scalar_fn` passes to the values of a dictionary: a negation, a comparison or `between`.
fn passes_dict(scalar_fn: &ScalarFnRef) -> bool
    ensures { result ≡ passes_dict scalar_fn.now }
{
    match scalar_fn {
        ScalarFnRef::Not => true,
        ScalarFnRef::Binary(operator) => operator.is_comparison(),
        ScalarFnRef::Between(_) => true,
        _ => false,
    }
}

/// Returns the dictionary of the function of `parent` over the values of `child`, a dictionary in `slot` of `parent`. `None` exactly if
/// another argument isn't a constant. Fails only with `OutOfMemory`.
fn function_of_dict(
    alloc: Global,
    child: &ArrayRef,
    parent: &ArrayRef,
    slot: usize,
) -> VortexResult<Option<RawNode>>
    requires passes { applies passes_dict (datum parent.now) ≡ true }
    requires dict { is_dict (datum child.now) ≡ true }
    requires slot { HasSlot slot child.now parent.now }
    ensures { BuiltinAnswers DictFn slot parent.now result }
{
    let (scalar_fn, arguments) = function_parts(parent);
    let (codes, values) = dict_parts(child);
    let Some(arguments) = arguments_of_values(alloc, arguments, slot, values)? else {
        return Ok(None);
    };
    let call = call_of_values(alloc, scalar_fn, arguments, values.len())?;
    let tree = dict_node(alloc, codes.clone()?, call)?;
    let optimize = vec![in alloc; 1]?;
    Ok(Some(RawNode { tree, optimize }))
}

/// Makes the call of `scalar_fn` on `arguments` of `len` rows, which must not be refused. Fails only with `OutOfMemory`.
fn call_of_values(
    alloc: Global,
    scalar_fn: &ScalarFnRef,
    arguments: Vec<ArrayRef>,
    len: usize,
) -> VortexResult<ArrayRef>
    requires { call_refusal scalar_fn.now arguments.items len ≡ None }
    ensures ok { IfOk result (λ t. called scalar_fn.now arguments.items len ≡ Some t) }
    ensures err { OnlyOutOfMemory result }
{
    Ok(ScalarFnArray::try_new_with_len(alloc, scalar_fn.clone()?, arguments, len)?.into_array())
}

/// Returns `arguments` for the function of `values`: these in place of the tree in `slot`, and constants as long in place of constants.
/// `None` exactly if another argument isn't a constant. Fails only with `OutOfMemory`.
fn arguments_of_values(
    alloc: Global,
    arguments: &[Option<ArrayRef>],
    slot: usize,
    values: &ArrayRef,
) -> VortexResult<Option<Vec<ArrayRef>>>
    requires { AreAll arguments.now }
    ensures ok { IfOk result (IsListOfValues slot values.now arguments.now) }
    ensures err { OnlyOutOfMemory result }
{
    let mut children = Vec::with_capacity(alloc, arguments.len())?;
    for index in 0..arguments.len() {
        let argument = present(&arguments[index]);
        if index == slot {
            children.push(values.clone()?)?;
        } else if argument.is::<Constant>() {
            children.push(constant_like(alloc, argument, values.len())?)?;
        } else {
            return Ok(None);
        }
    }
    Ok(Some(children))
}

/// Returns the tree in `slot`, which must have one.
fn present(slot: &Option<ArrayRef>) -> &ArrayRef
    requires { (c : Tree) × (slot.now ≡ Some c) }
    ensures { slot.now ≡ Some result.now }
{
    let Some(child) = slot else { unreachable!() };
    child
}
