//! And and Or of columns of booleans without validities.

ghost use Rattle.std.specs.Prelude.{◌≡◌};
ghost use Rattle.vx_tree.specs.Tree.{slots_of};
ghost use Rattle.vx_step.specs.Kernels.{is_logical_call, holds_plain, are_plain, KernelAnswers};

use crate::function::columns_of;
use crate::kernels::builtin::BuiltinKernelKind;
use std::alloc::Global;
use vx_column::apply_fn;
use vx_fn::ScalarFnRef;
use vx_tree::{ArrayKind, ArrayRef, Bool, IntoArray};
use vx_value::VortexResult;

/// Returns the canonical column of `filled` if it is And or Or of columns of booleans without validities, whichever slot was
/// executed. `None` exactly if it isn't. Fails only with `OutOfMemory`.
#[tactic(auto, using(crate::proofs::KernelsLemmas::no_function, crate::proofs::KernelsLemmas::no_logic, crate::proofs::KernelsLemmas::no_booleans))]
pub(crate) fn answer(
    alloc: Global,
    filled: &ArrayRef,
    slot: usize,
) -> VortexResult<Option<ArrayRef>>
    ensures { KernelAnswers BuiltinKernelKind.BoolBinary slot filled.now result }
{
    let ArrayKind::ScalarFn(function, slots) = filled.kind() else {
        return Ok(None);
    };
    if !is_logical_call(function) || !are_plain(slots) {
        return Ok(None);
    }
    filled.well_formed_tree();
    let columns = columns_of(alloc, slots)?;
    let column = apply_fn(alloc, function, columns.as_slice(), filled.len())?;
    column.as_array();
    Ok(Some(column.into_array()))
}

/// Returns whether `function` is And or Or.
fn is_logical_call(function: &ScalarFnRef) -> bool
    ensures { result ≡ is_logical_call function.now }
{
    match function {
        ScalarFnRef::Binary(operator) => operator.is_logical(),
        _ => false,
    }
}

/// Returns whether each slot holds a column of booleans without a validity.
fn are_plain(slots: &[Option<ArrayRef>]) -> bool
    ensures { result ≡ are_plain (slots_of slots.now) }
{
    for index in 0..slots.len() {
        if !holds_plain(&slots[index]) {
            return false;
        }
    }
    true
}

/// Returns whether `slot` holds a column of booleans without a validity.
fn holds_plain(slot: &Option<ArrayRef>) -> bool
    ensures { result ≡ holds_plain slot.now }
{
    match slot {
        Some(child) => child.is::<Bool>() && !child.dtype().is_nullable(),
        None => false,
    }
}
