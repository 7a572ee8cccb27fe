//! One step of a function node.

ghost use Rattle.std.specs.Prelude.{◌≡◌, ◌++◌, ◌∷◌, [], map, IfOk, IfErr, OnOk, MatchOption, true, Some};
ghost use Rattle.vx_tree.specs.Tree.{Tree, dtype, len, datum, node, function, slots_of, filled_slots, is_columnar, all_present};
ghost use Rattle.vx_tree.specs.Well.{IsNode, shapes};
ghost use Rattle.vx_tree.specs.Canonicals.{columnar_tree};
ghost use Rattle.vx_step.specs.Waiting.{AreColumns, HoldsColumn, waits, trees_of};
ghost use Rattle.vx_step.specs.Steps.{IsAnswer, IsFailed, AwaitsAt};
ghost use Rattle.vx_step.specs.declared.steps.SlotTarget.TheVariants as target;

use crate::steps::SlotTarget;
use crate::whole::Answer;
use std::alloc::{AllocError, Global};
use vx_column::apply_fn;
use vx_fn::ScalarFnRef;
use vx_tree::{AnyColumnar, ArrayRef, Columnar, IntoArray};
use vx_value::VortexResult;

/// Requests the first slot that isn't a column yet; applies `scalar_fn` once all are.
#[tactic(auto, using(crate::proofs::StepsLemmas::slots_present, crate::proofs::StepsLemmas::may_call, crate::proofs::StepsLemmas::applied_done, crate::proofs::StepsLemmas::unapplied_failed))]
pub(crate) fn apply_or_wait(
    alloc: Global,
    array: &ArrayRef,
    scalar_fn: &ScalarFnRef,
    slots: &[Option<ArrayRef>],
) -> VortexResult<Answer>
    requires shape { array.now ≡ node (dtype array.now) (len array.now) (function scalar_fn.now) (slots_of slots.now) }
    requires well { IsNode (dtype array.now) (len array.now) (function scalar_fn.now) (shapes (slots_of slots.now)) }
    ensures ok { IfOk result (λ s. IsAnswer array.now s) }
    ensures err { IfErr result (IsFailed array.now) }
{
    match first_waiting(slots) {
        Some(slot) => Ok(Answer::Wait(slot, SlotTarget::Columnar)),
        None => {
            array.well_formed_tree();
            let columns = columns_of(alloc, slots)?;
            let column = apply_fn(alloc, scalar_fn, columns.as_slice(), array.len())?;
            column.as_array().well_formed_tree();
            Ok(Answer::Done(column.into_array()))
        }
    }
}

/// Returns the first slot that isn't a column yet, counted from 0.
pub(crate) fn first_waiting(slots: &[Option<ArrayRef>]) -> Option<usize>
    requires { all_present (shapes (slots_of slots.now)) ≡ true }
    ensures { MatchOption result (AreColumns (slots_of slots.now)) (λ i. AwaitsAt target.Columnar i (slots_of slots.now)) }
{
    for index in 0..slots.len() {
        if is_waiting(&slots[index]) {
            return Some(index);
        }
    }
    None
}

/// Returns whether `slot` holds a tree that isn't a column yet.
pub(crate) fn is_waiting(slot: &Option<ArrayRef>) -> bool
    ensures { result ≡ waits slot.now }
{
    match slot {
        Some(child) => !child.is::<AnyColumnar>(),
        None => false,
    }
}

/// Returns the columns in `slots`, which share their storage.
pub(crate) fn columns_of(
    alloc: Global,
    slots: &[Option<ArrayRef>],
) -> Result<Vec<Columnar>, AllocError>
    requires { AreColumns (slots_of slots.now) }
    ensures { IfOk result (λ columns. filled_slots (map columnar_tree columns.items) ≡ slots_of slots.now) }
{
    let mut columns = Vec::with_capacity(alloc, slots.len())?;
    for slot in slots {
        push_column(&mut columns, slot)?;
    }
    Ok(columns)
}

/// Appends the column in `slot`.
fn push_column(columns: &mut Vec<Columnar>, slot: &Option<ArrayRef>) -> Result<(), AllocError>
    requires { HoldsColumn slot.now }
    ensures { OnOk result (map columnar_tree columns.new.items ≡ map columnar_tree columns.old.items ++ trees_of slot.now) }
{
    let Some(child) = slot else { unreachable!() };
    match Columnar::try_from_array_ref(child.clone()?) {
        Ok(column) => Ok(columns.push(column)?),
        Err(_) => unreachable!(),
    }
}
