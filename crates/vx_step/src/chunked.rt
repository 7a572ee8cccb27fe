//! One step of chunks.

ghost use Rattle.std.specs.Prelude.{◌≡◌, IfOk, true, false};
ghost use Rattle.vx_value.specs.Errors.{OnlyOutOfMemory};
ghost use Rattle.vx_tree.specs.Tree.{datum, slots, slots_of, no_slots, is_chunked};
ghost use Rattle.vx_tree.specs.Slots.{IsFirstAt};
ghost use Rattle.vx_step.specs.Waiting.{IsReadyAt};
ghost use Rattle.vx_step.specs.Steps.{IsStep, IsOpen, AwaitsAt};
ghost use Rattle.vx_step.specs.declared.steps.SlotTarget.TheVariants as target;

use crate::function::is_waiting;
use crate::steps::ExecutionResult;
use std::alloc::Global;
use vx_tree::{AnyColumnar, ArrayRef, Canonical, IntoArray, Suspended};
use vx_value::VortexResult;

/// Requests the first chunk that is there as a column, and its rows once it is one. Without chunks the result is the empty column;
/// once all are used up, it is the node as it is. Fails only with `OutOfMemory`.
#[tactic(auto, using(crate::proofs::ContentsLemmas::chunks_empty, crate::proofs::ContentsLemmas::chunks_used))]
pub(crate) fn append_or_wait(alloc: Global, array: Suspended) -> VortexResult<ExecutionResult>
    requires chunked { is_chunked (datum array) ≡ true }
    requires slots { IsOpen array }
    ensures ok { IfOk result (IsStep array) }
    ensures err { OnlyOutOfMemory result }
{
    match array.first_slot() {
        Some(slot) => Ok(append_or_execute(array, slot)),
        None => {
            if has_none(array.slots()) {
                let empty = Canonical::empty(alloc, array.dtype())?;
                empty.as_array().well_formed_tree();
                return Ok(ExecutionResult::done(Suspended::of(empty.into_array())));
            }
            Ok(ExecutionResult::done(array))
        }
    }
}

/// Requests the rows of the chunk in `slot`, the first that is there, if it is a column; else requests it as one.
#[tactic(auto, using(crate::proofs::ContentsLemmas::chunk_appends, crate::proofs::ContentsLemmas::chunk_waits))]
fn append_or_execute(array: Suspended, slot: usize) -> ExecutionResult
    requires chunked { is_chunked (datum array) ≡ true }
    requires slots { IsOpen array }
    requires first { IsFirstAt slot (slots array) }
    ensures { IsStep array result }
{
    if is_first_waiting(array.slots(), slot) {
        ExecutionResult::execute_slot::<AnyColumnar>(array, slot)
    } else {
        ExecutionResult::append_child(array, slot)
    }
}

/// Returns whether there are no slots.
#[tactic(auto, using(crate::proofs::ContentsLemmas::bare_slots, crate::proofs::ContentsLemmas::some_slots))]
fn has_none(slots: &[Option<ArrayRef>]) -> bool
    ensures none { result ≡ true → slots_of slots.now ≡ no_slots }
    ensures some { result ≡ false → ¬ (slots_of slots.now ≡ no_slots) }
{
    slots.len() == 0
}

/// Returns whether the tree in `slot`, the first that isn't empty, isn't a column yet.
#[tactic(auto, using(crate::proofs::ContentsLemmas::ready_at, crate::proofs::ContentsLemmas::awaits_at, crate::proofs::ContentsLemmas::first_within))]
fn is_first_waiting(slots: &[Option<ArrayRef>], slot: usize) -> bool
    requires { IsFirstAt slot (slots_of slots.now) }
    ensures ready { result ≡ false → IsReadyAt slot (slots_of slots.now) }
    ensures waiting { result ≡ true → AwaitsAt target.Columnar slot (slots_of slots.now) }
{
    is_waiting(&slots[slot])
}
