//! The step of a node with all of its slots, by its encoding.

ghost use Rattle.std.specs.Prelude.{◌≡◌, IfOk, IfErr, true, false};
ghost use Rattle.vx_tree.specs.Tree.{datum, is_canonical, is_chunked};
ghost use Rattle.vx_tree.specs.Columns.{IsColumn};
ghost use Rattle.vx_tree.specs.Canonicals.{canonical_tree};
ghost use Rattle.vx_step.specs.Steps.{IsAnswer, IsFailed};

use crate::dict::take_or_wait;
use crate::filter::filter_or_wait;
use crate::function::apply_or_wait;
use crate::interleave::interleave_or_wait;
use crate::masked::mask_or_wait;
use crate::slice::slice_or_wait;
use crate::steps::SlotTarget;
use crate::validity::validity_or_wait;
use std::alloc::Global;
use vx_column::constant_canonicalize;
use vx_tree::{ArrayKind, ArrayRef, Canonical, Constant, IntoArray};
use vx_value::VortexResult;

/// The step of a node with all of its slots.
#[derive(Drop)]
pub(crate) enum Answer {
    /// Requests that the slot, counted from 0, be executed to the target first.
    Wait(usize, SlotTarget),
    /// The tree that replaces the node: a column, or the result of a filter by its mask alone.
    Done(ArrayRef),
}

/// Takes one step of `array`, whose root is neither canonical nor chunked: requests the first slot that isn't ready, or returns
/// the tree that replaces it.
///
/// # Errors
///
/// `Fault` only if a row of `array`, or of a node in it, has no value; `OutOfMemory`.
#[tactic(auto, using(crate::proofs::StepsLemmas::constant_done))]
pub(crate) fn step_of(alloc: Global, array: &ArrayRef) -> VortexResult<Answer>
    requires open { is_canonical (datum array.now) ≡ false }
    requires unchunked { is_chunked (datum array.now) ≡ false }
    ensures ok { IfOk result (IsAnswer array.now) }
    ensures err { IfErr result (IsFailed array.now) }
{
    array.well_formed_tree();
    match array.kind() {
        ArrayKind::Constant(_) => {
            let Some(constant) = array.as_opt::<Constant>() else {
                unreachable!()
            };
            Ok(done(constant_canonicalize(alloc, constant)?))
        }
        ArrayKind::Slice(child, start, stop) => slice_or_wait(alloc, array, child, start..stop),
        ArrayKind::Filter(child, mask) => filter_or_wait(alloc, child, mask),
        ArrayKind::Masked(child, validity) => mask_or_wait(alloc, array, child, validity),
        ArrayKind::ScalarFnValidity(child) => validity_or_wait(alloc, array, child),
        ArrayKind::ScalarFn(function, slots) => apply_or_wait(alloc, array, function, slots),
        ArrayKind::Dict(codes, values) => take_or_wait(alloc, codes, values),
        ArrayKind::Interleave(slots) => interleave_or_wait(alloc, array, slots),
        _ => unreachable!(),
    }
}

/// Returns `column` as the result of a step.
pub(crate) fn done(column: Canonical) -> Answer
    ensures done { result ≡ Answer.Done (canonical_tree column) }
    ensures canonical { is_canonical (datum (canonical_tree column)) ≡ true }
    ensures known { IsColumn (canonical_tree column) }
{
    column.as_array().well_formed_tree();
    Answer::Done(column.into_array())
}
