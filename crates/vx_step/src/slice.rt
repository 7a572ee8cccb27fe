//! One step of a lazy slice.

ghost use Rattle.std.specs.Prelude.{◌≡◌, ◌≤◌, IfOk, IfErr};
ghost use Rattle.vx_tree.specs.Tree.{len, slice_of};
ghost use Rattle.vx_step.specs.Steps.{IsAnswer, IsFailed};

use crate::steps::SlotTarget;
use crate::whole::Answer;
use std::alloc::Global;
use std::ops::Range;
use vx_rule::push_slice;
use vx_tree::{AnyCanonical, ArrayRef};
use vx_value::VortexResult;

/// Requests `child` as a canonical column; slices it, sharing its buffers, once it is one.
#[tactic(auto, using(crate::proofs::StepsLemmas::slice_waits))]
pub(crate) fn slice_or_wait(
    alloc: Global,
    array: &ArrayRef,
    child: &ArrayRef,
    range: Range<usize>,
) -> VortexResult<Answer>
    requires shape { array.now ≡ slice_of range.start range.end child.now }
    requires within { (range.start ≤ range.end) × (range.end ≤ len child.now) }
    ensures ok { IfOk result (λ s. IsAnswer array.now s) }
    ensures err { IfErr result (IsFailed array.now) }
{
    if !child.is::<AnyCanonical>() {
        return Ok(Answer::Wait(0, SlotTarget::Canonical));
    }
    let part = push_slice(alloc, child, range)?;
    part.well_formed_tree();
    Ok(Answer::Done(part))
}
