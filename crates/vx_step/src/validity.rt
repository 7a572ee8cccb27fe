//! One step of a test for null.

ghost use Rattle.std.specs.Prelude.{◌≡◌, IfOk, IfErr};
ghost use Rattle.vx_tree.specs.Tree.{validity_in};
ghost use Rattle.vx_step.specs.Steps.{IsAnswer, IsFailed};

use crate::steps::SlotTarget;
use crate::whole::{Answer, done};
use std::alloc::Global;
use vx_column::validity_canonical;
use vx_tree::{ArrayRef, Columnar};
use vx_value::VortexResult;

/// Requests `child` as a column; tests its rows for null once it is one.
#[tactic(auto, using(crate::proofs::StepsLemmas::validity_done, crate::proofs::StepsLemmas::validity_waits, crate::proofs::StepsLemmas::unread_failed))]
pub(crate) fn validity_or_wait(
    alloc: Global,
    array: &ArrayRef,
    child: &ArrayRef,
) -> VortexResult<Answer>
    requires { array.now ≡ validity_in child.now }
    ensures ok { IfOk result (λ s. IsAnswer array.now s) }
    ensures err { IfErr result (IsFailed array.now) }
{
    match Columnar::try_from_array_ref(child.clone()?) {
        Ok(column) => match validity_canonical(alloc, &column) {
            Ok(valid) => Ok(done(valid)),
            Err(e) => Err(e),
        },
        Err(_) => Ok(Answer::Wait(0, SlotTarget::Columnar)),
    }
}
