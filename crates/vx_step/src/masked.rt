//! One step of a masked array.

ghost use Rattle.std.specs.Prelude.{◌≡◌, IfOk, IfErr};
ghost use Rattle.vx_tree.specs.Tree.{masked_of};
ghost use Rattle.vx_step.specs.Steps.{IsAnswer, IsFailed};
ghost use Rattle.vx_step.specs.Told.{told_by};

use crate::steps::SlotTarget;
use crate::whole::{Answer, done};
use std::alloc::{AllocError, Global};
use vx_column::mask_validity_canonical;
use vx_tree::{ArrayRef, Canonical, Validity};
use vx_value::VortexResult;

/// Requests `child` as a canonical column; joins its validity with `validity` once it is one.
#[tactic(auto, using(crate::proofs::MaskedLemmas::told_rows, crate::proofs::MaskedLemmas::told_nullable, crate::proofs::MaskedLemmas::told_done, crate::proofs::MaskedLemmas::told_failed, crate::proofs::StepsLemmas::masked_waits))]
pub(crate) fn mask_or_wait(
    alloc: Global,
    array: &ArrayRef,
    child: &ArrayRef,
    validity: &Option<ArrayRef>,
) -> VortexResult<Answer>
    requires { array.now ≡ masked_of child.now validity.now }
    ensures ok { IfOk result (λ s. IsAnswer array.now s) }
    ensures err { IfErr result (IsFailed array.now) }
{
    array.well_formed_tree();
    match Canonical::try_from_array_ref(child.clone()?) {
        Ok(column) => {
            let validity = told_by(validity)?;
            Ok(done(mask_validity_canonical(alloc, &column, &validity)?))
        }
        Err(_) => Ok(Answer::Wait(0, SlotTarget::Canonical)),
    }
}

/// Returns the validity with the tree in `slot`. A constant isn't read back.
fn told_by(slot: &Option<ArrayRef>) -> Result<Validity, AllocError>
    ensures { IfOk result (λ v. v ≡ told_by slot.now) }
{
    match slot {
        Some(tree) => Ok(Validity::Array(tree.clone()?)),
        None => Ok(Validity::AllValid),
    }
}
