//! One step of a dictionary.

ghost use Rattle.std.specs.Prelude.{IfOk, IfErr};
ghost use Rattle.vx_tree.specs.Tree.{dict_of};
ghost use Rattle.vx_tree.specs.Well.{IsNodeOf};
ghost use Rattle.vx_step.specs.Steps.{IsAnswer, IsFailed};

use crate::steps::SlotTarget;
use crate::whole::Answer;
use std::alloc::Global;
use vx_column::take_rows;
use vx_tree::{ArrayRef, Columnar, IntoArray};
use vx_value::VortexResult;

/// Requests `codes` as a column, then `values`; looks the values up once both are.
#[tactic(auto, using(crate::proofs::DictLemmas::codes_wait, crate::proofs::DictLemmas::values_wait, crate::proofs::DictLemmas::codes_integer))]
pub(crate) fn take_or_wait(
    alloc: Global,
    codes: &ArrayRef,
    values: &ArrayRef,
) -> VortexResult<Answer>
    requires node { IsNodeOf (dict_of codes.now values.now) }
    ensures ok { IfOk result (IsAnswer (dict_of codes.now values.now)) }
    ensures err { IfErr result (IsFailed (dict_of codes.now values.now)) }
{
    let Ok(codes) = Columnar::try_from_array_ref(codes.clone()?) else {
        return Ok(Answer::Wait(0, SlotTarget::Columnar));
    };
    let Ok(values) = Columnar::try_from_array_ref(values.clone()?) else {
        return Ok(Answer::Wait(1, SlotTarget::Columnar));
    };
    match take_rows(alloc, &codes, &values) {
        Ok(column) => {
            column.as_array().well_formed_tree();
            Ok(Answer::Done(column.into_array()))
        }
        Err(e) => Err(e),
    }
}
