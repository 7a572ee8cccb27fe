//! One step of interleaved rows.

ghost use Rattle.std.specs.Prelude.{◌≡◌, map, IfOk, IfErr};
ghost use Rattle.vx_tree.specs.Tree.{dtype, len, node, interleave, slots_of};
ghost use Rattle.vx_tree.specs.Well.{IsNode, shapes};
ghost use Rattle.vx_tree.specs.Canonicals.{columnar_tree};
ghost use Rattle.vx_step.specs.Waiting.{ArePairs, IsPaired, IsNotPaired};
ghost use Rattle.vx_step.specs.Steps.{IsAnswer, IsFailed};

use crate::function::{columns_of, first_waiting};
use crate::steps::SlotTarget;
use crate::whole::Answer;
use std::alloc::Global;
use vx_column::interleave_rows;
use vx_tree::{ArrayRef, Columnar, IntoArray};
use vx_value::VortexResult;

/// Requests the first slot that isn't a column yet; looks the rows up once all are.
#[tactic(auto, using(crate::proofs::InterleaveLemmas::slots_present))]
pub(crate) fn interleave_or_wait(
    alloc: Global,
    array: &ArrayRef,
    slots: &[Option<ArrayRef>],
) -> VortexResult<Answer>
    requires shape { array.now ≡ node (dtype array.now) (len array.now) interleave (slots_of slots.now) }
    requires well { IsNode (dtype array.now) (len array.now) interleave (shapes (slots_of slots.now)) }
    ensures ok { IfOk result (IsAnswer array.now) }
    ensures err { IfErr result (IsFailed array.now) }
{
    match first_waiting(slots) {
        Some(slot) => Ok(Answer::Wait(slot, SlotTarget::Columnar)),
        None => {
            array.well_formed_tree();
            let columns = columns_of(alloc, slots)?;
            match interleave_columns(alloc, columns.as_slice()) {
                Ok(column) => {
                    column.as_array().well_formed_tree();
                    Ok(Answer::Done(column.into_array()))
                }
                Err(e) => Err(e),
            }
        }
    }
}

/// Looks up the rows that the first two of `columns` name among the others.
fn interleave_columns(alloc: Global, columns: &[Columnar]) -> VortexResult<Columnar>
    requires { ArePairs (map columnar_tree columns.now) }
    ensures ok { IfOk result (λ u. IsPaired (map columnar_tree columns.now) (columnar_tree u)) }
    ensures err { IfErr result (IsNotPaired (map columnar_tree columns.now)) }
{
    match columns {
        [arrays, rows, values @ ..] => interleave_rows(alloc, arrays, rows, values),
        _ => unreachable!(),
    }
}
