//! One step of a lazy filter.

ghost use Rattle.std.specs.Prelude.{◌≡◌, ◌<◌, IfOk, IfErr, length, false};
ghost use Rattle.vx_value.specs.Errors.{OnlyOutOfMemory};
ghost use Rattle.vx_mask.specs.Masks.{bits_in, is_all_true};
ghost use Rattle.vx_mask.specs.Places.{true_count};
ghost use Rattle.vx_tree.specs.Tree.{len, datum, is_canonical, filter_of};
ghost use Rattle.vx_tree.specs.Canonicals.{canonical_tree};
ghost use Rattle.vx_tree.specs.Keeps.{KeepsExactly};
ghost use Rattle.vx_step.specs.Steps.{IsAnswer, IsFailed};

use crate::steps::SlotTarget;
use crate::whole::{Answer, done};
use std::alloc::Global;
use vx_column::filter_canonical;
use vx_mask::Mask;
use vx_rule::push_slice;
use vx_tree::{ArrayRef, Canonical, slice_canonical};
use vx_value::VortexResult;

/// Replaces the filter of `child` by `mask`: by the empty column if the mask chooses no row, by `child` if it chooses all, and
/// by the slice of `child`, pushed down, if the chosen rows are consecutive. Otherwise requests `child` as a canonical column,
/// and filters it once it is one.
#[tactic(auto, using(crate::proofs::FilterLemmas::nothing_done, crate::proofs::FilterLemmas::whole_done))]
pub(crate) fn filter_or_wait(alloc: Global, child: &ArrayRef, mask: &Mask) -> VortexResult<Answer>
    requires { length (bits_in mask.now) ≡ len child.now }
    ensures ok { IfOk result (IsAnswer (filter_of (bits_in mask.now) child.now)) }
    ensures err { IfErr result (IsFailed (filter_of (bits_in mask.now) child.now)) }
{
    child.well_formed_tree();
    if mask.true_count() == 0 {
        return Ok(done(Canonical::empty(alloc, child.dtype())?));
    }
    if mask.all_true() {
        return Ok(Answer::Done(child.clone()?));
    }
    choose_or_wait(alloc, child, mask)
}

/// Takes the step of a filter whose mask chooses some but not all rows of `child`.
#[tactic(auto, using(crate::proofs::FilterLemmas::filter_done))]
fn choose_or_wait(alloc: Global, child: &ArrayRef, mask: &Mask) -> VortexResult<Answer>
    requires within { length (bits_in mask.now) ≡ len child.now }
    requires some { 0 < true_count (bits_in mask.now) }
    requires not_all { is_all_true (bits_in mask.now) ≡ false }
    ensures ok { IfOk result (IsAnswer (filter_of (bits_in mask.now) child.now)) }
    ensures err { IfErr result (IsFailed (filter_of (bits_in mask.now) child.now)) }
{
    child.well_formed_tree();
    match Canonical::try_from_array_ref(child.clone()?) {
        Ok(column) => Ok(done(filter_column(alloc, &column, mask)?)),
        Err(child) => slice_or_wait(alloc, child, mask),
    }
}

/// Chooses rows of `column`, as a slice if they are consecutive. Fails only with `OutOfMemory`.
#[tactic(auto, using(vx_rule::proofs::FiltersLemmas::run_range, crate::proofs::FilterLemmas::run_kept))]
fn filter_column(alloc: Global, column: &Canonical, mask: &Mask) -> VortexResult<Canonical>
    requires { length (bits_in mask.now) ≡ len (canonical_tree column.now) }
    ensures ok { IfOk result (λ c. KeepsExactly (filter_of (bits_in mask.now) (canonical_tree column.now)) (canonical_tree c)) }
    ensures err { OnlyOutOfMemory result }
{
    column.as_array().well_formed_tree();
    match mask.contiguous_range() {
        Some(range) => slice_canonical(alloc, column, range),
        None => filter_canonical(alloc, column, mask),
    }
}

/// Replaces the filter of `child`, which isn't a column yet, by its slice, pushed down, if the chosen rows are consecutive.
/// Otherwise requests `child` as a canonical column.
#[tactic(auto, using(vx_rule::proofs::FiltersLemmas::run_range, crate::proofs::FilterLemmas::run_done, crate::proofs::FilterLemmas::filter_waits))]
fn slice_or_wait(alloc: Global, child: ArrayRef, mask: &Mask) -> VortexResult<Answer>
    requires within { length (bits_in mask.now) ≡ len child }
    requires some { 0 < true_count (bits_in mask.now) }
    requires not_all { is_all_true (bits_in mask.now) ≡ false }
    requires unready { is_canonical (datum child) ≡ false }
    ensures ok { IfOk result (IsAnswer (filter_of (bits_in mask.now) child)) }
    ensures err { IfErr result (IsFailed (filter_of (bits_in mask.now) child)) }
{
    child.well_formed_tree();
    match mask.contiguous_range() {
        Some(range) => {
            let part = push_slice(alloc, &child, range)?;
            Ok(Answer::Done(part))
        }
        None => Ok(Answer::Wait(0, SlotTarget::Canonical)),
    }
}
