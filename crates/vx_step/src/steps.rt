//! One step of a node.

ghost use Rattle.std.specs.Prelude.{◌≡◌, Bool, IfOk, IfErr, true, false};
ghost use Rattle.vx_tree.specs.Tree.{Tree, datum, is_canonical, is_columnar, is_primitive, is_bool, is_chunked};
ghost use Rattle.vx_value.specs.Errors.{OnlyOutOfMemory};
ghost use Rattle.vx_step.specs.Turns.{meets};
ghost use Rattle.vx_step.specs.declared.steps.SlotTarget.{SlotTarget};
ghost use Rattle.vx_step.specs.declared.steps.SlotTarget.TheVariants as target;
ghost use Rattle.vx_step.specs.Contents.{IsUsed};
ghost use Rattle.vx_step.specs.Steps.{IsStep, IsOpen, IsFailed};

use crate::chunked::append_or_wait;
use crate::whole::{Answer, step_of};
use std::alloc::Global;
use vx_tree::{
    AnyArray, AnyCanonical, AnyColumnar, ArrayRef, Bool, Encoding, Primitive, Suspended,
};
use vx_value::VortexResult;

/// The form that a slot is executed to. (own)
#[derive(Clone, Copy, Debug)]
pub enum SlotTarget {
    /// A canonical column.
    Canonical,
    /// A canonical column or a constant.
    Columnar,
    /// A canonical column of integers.
    Primitive,
    /// A canonical column of booleans.
    Bool,
    /// Any tree.
    Any,
}

impl SlotTarget {
    /// Returns whether `array` has this form.
    pub fn is_met_by(self, array: &ArrayRef) -> bool
        ensures { result ≡ meets self array.now }
    {
        match self {
            SlotTarget::Canonical => array.is::<AnyCanonical>(),
            SlotTarget::Columnar => array.is::<AnyColumnar>(),
            SlotTarget::Primitive => array.is::<Primitive>(),
            SlotTarget::Bool => array.is::<Bool>(),
            SlotTarget::Any => true,
        }
    }
}

/// The matchers that a slot can be executed to. (own)
pub trait DonePredicate {
    // the target of the matcher, and the trees that it matches
    ghost named: { SlotTarget };

    ghost passes: { Tree → Bool };

    /// Returns the target that `Self` names.
    fn target() -> SlotTarget
        ensures is { result ≡ named }
        ensures met { (t : Tree) → meets result t ≡ passes t };
}

impl DonePredicate for AnyCanonical {
    ghost named = { target.Canonical };

    ghost passes = { λ t. is_canonical (datum t) };

    fn target() -> SlotTarget {
        SlotTarget::Canonical
    }
}

impl DonePredicate for AnyColumnar {
    ghost named = { target.Columnar };

    ghost passes = { λ t. is_columnar (datum t) };

    fn target() -> SlotTarget {
        SlotTarget::Columnar
    }
}

impl DonePredicate for Primitive {
    ghost named = { target.Primitive };

    ghost passes = { λ t. is_primitive (datum t) };

    fn target() -> SlotTarget {
        SlotTarget::Primitive
    }
}

impl DonePredicate for Bool {
    ghost named = { target.Bool };

    ghost passes = { λ t. is_bool (datum t) };

    fn target() -> SlotTarget {
        SlotTarget::Bool
    }
}

impl DonePredicate for AnyArray {
    ghost named = { target.Any };

    ghost passes = { λ _. true };

    fn target() -> SlotTarget {
        SlotTarget::Any
    }
}

/// What comes after a step.
#[derive(Clone, Copy, Debug)]
pub enum ExecutionStep {
    /// The slot, counted from 0, is to be executed to the target first.
    ExecuteSlot(usize, SlotTarget),
    /// The slot, counted from 0, is a column whose rows come next.
    AppendChild(usize),
    /// Nothing: the node is the result, or is used up.
    Done,
}

/// The result of a step: a node, and what comes next.
pub struct ExecutionResult {
    pub array: Suspended,
    pub step: ExecutionStep,
}

// by hand: see `Suspended`
impl Drop for ExecutionResult {
    fn drop(self) {
        let ExecutionResult {
            array: _array,
            step: _,
        } = self;
    }
}

impl ExecutionResult {
    /// Makes the result of a step that is over: `array`.
    pub fn done(array: Suspended) -> ExecutionResult
        ensures { result ≡ record { array = array; step = ExecutionStep.Done } }
    {
        ExecutionResult {
            array,
            step: ExecutionStep::Done,
        }
    }

    /// Requests that `slot` of `array`, counted from 0, be executed until it matches `M`.
    pub fn execute_slot<M: DonePredicate>(array: Suspended, slot: usize) -> ExecutionResult
        ensures { result ≡ record { array = array; step = ExecutionStep.ExecuteSlot slot M.named } }
    {
        ExecutionResult {
            array,
            step: ExecutionStep::ExecuteSlot(slot, M::target()),
        }
    }

    /// Requests that the rows of `slot` of `array`, counted from 0, be appended to a builder of `array`'s rows.
    pub fn append_child(array: Suspended, slot: usize) -> ExecutionResult
        ensures { result ≡ record { array = array; step = ExecutionStep.AppendChild slot } }
    {
        ExecutionResult {
            array,
            step: ExecutionStep::AppendChild(slot),
        }
    }

    /// Returns the node.
    pub fn array(&self) -> &Suspended
        ensures { result.now ≡ self.now.array }
    {
        &self.array
    }

    /// Returns what comes next.
    pub fn step(&self) -> ExecutionStep
        ensures { result ≡ self.now.step }
    {
        self.step
    }

    /// Returns the node and what comes next.
    pub fn into_parts(self) -> (Suspended, ExecutionStep)
        ensures { result ≡ (self.array, self.step) }
    {
        let ExecutionResult { array, step } = self;
        (array, step)
    }
}

/// Takes one step of `array`, whose root must not be canonical, and of whose slots only chunks may be empty: requests the first
/// slot that isn't ready, or returns the tree that replaces it. This is a column, or, for a filter that chooses all rows or
/// consecutive ones, its child or the child's slice, pushed down. The rows of chunks are appended one chunk at a time, the first
/// that is there next; chunks that are used up are returned as they are.
///
/// # Errors
///
/// `Fault` only if a row of `array`, or of a node in it, has no value; `OutOfMemory`.
#[tactic(auto, using(crate::proofs::ContentsLemmas::open_whole, crate::proofs::ContentsLemmas::used_chunks))]
pub fn step(alloc: Global, array: Suspended) -> VortexResult<ExecutionResult>
    requires open { is_canonical (datum array) ≡ false }
    requires slots { IsOpen array }
    ensures ok { IfOk result (IsStep array) }
    ensures err { IfErr result (IsFailed array) }
    ensures used { IsUsed array → OnlyOutOfMemory result }
{
    if is_chunks(&array) {
        append_or_wait(alloc, array)
    } else {
        step_whole(alloc, array.into_array())
    }
}

/// Returns whether `array` is a node of chunks.
fn is_chunks(array: &Suspended) -> bool
    ensures { result ≡ is_chunked (datum array.now) }
{
    match array.encoding() {
        Encoding::Chunked(_) => true,
        _ => false,
    }
}

/// Takes the step of a node with all of its slots.
#[tactic(auto, using(crate::proofs::ContentsLemmas::answer_waits, crate::proofs::ContentsLemmas::answer_done))]
fn step_whole(alloc: Global, array: ArrayRef) -> VortexResult<ExecutionResult>
    requires open { is_canonical (datum array) ≡ false }
    requires unchunked { is_chunked (datum array) ≡ false }
    ensures ok { IfOk result (IsStep array) }
    ensures err { IfErr result (IsFailed array) }
{
    array.well_formed_tree();
    match step_of(alloc, &array) {
        Ok(Answer::Wait(slot, target)) => Ok(ExecutionResult {
            array: Suspended::of(array),
            step: ExecutionStep::ExecuteSlot(slot, target),
        }),
        Ok(Answer::Done(next)) => Ok(ExecutionResult::done(Suspended::of(next))),
        Err(e) => Err(e),
    }
}
