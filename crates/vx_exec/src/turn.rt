//! One turn of the executor.

ghost use Rattle.std.specs.Prelude.{◌≡◌, ◌<◌, ◌^◌, [], None, IsOk, IfOk, IfErr, Ok, Err, true, false};
ghost use Rattle.vx_value.specs.Errors.{OnlyOutOfMemory};
ghost use Rattle.vx_tree.specs.Tree.{datum, is_canonical};
ghost use Rattle.vx_tree.specs.Cells.{HasNoFault};
ghost use Rattle.vx_tree.specs.Slots.{put};
ghost use Rattle.vx_tree.specs.Canonicals.{columnar_tree};
ghost use Rattle.vx_column.specs.Grown.{with_column, column_refusal, IsGrown};
ghost use Rattle.vx_step.specs.Contents.{IsAppend};
ghost use Rattle.vx_step.specs.Turns.{target_of};
ghost use Rattle.vx_step.specs.Steps.{IsStopped, HasNoShortcut, Awaits};
ghost use Rattle.vx_exec.specs.Frames.{filled, AreFrames, active, Fits, focus_on, focus_tree, IsFocus, IsFrame};
ghost use Rattle.vx_exec.specs.Moves.{is_reached, is_over, IsMove, IsTurned, IsFaulty, IsGoing, IsAppendedTo, IsNotAppended, IsUnread, read_cells, begun, ended, MayEnd};

use std::alloc::Global;
use vx_column::Builder;
use vx_step::{ExecutionStep, SlotTarget, Suspended, append_to_builder, step};
use vx_tree::{AnyCanonical, ArrayRef, Columnar, IntoArray, Matcher};
use vx_value::{VortexError, VortexResult};

/// A suspended parent, what its open slot is executed to, and the builder of its rows, if it is under way. (own)
#[derive(Drop)]
pub struct Frame {
    pub parent: Suspended,
    /// The open slot, counted from 0.
    pub slot: usize,
    pub target: SlotTarget,
    /// The rows of the slots that are used up.
    pub builder: Option<Builder>,
}

/// The current node. (own)
#[derive(Drop)]
pub enum Focus {
    /// A node with all of its slots.
    Whole(ArrayRef),
    /// A node of which some slots are used up, and the builder that has their rows.
    Partial(Suspended, Builder),
}

/// The outcome of a turn. (own)
#[derive(Drop)]
pub enum Turn {
    /// The node to go on with.
    Go(Focus),
    /// The executed root.
    Return(ArrayRef),
}

/// Returns whether `current` has reached its target: the last frame's, or the root's if there is no frame. A canonical node
/// always has.
fn is_reached<M: Matcher>(frames: &[Frame], current: &ArrayRef) -> bool
    ensures { result ≡ is_reached M.fits frames.now current.now }
{
    if current.is::<AnyCanonical>() {
        return true;
    }
    match frames.last() {
        Some(frame) => frame.target.is_met_by(current),
        None => M::matches(current),
    }
}

/// Takes the step of `node`, with the builder that is under way there, or suspends both and enters the slot that the step
/// requests.
#[tactic(auto, using(crate::proofs::MovesLemmas::going_open))]
fn advance<M: Matcher>(
    alloc: Global,
    frames: &mut Vec<Frame>,
    node: Suspended,
    builder: Option<Builder>,
) -> VortexResult<Focus>
    requires going { IsGoing M.fits frames.old.items builder node }
    requires open { is_canonical (datum node) ≡ false }
    ensures ok { IfOk result (λ d. IsMove M.fits frames.old.items (focus_on builder node) frames.new.items d) }
    ensures err { IfErr result (IsStopped (filled frames.old.items (active builder node))) }
    ensures fault { result ≡ Err VortexError.Fault → IsFaulty M.fits frames.old.items (focus_on builder node) }
{
    match step(alloc, node) {
        Ok(result) => {
            let (node, next) = result.into_parts();
            match next {
                ExecutionStep::ExecuteSlot(slot, target) => {
                    enter::<M>(frames, node, slot, target, builder)
                }
                ExecutionStep::AppendChild(slot) => append(alloc, node, slot, builder),
                ExecutionStep::Done => end(alloc, node, builder),
            }
        }
        Err(e) => Err(e),
    }
}

/// Suspends `node` with its builder, and enters `slot`. Fails only with `OutOfMemory`.
fn enter<M: Matcher>(
    frames: &mut Vec<Frame>,
    node: Suspended,
    slot: usize,
    target: SlotTarget,
    builder: Option<Builder>,
) -> VortexResult<Focus>
    requires going { IsGoing M.fits frames.old.items builder node }
    requires direct { HasNoShortcut node }
    requires awaited { Awaits slot node }
    requires target { target ≡ target_of node }
    ensures ok { IfOk result (λ d. IsMove M.fits frames.old.items (focus_on builder node) frames.new.items d) }
    ensures err { OnlyOutOfMemory result }
{
    let (parent, child) = node.take_slot(slot)?;
    child.well_formed_tree();
    frames.push(Frame {
        parent,
        slot,
        target,
        builder,
    })?;
    Ok(Focus::Whole(child))
}

/// Takes the column out of `slot`, and appends it to `builder`, or to a new one if there is none.
fn append(
    alloc: Global,
    node: Suspended,
    slot: usize,
    builder: Option<Builder>,
) -> VortexResult<Focus>
    requires next { IsAppend slot node }
    requires formed { Fits builder node }
    ensures ok { IfOk result (IsAppendedTo slot builder node) }
    ensures err { IfErr result (IsNotAppended slot node) }
{
    know_bound(node.len());
    let builder = begin(alloc, &node, builder)?;
    let (parent, child) = node.take_slot(slot)?;
    match Columnar::try_from_array_ref(child) {
        Ok(column) => {
            column.as_array().well_formed_tree();
            know_bound(column.len());
            match append_rows(alloc, builder, &column) {
                Ok(builder) => Ok(Focus::Partial(parent, builder)),
                Err(e) => Err(e),
            }
        }
        Err(_) => unreachable!(),
    }
}

/// States that a number of rows is below 2^64.
fn know_bound(len: usize)
    ensures { len < 2 ^ 64 }
{}

/// Returns `builder`, or a new one of the rows of `node` if there is none. Fails only with `OutOfMemory`.
fn begin(alloc: Global, node: &Suspended, builder: Option<Builder>) -> VortexResult<Builder>
    ensures ok { IfOk result (λ b. b ≡ begun builder node.now) }
    ensures err { OnlyOutOfMemory result }
{
    match builder {
        Some(builder) => Ok(builder),
        None => {
            let dtype = node.dtype().clone()?;
            Builder::with_capacity(alloc, dtype, node.len())
        }
    }
}

/// Appends `column` to `builder`, which must take it.
#[tactic(auto, using(crate::proofs::ReadLemmas::read_told, crate::proofs::ReadLemmas::unread))]
pub(crate) fn append_rows(
    alloc: Global,
    builder: Builder,
    column: &Columnar,
) -> VortexResult<Builder>
    requires { column_refusal builder (columnar_tree column.now) ≡ None }
    ensures ok { IfOk result (λ b. b ≡ with_column builder (columnar_tree column.now)) }
    ensures grown { IfOk result IsGrown }
    ensures told { IfOk result (λ b. HasNoFault (read_cells (columnar_tree column.now))) }
    ensures err { IfErr result (IsUnread (columnar_tree column.now)) }
{
    column.as_array().well_formed_tree();
    let mut builder = builder;
    match append_to_builder(alloc, column, &mut builder) {
        Ok(()) => {
            let _grown = builder.dtype();
            Ok(builder)
        }
        Err(e) => Err(e),
    }
}

/// Returns the column of `builder`, or `node` if there is none. Fails only with `OutOfMemory`.
fn end(alloc: Global, node: Suspended, builder: Option<Builder>) -> VortexResult<Focus>
    requires { MayEnd builder node }
    ensures ok { IfOk result (λ d. d ≡ ended builder node) }
    ensures formed { IfOk result IsFocus }
    ensures err { OnlyOutOfMemory result }
{
    match builder {
        Some(builder) => {
            let column = builder.finish(alloc)?;
            column.as_array().well_formed_tree();
            Ok(Focus::Whole(column.into_array()))
        }
        None => Ok(Focus::Whole(node.into_array())),
    }
}

/// Puts `current` back into its parent, and takes up the parent's builder. Fails only with `OutOfMemory`.
fn resume(frame: Frame, current: ArrayRef) -> VortexResult<Focus>
    requires { IsFrame frame current }
    ensures ok { IfOk result (λ d. d ≡ focus_on frame.builder (put frame.slot current frame.parent)) }
    ensures err { OnlyOutOfMemory result }
{
    let Frame {
        parent,
        slot,
        target: _,
        builder,
    } = frame;
    match builder {
        None => Ok(Focus::Whole(parent.put(slot, current)?)),
        Some(builder) => {
            let node = parent.fill(slot, current)?;
            Ok(Focus::Partial(node, builder))
        }
    }
}

/// Takes one turn: puts `current` back if it has reached its target, else takes its step or enters a slot. `frames` has the
/// outermost parent first. (own)
///
/// The errors are `OutOfMemory`, and `Fault` only if a row of the whole tree, or of a node in it, has no value.
pub fn take_turn<M: Matcher>(
    alloc: Global,
    frames: &mut Vec<Frame>,
    current: Focus,
) -> VortexResult<Turn>
    requires frames { AreFrames frames.old.items (focus_tree current) }
    requires focus { IsFocus current }
    ensures ok { IfOk result (λ r. IsTurned M.fits frames.old.items current frames.new.items r) }
    ensures err { IfErr result (IsStopped (filled frames.old.items (focus_tree current))) }
    ensures fault { result ≡ Err VortexError.Fault → IsFaulty M.fits frames.old.items current }
    ensures returns { frames.old.items ≡ [] → is_over M.fits [] current ≡ true → IsOk result }
{
    match current {
        Focus::Whole(array) => turn_whole::<M>(alloc, frames, array),
        Focus::Partial(node, builder) => go(advance::<M>(alloc, frames, node, Some(builder))),
    }
}

/// Takes one turn at a node with all of its slots.
fn turn_whole<M: Matcher>(
    alloc: Global,
    frames: &mut Vec<Frame>,
    array: ArrayRef,
) -> VortexResult<Turn>
    requires { AreFrames frames.old.items array }
    ensures ok { IfOk result (λ r. IsTurned M.fits frames.old.items (Focus.Whole array) frames.new.items r) }
    ensures err { IfErr result (IsStopped (filled frames.old.items array)) }
    ensures fault { result ≡ Err VortexError.Fault → IsFaulty M.fits frames.old.items (Focus.Whole array) }
    ensures returns { frames.old.items ≡ [] → is_reached M.fits [] array ≡ true → IsOk result }
{
    array.well_formed_tree();
    if is_reached::<M>(frames, &array) {
        return match frames.pop() {
            Some(frame) => Ok(Turn::Go(resume(frame, array)?)),
            None => Ok(Turn::Return(array)),
        };
    }
    go(advance::<M>(alloc, frames, Suspended::of(array), None))
}

/// Returns the turn that goes on with the node of `step`.
fn go(step: VortexResult<Focus>) -> VortexResult<Turn>
    ensures ok { IfOk step (λ d. result ≡ Ok (Turn.Go d)) }
    ensures err { IfErr step (λ e. result ≡ Err e) }
{
    match step {
        Ok(next) => Ok(Turn::Go(next)),
        Err(e) => Err(e),
    }
}
