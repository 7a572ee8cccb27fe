//! The loop of turns.

ghost use Rattle.std.specs.Prelude.{⊤, ◌≡◌, ◌⊎◌, ◌≤◌, ◌<◌, ℕ, IsOk, IfOk, IfErr, OnOk, Err, true};
ghost use Rattle.vx_tree.specs.Tree.{datum, is_canonical};
ghost use Rattle.vx_tree.specs.Firm.{KeepsFirmly};
ghost use Rattle.vx_tree.specs.Cost.{cost};
ghost use Rattle.vx_step.specs.Steps.{IsStopped};
ghost use Rattle.vx_exec.specs.Moves.{IsExecuted, GoesOn, FaultsIn};
ghost use Rattle.vx_exec.specs.Budgets.{budget_of};
ghost use Rattle.vx_exec.specs.Limits.{default_turns};

use crate::session::VortexSession;
use crate::turn::{Focus, Frame, Turn, take_turn};
use std::alloc::Global;
use std::fmt;
use vx_tree::{ArrayRef, Matcher};
use vx_value::{VortexError, VortexResult};

/// The turns that an execution may take if no other limit is set.
pub const DEFAULT_TURNS: u64 = 4_194_304;

/// The context of an execution: an allocator, the session, the limit of turns, and the turns that the last call took.
#[derive(Drop)]
pub struct ExecutionCtx {
    alloc: Global,
    session: VortexSession,
    limit: u64,
    turns: u64,
}

impl ExecutionCtx {
    /// Creates a context that owns `session` until `into_session` hands it back, with the limit `DEFAULT_TURNS`.
    pub fn new(alloc: Global, session: VortexSession) -> Self
        requires { ⊤ }
        ensures session { result.session ≡ session }
        ensures budget { budget_of result ≡ record { limit = default_turns; turns = 0 } }
    {
        ExecutionCtx {
            alloc,
            session,
            limit: DEFAULT_TURNS,
            turns: 0,
        }
    }

    /// Sets the limit, in turns. (own)
    pub fn with_limit(self, limit: u64) -> Self
        requires { ⊤ }
        ensures session { result.session ≡ self.session }
        ensures budget { budget_of result ≡ record { limit = limit; turns = self.turns } }
    {
        ExecutionCtx { limit, ..self }
    }

    /// Sets the allocator.
    pub fn with_allocator(self, alloc: Global) -> Self
        requires { ⊤ }
        ensures session { result.session ≡ self.session }
        ensures budget { budget_of result ≡ budget_of self }
    {
        ExecutionCtx { alloc, ..self }
    }

    /// Returns the allocator.
    pub fn allocator(&self) -> Global {
        self.alloc
    }

    /// Returns the session.
    pub fn session(&self) -> &VortexSession
        requires { ⊤ }
        ensures { result.now ≡ self.now.session }
    {
        &self.session
    }

    /// Hands the session back. (own)
    pub fn into_session(self) -> VortexSession
        requires { ⊤ }
        ensures { result ≡ self.session }
    {
        let ExecutionCtx {
            alloc: _,
            session,
            limit: _,
            turns: _,
        } = self;
        session
    }

    /// Returns the limit, in turns. (own)
    pub fn limit(&self) -> u64
        ensures { result ≡ self.now.limit }
    {
        self.limit
    }

    /// Counts turns from 0.
    pub(crate) fn restart(&mut self)
        ensures session { self.new.session ≡ self.old.session }
        ensures budget { budget_of self.new ≡ record { limit = self.old.limit; turns = 0 } }
    {
        self.turns = 0;
    }

    /// Returns the turns that the last call took. (own)
    pub fn turns(&self) -> u64
        ensures { result ≡ self.now.turns }
    {
        self.turns
    }
}

/// Prints `exec`.
impl fmt::Display for ExecutionCtx {
    fn fmt<W: fmt::Write>(&self, f: &mut fmt::Formatter<W>) -> fmt::Result {
        f.write_str("exec")
    }
}

/// Executes `array` until its root matches `M` or is canonical. Returns `array` unchanged, in one turn and without memory, if
/// its root already matches. Each call counts its turns from 0.
///
/// # Errors
///
/// `IterationLimit` if the limit of turns was reached and the root isn't executed; `Fault` only if a row of `array`, or of a
/// node in it, has no value; `OutOfMemory`.
#[tactic(auto, using(crate::proofs::MovesLemmas::loop_moves, crate::proofs::MovesLemmas::executed, crate::proofs::MovesLemmas::reached_root, crate::proofs::MovesLemmas::takes_a_turn, crate::proofs::MovesLemmas::returned_as_it_is))]
pub fn execute_until<M: Matcher>(array: ArrayRef, ctx: &mut ExecutionCtx) -> VortexResult<ArrayRef>
    requires { ⊤ }
    ensures ok { IfOk result
        (λ u. KeepsFirmly array u × ((M.fits u ≡ true) ⊎ (is_canonical (datum u) ≡ true))) }
    ensures executed { IfOk result (IsExecuted M.fits array ctx.new.turns) }
    ensures as_it_is { M.fits array ≡ true → IfOk result (λ u. u ≡ array) }
    ensures at_once { M.fits array ≡ true → 1 ≤ ctx.old.limit → IsOk result }
    ensures bound { OnOk result (ctx.new.turns ≤ cost array) }
    ensures within { OnOk result ((1 ≤ ctx.new.turns) × (ctx.new.turns ≤ ctx.old.limit)) }
    ensures limit { (l : ℕ) → result ≡ Err (VortexError.IterationLimit l)
        → (l ≡ ctx.old.limit) × (ctx.new.turns ≡ l) × (l < cost array) × GoesOn M.fits array l }
    ensures err { IfErr result
        (λ e. (e ≡ VortexError.IterationLimit ctx.old.limit) ⊎ IsStopped array e) }
    ensures fault { result ≡ Err VortexError.Fault → FaultsIn M.fits array ctx.new.turns }
    ensures told { ctx.new.turns ≤ ctx.old.limit }
    ensures kept { ctx.new.limit ≡ ctx.old.limit }
    ensures session { ctx.new.session ≡ ctx.old.session }
{
    let mut frames: Vec<Frame> = Vec::new(ctx.alloc);
    array.well_formed_tree();
    let mut current = Focus::Whole(array);
    ctx.turns = 0;
    while ctx.turns < ctx.limit {
        ctx.turns += 1;
        match take_turn::<M>(ctx.alloc, &mut frames, current) {
            Ok(Turn::Go(next)) => current = next,
            Ok(Turn::Return(done)) => return Ok(done),
            Err(e) => return Err(e),
        }
    }
    Err(VortexError::IterationLimit { limit: ctx.limit })
}
