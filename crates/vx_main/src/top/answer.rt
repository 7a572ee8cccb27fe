//! The output for an input.

ghost use Rattle.std.specs.Prelude.{◌≡◌, IfOk, IfErr, Some, true, false, string_bytes};
ghost use Rattle.vx_opt.specs.Entries.{entries_of, AreLater};
ghost use Rattle.vx_main.specs.Commands.{reads_tree, asks_rules};
ghost use Rattle.vx_main.specs.Runs.{Answers, HasNoAnswer, IsSource, IsUnprepared, rules_of};

use crate::top::status::Status;
use crate::top::words::Command;
use std::alloc::Global;
use vx_exec::{ArrayExecute, ExecutionCtx, VortexSession};
use vx_json::{column_text, tree_of_bytes};
use vx_opt::ArrayOptimizer;
use vx_rule::DynReduceParentRule;
use vx_tree::{ArrayRef, Columnar};
use vx_value::VortexResult;

/// Executes the tree in `bytes` to a column by `command`, which must read a tree, with the rules of `session`. Returns the column's
/// text. The session is put back in any case.
pub(crate) fn answer(
    alloc: Global,
    bytes: &[u8],
    command: Command,
    session: &mut VortexSession,
) -> Result<String, Status>
    requires { reads_tree (Some command) ≡ true }
    ensures ok { IfOk result (λ text.
        Answers command (rules_of ⟦<dyn DynReduceParentRule as DynReduceParentRule>⟧ session.old session.new) bytes.now (string_bytes text)) }
    ensures causes { IfErr result (HasNoAnswer command (rules_of ⟦<dyn DynReduceParentRule as DynReduceParentRule>⟧ session.old session.new) bytes.now) }
    ensures later { AreLater
        (entries_of ⟦<dyn DynReduceParentRule as DynReduceParentRule>⟧ session.old.kernels.rules)
        (entries_of ⟦<dyn DynReduceParentRule as DynReduceParentRule>⟧ session.new.kernels.rules) }
    ensures unasked { asks_rules (Some command) ≡ false → session.new ≡ session.old }
{
    let array = tree_of_bytes(alloc, bytes)?;
    array.well_formed_tree();
    let source = prepare(alloc, array, command, session)?;
    let mut ctx = ExecutionCtx::new(alloc, session.take(alloc)).with_limit(command.limit());
    let column: VortexResult<Columnar> = source.execute(&mut ctx);
    *session = ctx.into_session();
    Ok(column_text(alloc, &column?)?)
}

/// Returns the tree that `command`, which must read a tree, executes in place of `array`: the rules of `session` are asked if it rewrites.
fn prepare(
    alloc: Global,
    array: ArrayRef,
    command: Command,
    session: &mut VortexSession,
) -> VortexResult<ArrayRef>
    requires { reads_tree (Some command) ≡ true }
    ensures ok { IfOk result (IsSource command (rules_of ⟦<dyn DynReduceParentRule as DynReduceParentRule>⟧ session.old session.new) array) }
    ensures err { IfErr result (IsUnprepared command (rules_of ⟦<dyn DynReduceParentRule as DynReduceParentRule>⟧ session.old session.new) array) }
    ensures later { AreLater
        (entries_of ⟦<dyn DynReduceParentRule as DynReduceParentRule>⟧ session.old.kernels.rules)
        (entries_of ⟦<dyn DynReduceParentRule as DynReduceParentRule>⟧ session.new.kernels.rules) }
    ensures unasked { asks_rules (Some command) ≡ false → session.new ≡ session.old }
{
    match command {
        Command::Optimize { .. } => { array.optimize_recursive(alloc, &mut session.kernels.rules) }
        _ => Ok(array),
    }
}
