//! What trees can be executed to.

ghost use Rattle.vx_tree.specs.Tree.{Tree, datum, is_canonical, is_columnar};
ghost use Rattle.vx_tree.specs.Canonicals.{canonical_tree, columnar_tree};
ghost use Rattle.vx_exec.specs.Budgets.{budget_of};
ghost use Rattle.vx_exec.specs.Executions.{IsExecution};
ghost use Rattle.std.specs.Prelude.{⊤, ◌≡◌, Bool};

use crate::context::{ExecutionCtx, execute_until};
use vx_tree::{AnyCanonical, AnyColumnar, ArrayRef, Canonical, Columnar, Matcher};
use vx_value::VortexResult;

/// Targets of an execution.
pub trait Executable: Sized {
    // the roots at which the execution ends, beside canonical ones, and the tree of a result
    ghost fits: { Tree → Bool };

    ghost tree_in: { Self → Tree };

    /// Executes `array` to this target. Returns a tree that is one already unchanged, in one turn and without memory. Each call
    /// counts its turns from 0.
    ///
    /// # Errors
    ///
    /// `IterationLimit` if the limit of turns was reached and the root isn't executed; `Fault` only if a row of `array`, or of a
    /// node in it, has no value; `OutOfMemory`.
    fn execute(array: ArrayRef, ctx: &mut ExecutionCtx) -> VortexResult<Self>
        requires { ⊤ }
        ensures execution { IsExecution fits tree_in array (budget_of ctx.old) (budget_of ctx.new) result }
        ensures session { ctx.new.session ≡ ctx.old.session };
}

/// A column: canonical, or a constant.
impl Executable for Columnar {
    ghost fits = { λ t. is_columnar (datum t) };

    ghost tree_in = { columnar_tree };

    fn execute(array: ArrayRef, ctx: &mut ExecutionCtx) -> VortexResult<Columnar> {
        match execute_until::<AnyColumnar>(array, ctx) {
            Ok(done) => match Columnar::try_from_array_ref(done) {
                Ok(column) => Ok(column),
                Err(_) => unreachable!(),
            },
            Err(e) => Err(e),
        }
    }
}

/// A canonical column.
impl Executable for Canonical {
    ghost fits = { λ t. is_canonical (datum t) };

    ghost tree_in = { canonical_tree };

    fn execute(array: ArrayRef, ctx: &mut ExecutionCtx) -> VortexResult<Canonical> {
        match execute_until::<AnyCanonical>(array, ctx) {
            Ok(done) => match Canonical::try_from_array_ref(done) {
                Ok(column) => Ok(column),
                Err(_) => unreachable!(),
            },
            Err(e) => Err(e),
        }
    }
}

/// Executes trees. (own)
pub trait ArrayExecute: Sized {
    // the tree that is executed
    ghost tree: { Self → Tree };

    /// Executes the tree to `E`, as `Executable::execute` says.
    fn execute<E: Executable>(self, ctx: &mut ExecutionCtx) -> VortexResult<E>
        requires { ⊤ }
        ensures execution { IsExecution E.fits E.tree_in (tree self) (budget_of ctx.old) (budget_of ctx.new) result }
        ensures session { ctx.new.session ≡ ctx.old.session };

    /// Executes the tree to `E` under a name, which nothing reads.
    fn execute_as<E: Executable>(self, name: &str, ctx: &mut ExecutionCtx) -> VortexResult<E>
        requires { ⊤ }
        ensures execution { IsExecution E.fits E.tree_in (tree self) (budget_of ctx.old) (budget_of ctx.new) result }
        ensures session { ctx.new.session ≡ ctx.old.session };

    /// Executes the tree until its root matches `M` or is canonical.
    fn execute_until<M: Matcher>(self, ctx: &mut ExecutionCtx) -> VortexResult<ArrayRef>
        requires { ⊤ }
        ensures execution { IsExecution M.fits (λ t. t) (tree self) (budget_of ctx.old) (budget_of ctx.new) result }
        ensures session { ctx.new.session ≡ ctx.old.session };
}

impl ArrayExecute for ArrayRef {
    ghost tree = { λ t. t };

    fn execute<E: Executable>(self, ctx: &mut ExecutionCtx) -> VortexResult<E> {
        E::execute(self, ctx)
    }

    fn execute_as<E: Executable>(self, _name: &str, ctx: &mut ExecutionCtx) -> VortexResult<E> {
        E::execute(self, ctx)
    }

    fn execute_until<M: Matcher>(self, ctx: &mut ExecutionCtx) -> VortexResult<ArrayRef> {
        execute_until::<M>(self, ctx)
    }
}
