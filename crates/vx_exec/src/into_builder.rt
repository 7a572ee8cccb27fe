//! Trees executed and appended to builders.

ghost use Rattle.std.specs.Prelude.{⊤, ◌≡◌, None, Some, MatchResult};
ghost use Rattle.vx_tree.specs.Tree.{dtype, len};
ghost use Rattle.vx_column.specs.Built.{length_refusal};
ghost use Rattle.vx_column.specs.Grown.{count, column_refusal, type_refusal};
ghost use Rattle.vx_exec.specs.Budgets.{budget_of};
ghost use Rattle.vx_exec.specs.Executions.{IsAppending};

use crate::context::ExecutionCtx;
use crate::executable::Executable;
use crate::turn::append_rows;
use vx_column::Builder;
use vx_tree::{ArrayRef, Columnar};
use vx_value::{ArgKind, VortexError, VortexResult};

/// Executes `array` to a column, and appends its rows to `builder`. Counts its turns from 0.
///
/// # Errors
///
/// The first condition that fails gives the error, before anything is executed: `InvalidArgument` with `BadType` exactly if `array`
/// isn't of the builder's type, nullability included, then `TooLong` exactly if there would be more than `usize::MAX` rows.
/// Otherwise as `Executable::execute`, and `Fault` if a row of the column that is read has no value: of a nested type, one of its
/// validity alone.
pub fn execute_into_builder(
    array: ArrayRef,
    builder: Builder,
    ctx: &mut ExecutionCtx,
) -> VortexResult<Builder>
    requires { ⊤ }
    ensures appending { IsAppending array builder (budget_of ctx.old) (budget_of ctx.new) result }
    ensures session { ctx.new.session ≡ ctx.old.session }
{
    ctx.restart();
    match check_rows(&array, &builder) {
        Ok(()) => match Columnar::execute(array, ctx) {
            Ok(column) => append_rows(ctx.allocator(), builder, &column),
            Err(e) => Err(e),
        },
        Err(e) => Err(e),
    }
}

/// Checks that `builder` takes as many rows of the type of `array`.
#[tactic(auto, using(crate::proofs::AppendingLemmas::both_taken, crate::proofs::AppendingLemmas::type_refused, crate::proofs::AppendingLemmas::length_refused))]
fn check_rows(array: &ArrayRef, builder: &Builder) -> VortexResult<()>
    ensures { MatchResult result (λ _. column_refusal builder.now array.now ≡ None) (λ e. column_refusal builder.now array.now ≡ Some e) }
{
    match check_type(array, builder) {
        Ok(()) => check_len(array, builder),
        Err(e) => Err(e),
    }
}

/// Checks that `array` is of the type of `builder`.
fn check_type(array: &ArrayRef, builder: &Builder) -> VortexResult<()>
    ensures { MatchResult result (λ _. type_refusal builder.now (dtype array.now) ≡ None) (λ e. type_refusal builder.now (dtype array.now) ≡ Some e) }
{
    if *array.dtype() == *builder.dtype() {
        Ok(())
    } else {
        Err(VortexError::InvalidArgument(ArgKind::BadType))
    }
}

/// Checks that the rows of `array` don't overflow the number of rows of `builder`.
fn check_len(array: &ArrayRef, builder: &Builder) -> VortexResult<()>
    ensures { MatchResult result (λ _. length_refusal (count builder.now) (len array.now) ≡ None)
        (λ e. length_refusal (count builder.now) (len array.now) ≡ Some e) }
{
    if array.len() > usize::MAX - builder.len() {
        return Err(VortexError::TooLong {
            len: builder.len(),
            factor: array.len(),
        });
    }
    Ok(())
}
