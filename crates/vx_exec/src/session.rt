//! Sessions: what rewriting and execution look up beside the tables.

ghost use Rattle.std.specs.Prelude.{⊤, ◌≡◌, [], IfOk, map};
ghost use Rattle.vx_value.specs.Errors.{OnlyOutOfMemory};
ghost use Rattle.vx_rule.specs.Builtins.{builtin_rules};
ghost use Rattle.vx_opt.specs.Entries.{entries_of, unasked};
ghost use Rattle.vx_exec.specs.Budgets.{budget_of};
ghost use Rattle.vx_exec.specs.Limits.{default_turns};

use crate::context::ExecutionCtx;
use std::alloc::Global;
use std::mem;
use vx_opt::RuleRegistry;
use vx_rule::DynReduceParentRule;
use vx_value::VortexResult;

/// The rules and kernels of a session, by the ids of a parent and a child. There are no kernels yet.
#[derive(Drop)]
pub struct ArrayKernels {
    /// The rules of rewriting. (own)
    pub rules: RuleRegistry,
}

impl ArrayKernels {
    /// Returns kernels without entries.
    pub fn empty(alloc: Global) -> ArrayKernels
        ensures { entries_of ⟦<dyn DynReduceParentRule as DynReduceParentRule>⟧ result.rules ≡ [] }
    {
        ArrayKernels {
            rules: RuleRegistry::from_entries(Vec::new(alloc)),
        }
    }

    /// Returns the entries that are built in. Fails only with `OutOfMemory`. (own)
    pub fn with_builtins(alloc: Global) -> VortexResult<ArrayKernels>
        requires { ⊤ }
        ensures ok { IfOk result (λ k. k.rules.entries.items ≡ map unasked builtin_rules) }
        ensures err { OnlyOutOfMemory result }
    {
        Ok(ArrayKernels {
            rules: RuleRegistry::from_entries_and_builtins(Vec::new(alloc))?,
        })
    }
}

/// What rewriting and execution look up beside the tables of this workspace.
#[derive(Drop)]
pub struct VortexSession {
    /// The rules and kernels. (own)
    pub kernels: ArrayKernels,
}

impl VortexSession {
    /// Creates a session without entries.
    pub fn empty(alloc: Global) -> VortexSession
        ensures { entries_of ⟦<dyn DynReduceParentRule as DynReduceParentRule>⟧ result.kernels.rules ≡ [] }
    {
        VortexSession {
            kernels: ArrayKernels::empty(alloc),
        }
    }

    /// Creates a session of the entries that are built in. Fails only with `OutOfMemory`. (own)
    pub fn with_builtins(alloc: Global) -> VortexResult<VortexSession>
        requires { ⊤ }
        ensures ok { IfOk result (λ s. s.kernels.rules.entries.items ≡ map unasked builtin_rules) }
        ensures err { OnlyOutOfMemory result }
    {
        Ok(VortexSession {
            kernels: ArrayKernels::with_builtins(alloc)?,
        })
    }

    /// Takes the session out, and leaves one without entries. (own)
    pub fn take(&mut self, alloc: Global) -> VortexSession
        requires { ⊤ }
        ensures taken { result ≡ self.old }
        ensures left { entries_of ⟦<dyn DynReduceParentRule as DynReduceParentRule>⟧ self.new.kernels.rules ≡ [] }
    {
        let none = RuleRegistry::from_entries(Vec::new(alloc));
        let rules = mem::replace(&mut self.kernels.rules, none);
        VortexSession {
            kernels: ArrayKernels { rules },
        }
    }

    /// Creates a context that owns the session until `into_session` hands it back, with the limit `DEFAULT_TURNS`.
    pub fn create_execution_ctx(self, alloc: Global) -> ExecutionCtx
        requires { ⊤ }
        ensures session { result.session ≡ self }
        ensures budget { budget_of result ≡ record { limit = default_turns; turns = 0 } }
    {
        ExecutionCtx::new(alloc, self)
    }
}
