//! The public calls.

ghost use Rattle.std.specs.Prelude.{⊤, ◌≤◌, IfOk, IfErr};
ghost use Rattle.vx_value.specs.Errors.{OnlyOutOfMemory};
ghost use Rattle.vx_tree.specs.Tree.{Tree};
ghost use Rattle.vx_tree.specs.Weight.{weight};
ghost use Rattle.vx_opt.specs.Entries.{entries_of, AreLater, SpentNothing, IsFailure};
ghost use Rattle.vx_opt.specs.Answers.{IsOptimized, IsDescended, IsSoFar, IsLimited, Spending, IsStopped, IsStoppedBelow, IsNoLimit};

use crate::descend::descend;
use crate::registry::RuleRegistry;
use crate::root::optimize_root;
use std::alloc::Global;
use vx_rule::DynReduceParentRule;
use vx_tree::ArrayRef;
use vx_value::VortexResult;

/// Rewrites trees by the table of rewrite rules, and by the rules of a registry. Each result may stand for the tree. Unless rules of the
/// registry answered, it weighs less by at least one for each rewrite.
///
/// # Errors
///
/// `RewriteLimit` at the 101st rewrite at one root or the 4,194,304th of the call, even if no row fits after it. It never comes for a tree
/// of weight 100 or less unless rules of the registry answer. `Refused` if a rule of the registry refused; `OutOfMemory`.
pub trait ArrayOptimizer: Sized {
    // the tree that is optimized
    ghost tree: { Self → Tree };

    /// Rewrites the root until no row fits. The slots that an answer names are optimized in the same way before the next pass.
    fn optimize(self, alloc: Global) -> VortexResult<ArrayRef>
        ensures optimized { IfOk result (λ u. IsOptimized (tree self) u 0) }
        ensures limited { IfErr result (IsLimited (tree self) 0) }
        ensures never_if_light { weight (tree self) ≤ 100 → OnlyOutOfMemory result };

    /// Rewrites the root in the same way, also by the rules in `rules`. For the child in a slot, they are asked before its own rows.
    fn optimize_ctx(self, alloc: Global, rules: &mut RuleRegistry) -> VortexResult<ArrayRef>
        requires { ⊤ }
        ensures optimized { IfOk result (λ u. Spending (IsOptimized (tree self) u) (entries_of ⟦<dyn DynReduceParentRule as DynReduceParentRule>⟧ rules.old) (entries_of ⟦<dyn DynReduceParentRule as DynReduceParentRule>⟧ rules.new)) }
        ensures stopped { IfErr result (IsStopped (tree self) (entries_of ⟦<dyn DynReduceParentRule as DynReduceParentRule>⟧ rules.old) (entries_of ⟦<dyn DynReduceParentRule as DynReduceParentRule>⟧ rules.new)) }
        ensures entries { AreLater (entries_of ⟦<dyn DynReduceParentRule as DynReduceParentRule>⟧ rules.old) (entries_of ⟦<dyn DynReduceParentRule as DynReduceParentRule>⟧ rules.new) }
        ensures never_if_light { weight (tree self) ≤ 100 → SpentNothing (entries_of ⟦<dyn DynReduceParentRule as DynReduceParentRule>⟧ rules.old) (entries_of ⟦<dyn DynReduceParentRule as DynReduceParentRule>⟧ rules.new) → IfErr result IsNoLimit };

    /// Rewrites the root in the same way, but gives the tree as it stands if a limit is reached: `RewriteLimit` never comes. (own)
    fn optimize_so_far(self, alloc: Global, rules: &mut RuleRegistry) -> VortexResult<ArrayRef>
        requires { ⊤ }
        ensures so_far { IfOk result (λ u. Spending (IsSoFar (tree self) u) (entries_of ⟦<dyn DynReduceParentRule as DynReduceParentRule>⟧ rules.old) (entries_of ⟦<dyn DynReduceParentRule as DynReduceParentRule>⟧ rules.new)) }
        ensures failed { IfErr result (IsFailure (entries_of ⟦<dyn DynReduceParentRule as DynReduceParentRule>⟧ rules.old) (entries_of ⟦<dyn DynReduceParentRule as DynReduceParentRule>⟧ rules.new)) }
        ensures entries { AreLater (entries_of ⟦<dyn DynReduceParentRule as DynReduceParentRule>⟧ rules.old) (entries_of ⟦<dyn DynReduceParentRule as DynReduceParentRule>⟧ rules.new) };

    /// Rewrites the root in the same way, then every slot in order. The root isn't visited again.
    fn optimize_recursive(self, alloc: Global, rules: &mut RuleRegistry) -> VortexResult<ArrayRef>
        requires { ⊤ }
        ensures descended { IfOk result (λ u. Spending (IsDescended (tree self) u) (entries_of ⟦<dyn DynReduceParentRule as DynReduceParentRule>⟧ rules.old) (entries_of ⟦<dyn DynReduceParentRule as DynReduceParentRule>⟧ rules.new)) }
        ensures stopped { IfErr result (IsStoppedBelow (tree self) (entries_of ⟦<dyn DynReduceParentRule as DynReduceParentRule>⟧ rules.old) (entries_of ⟦<dyn DynReduceParentRule as DynReduceParentRule>⟧ rules.new)) }
        ensures entries { AreLater (entries_of ⟦<dyn DynReduceParentRule as DynReduceParentRule>⟧ rules.old) (entries_of ⟦<dyn DynReduceParentRule as DynReduceParentRule>⟧ rules.new) }
        ensures never_if_light { weight (tree self) ≤ 100 → SpentNothing (entries_of ⟦<dyn DynReduceParentRule as DynReduceParentRule>⟧ rules.old) (entries_of ⟦<dyn DynReduceParentRule as DynReduceParentRule>⟧ rules.new) → IfErr result IsNoLimit };
}

impl ArrayOptimizer for ArrayRef {
    ghost tree = { λ a. a };

    #[tactic(auto, using(crate::proofs::AnswersLemmas::alone))]
    fn optimize(self, alloc: Global) -> VortexResult<ArrayRef> {
        self.optimize_ctx(alloc, &mut RuleRegistry::empty(alloc))
    }

    #[tactic(auto, using(crate::proofs::AnswersLemmas::optimized))]
    fn optimize_ctx(self, alloc: Global, rules: &mut RuleRegistry) -> VortexResult<ArrayRef> {
        let mut total = 0;
        optimize_root(alloc, self, rules, &mut total)?.into_result()
    }

    #[tactic(auto, using(crate::proofs::AnswersLemmas::so_far))]
    fn optimize_so_far(self, alloc: Global, rules: &mut RuleRegistry) -> VortexResult<ArrayRef> {
        let mut total = 0;
        Ok(optimize_root(alloc, self, rules, &mut total)?.into_tree())
    }

    #[tactic(auto, using(crate::proofs::AnswersLemmas::descended))]
    fn optimize_recursive(self, alloc: Global, rules: &mut RuleRegistry) -> VortexResult<ArrayRef> {
        let mut total = 0;
        descend(alloc, self, 0, rules, &mut total)
    }
}
