//! Rules that are handed in: which of them is asked, and what comes of a refusal.

use crate::rewriting::structs;
use std::alloc::Global;
use std::test::Fail;
use vx_fn::ScalarFnRef;
use vx_opt::{ArrayOptimizer, RuleRegistry};
use vx_rule::{BuiltinKind, BuiltinRule, DynReduceParentRule, RawNode, RuleEntry, Spent};
use vx_tree::{ArrayRef, IntoArray, ScalarFnArray};
use vx_value::{Id, SessionKind, VortexError, VortexResult};

/// What a rule does each time.
#[derive(Clone, Copy)]
enum Reply {
    Decline,
    Refuse,
    /// Answers the parent itself.
    Same,
}

/// A rule that always does the same.
#[derive(Drop)]
struct Fixed {
    reply: Reply,
    refusals: u64,
    spent: Spent,
}

impl DynReduceParentRule for Fixed {
    ghost refusals = { λ r. r.refusals };

    ghost spent_so_far = { λ r. r.spent.total };

    fn reduce_parent(
        &mut self,
        alloc: Global,
        _child: &ArrayRef,
        parent: &ArrayRef,
        _slot: usize,
    ) -> VortexResult<Option<RawNode>> {
        match self.reply {
            Reply::Decline => Ok(None),
            Reply::Refuse => {
                self.refusals = self.refusals.saturating_add(1);
                Err(VortexError::Refused {
                    kind: SessionKind::Kernel,
                    parent: Id::Null,
                    child: Id::Null,
                    place: 7,
                })
            }
            Reply::Same => {
                let same = parent.clone()?;
                self.spent.answered(&same);
                Ok(Some(RawNode::done(alloc, same)))
            }
        }
    }

    fn spent(&self) -> u64 {
        self.spent.count()
    }
}

/// Returns a rule that does this.
fn that_does(reply: Reply) -> Fixed {
    Fixed {
        reply,
        refusals: 0,
        spent: Spent::new(),
    }
}

/// Optimizes a cast of a column of structs by these rules.
fn optimized(alloc: Global, rules: &mut RuleRegistry) -> VortexResult<ArrayRef> {
    let structs = structs(alloc, 2)?;
    let target = structs.dtype().as_nullable(alloc)?;
    let args = vec![in alloc; structs]?;
    let cast = ScalarFnArray::try_new(alloc, ScalarFnRef::Cast(target), args)?;
    cast.into_array().optimize_ctx(alloc, rules)
}

/// Checks that these rules give `error`, and that `count` of them are still registered after it.
fn fails(alloc: Global, rules: &mut RuleRegistry, error: &VortexError, count: usize) -> bool {
    let failed = matches!(optimized(alloc, rules), Err(e) if e == *error);
    failed && rules.find(Id::Cast, Id::Struct) == count
}

#[test]
fn the_first_rule_that_answers_is_taken(rt: HostRuntime) -> Result<(), Fail> {
    let alloc = rt.alloc();
    let mut rules = RuleRegistry::empty(alloc);
    let declines = RuleEntry::Boxed(Box::new(alloc, that_does(Reply::Decline))?);
    rules.register(Id::Cast, Id::Struct, declines)?;
    let answers = RuleEntry::Builtin(BuiltinRule::new(BuiltinKind::StructCast));
    rules.register(Id::Cast, Id::Struct, answers)?;
    assert!(rt; rules.find(Id::Cast, Id::Struct) == 2);
    assert!(rt; optimized(alloc, &mut rules)?.encoding_id() == Id::Struct);
    Ok(())
}

#[test]
fn a_refusal_names_its_place(rt: HostRuntime) -> Result<(), Fail> {
    let alloc = rt.alloc();
    let mut rules = RuleRegistry::empty(alloc);
    for reply in [Reply::Decline, Reply::Refuse] {
        let entry = RuleEntry::Boxed(Box::new(alloc, that_does(reply))?);
        rules.register(Id::Cast, Id::Struct, entry)?;
    }
    let refusal = VortexError::Refused {
        kind: SessionKind::Rule,
        parent: Id::Cast,
        child: Id::Struct,
        place: 1,
    };
    assert!(rt; fails(alloc, &mut rules, &refusal, 2));
    Ok(())
}

#[test]
fn a_rule_that_answers_the_parent_comes_to_the_limit(rt: HostRuntime) -> Result<(), Fail> {
    let alloc = rt.alloc();
    let mut rules = RuleRegistry::empty(alloc);
    let entry = RuleEntry::Boxed(Box::new(alloc, that_does(Reply::Same))?);
    rules.register(Id::Cast, Id::Struct, entry)?;
    let limit = VortexError::RewriteLimit {
        at_root: 101,
        total: 101,
    };
    assert!(rt; fails(alloc, &mut rules, &limit, 1));
    Ok(())
}
