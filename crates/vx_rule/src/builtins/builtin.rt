//! The rules that are built in, and which of them answers.

ghost use Rattle.std.specs.Prelude.{◌≡◌, ◌≤◌, IfOk};
ghost use Rattle.vx_value.specs.Errors.{OnlyOutOfMemory};
ghost use Rattle.vx_tree.specs.Slots.{HasSlot};
ghost use Rattle.vx_rule.specs.Counts.{MayStand, spent_after};
ghost use Rattle.vx_rule.specs.Builtins.{builtin_rules, IsBuiltinAnswer, BuiltinAnswers};

use crate::builtins::{dict_fn, struct_cast};
use crate::raw_node::RawNode;
use crate::spent::Spent;
use std::alloc::Global;
use vx_tree::ArrayRef;
use vx_value::{Id, VortexResult};

/// The rules that are built in. (own)
#[derive(Clone, Copy, Debug)]
pub enum BuiltinKind {
    /// A cast of a column of structs to a struct type is the column of the casts of its fields, if no struct is null by a validity.
    StructCast,
    /// A negation, a comparison or `between` of a dictionary and constants is the dictionary of the function of its values.
    DictFn,
}

/// A rule that is built in, with the ids of the parents and of the children for which a session has it. (own)
#[derive(Clone, Copy, Debug)]
pub struct RegisteredBuiltin {
    pub parent: Id,
    pub child: Id,
    pub kind: BuiltinKind,
}

/// The rules of a session with built-ins.
const BUILTIN_RULES: &[RegisteredBuiltin] = &[
    RegisteredBuiltin {
        parent: Id::Cast,
        child: Id::Struct,
        kind: BuiltinKind::StructCast,
    },
    RegisteredBuiltin {
        parent: Id::Not,
        child: Id::Dict,
        kind: BuiltinKind::DictFn,
    },
    RegisteredBuiltin {
        parent: Id::Binary,
        child: Id::Dict,
        kind: BuiltinKind::DictFn,
    },
    RegisteredBuiltin {
        parent: Id::Between,
        child: Id::Dict,
        kind: BuiltinKind::DictFn,
    },
];

/// Returns the rules of a session with built-ins, in the order of registration. (own)
pub fn builtin_rules() -> &'static [RegisteredBuiltin]
    ensures { result.now ≡ builtin_rules }
{
    BUILTIN_RULES
}

/// A rule that is built in, and what its answers cost so far. Never refuses. (own)
#[derive(Debug, Drop)]
pub struct BuiltinRule {
    kind: BuiltinKind,
    spent: Spent,
}

impl BuiltinRule {
    /// Returns the rule `kind`, which has answered nothing yet. (own)
    pub fn new(kind: BuiltinKind) -> BuiltinRule
        ensures kind { result.kind ≡ kind }
        ensures spent { result.spent.total ≡ 0 }
    {
        BuiltinRule {
            kind,
            spent: Spent::new(),
        }
    }

    /// Returns the answer of `child`, which must be in `slot` of `parent`: `None` exactly if the rule declines. Fails only with
    /// `OutOfMemory`.
    pub fn ask(
        &mut self,
        alloc: Global,
        child: &ArrayRef,
        parent: &ArrayRef,
        slot: usize,
    ) -> VortexResult<Option<RawNode>>
        requires { HasSlot slot child.now parent.now }
        ensures answer { IfOk result (IsBuiltinAnswer self.old.kind slot parent.now) }
        ensures stands { IfOk result (MayStand parent.now) }
        ensures err { OnlyOutOfMemory result }
        ensures kind { self.new.kind ≡ self.old.kind }
        ensures spent_kept { self.old.spent.total ≤ self.new.spent.total }
        ensures spent { self.new.spent.total ≡ spent_after self.old.spent.total result }
    {
        let answer = self.kind.answer(alloc, child, parent, slot)?;
        if let Some(raw) = &answer {
            self.spent.answered(&raw.tree);
        }
        Ok(answer)
    }

    /// Returns what the answers cost so far: 1 plus its tree's weight for each. Stays at `u64::MAX`.
    pub fn spent(&self) -> u64
        ensures { result ≡ self.now.spent.total }
    {
        self.spent.count()
    }
}

impl BuiltinKind {
    /// Returns the answer of `child`, which must be in `slot` of `parent`: a line for each rule.
    fn answer(
        self,
        alloc: Global,
        child: &ArrayRef,
        parent: &ArrayRef,
        slot: usize,
    ) -> VortexResult<Option<RawNode>>
        requires { HasSlot slot child.now parent.now }
        ensures { BuiltinAnswers self slot parent.now result }
    {
        match self {
            BuiltinKind::StructCast => struct_cast::answer(alloc, child, parent, slot),
            BuiltinKind::DictFn => dict_fn::answer(alloc, child, parent, slot),
        }
    }
}
