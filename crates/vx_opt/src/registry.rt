//! Rules registered by a caller.

ghost use Rattle.std.specs.Prelude.{⊤, ◌≡◌, ◌<◌, ◌++◌, ◌∷◌, [], IfOk, IfErr, OnOk, OnErr, length, map, vec_len, slice_index_or};
ghost use Rattle.vx_value.specs.Errors.{OnlyOutOfMemory};
ghost use Rattle.vx_tree.specs.Tree.{datum, id_of};
ghost use Rattle.vx_tree.specs.Slots.{HasSlot};
ghost use Rattle.vx_rule.specs.Builtins.{builtin_rules};
ghost use Rattle.vx_rule.specs.Counts.{MayStand};
ghost use Rattle.vx_opt.specs.Entries.{Entry, unasked, entry_of, entries_of, registered, is_for, of_pair, IsAsked, Asks};
ghost use Rattle.vx_opt.specs.Asking.{IsAskedAt, told};

use std::alloc::Global;
use std::mem;
use vx_rule::{
    BuiltinRule, DynReduceParentRule, RawNode, RegisteredBuiltin, RuleEntry, builtin_rules,
};
use vx_tree::ArrayRef;
use vx_value::{Id, SessionKind, VortexError, VortexResult};

/// A rule with the ids of the parents and of the children for which it is asked. (own)
#[derive(Drop)]
pub struct RegisteredRule {
    parent: Id,
    child: Id,
    entry: RuleEntry,
}

/// Rules beside those of the table: a list for each pair of a parent's and a child's id, in the order of registration. (own)
#[derive(Drop)]
pub struct RuleRegistry {
    entries: Vec<RegisteredRule>,
}

impl RegisteredRule {
    /// Returns `entry` as the rule for children with the id `child` in parents with the id `parent`.
    pub fn new(parent: Id, child: Id, entry: RuleEntry) -> RegisteredRule
        requires { ⊤ }
        ensures { entry_of ⟦<dyn DynReduceParentRule as DynReduceParentRule>⟧ result ≡ registered ⟦<dyn DynReduceParentRule as DynReduceParentRule>⟧ parent child entry }
    {
        RegisteredRule {
            parent,
            child,
            entry,
        }
    }

    /// Returns `builtin` as a rule that wasn't asked yet.
    fn built_in(builtin: &RegisteredBuiltin) -> RegisteredRule
        requires { ⊤ }
        ensures { result ≡ unasked builtin.now }
    {
        RegisteredRule {
            parent: builtin.parent,
            child: builtin.child,
            entry: RuleEntry::Builtin(BuiltinRule::new(builtin.kind)),
        }
    }

    /// Returns whether the rule is asked for children with the id `child` in parents with the id `parent`.
    fn is_for(&self, parent: Id, child: Id) -> bool
        ensures { result ≡ is_for parent child (entry_of ⟦<dyn DynReduceParentRule as DynReduceParentRule>⟧ self.now) }
    {
        self.parent == parent && self.child == child
    }

    /// Asks the rule for the answer of `child`, which must be in `slot` of `parent`.
    fn ask(
        &mut self,
        alloc: Global,
        child: &ArrayRef,
        parent: &ArrayRef,
        slot: usize,
    ) -> VortexResult<Option<RawNode>>
        requires { HasSlot slot child.now parent.now }
        ensures stands { IfOk result (MayStand parent.now) }
        ensures asked { IsAsked (entry_of ⟦<dyn DynReduceParentRule as DynReduceParentRule>⟧ self.old) (entry_of ⟦<dyn DynReduceParentRule as DynReduceParentRule>⟧ self.new) result }
    {
        self.entry.ask(alloc, child, parent, slot)
    }
}

impl RuleRegistry {
    /// Returns a registry without rules.
    pub fn empty(alloc: Global) -> RuleRegistry
        ensures { entries_of ⟦<dyn DynReduceParentRule as DynReduceParentRule>⟧ result ≡ [] }
    {
        RuleRegistry {
            entries: Vec::new(alloc),
        }
    }

    /// Returns a registry of the rules that are built in. Fails only with `OutOfMemory`.
    pub fn with_builtins(alloc: Global) -> VortexResult<RuleRegistry>
        requires { ⊤ }
        ensures ok { IfOk result (λ r. r.entries.items ≡ map unasked builtin_rules) }
        ensures err { OnlyOutOfMemory result }
    {
        RuleRegistry::from_entries_and_builtins(Vec::new(alloc))
    }

    /// Returns a registry of `entries`, in this order, and of the rules that are built in behind them. Fails only with `OutOfMemory`. (own)
    pub fn from_entries_and_builtins(entries: Vec<RegisteredRule>) -> VortexResult<RuleRegistry>
        requires { ⊤ }
        ensures ok { IfOk result (λ r. r.entries.items ≡ entries.items ++ map unasked builtin_rules) }
        ensures err { OnlyOutOfMemory result }
    {
        let builtins = builtin_rules();
        let mut entries = entries;
        for builtin in builtins {
            entries.push(RegisteredRule::built_in(builtin))?;
        }
        Ok(RuleRegistry { entries })
    }

    /// Returns a registry of `entries`, in this order. (own)
    pub fn from_entries(entries: Vec<RegisteredRule>) -> RuleRegistry
        requires { ⊤ }
        ensures { result.entries ≡ entries }
    {
        RuleRegistry { entries }
    }

    /// Takes all rules out, and leaves an empty registry. (own)
    pub fn take(&mut self, alloc: Global) -> RuleRegistry
        requires { ⊤ }
        ensures taken { entries_of ⟦<dyn DynReduceParentRule as DynReduceParentRule>⟧ result ≡ entries_of ⟦<dyn DynReduceParentRule as DynReduceParentRule>⟧ self.old }
        ensures left { entries_of ⟦<dyn DynReduceParentRule as DynReduceParentRule>⟧ self.new ≡ [] }
    {
        RuleRegistry {
            entries: mem::replace(&mut self.entries, Vec::new(alloc)),
        }
    }

    /// Adds `entry` behind the rules for children with the id `child` in parents with the id `parent`. Fails only with `OutOfMemory`, and
    /// then leaves the registry as it was.
    pub fn register(&mut self, parent: Id, child: Id, entry: RuleEntry) -> VortexResult<()>
        requires { ⊤ }
        ensures ok { OnOk result (entries_of ⟦<dyn DynReduceParentRule as DynReduceParentRule>⟧ self.new
            ≡ entries_of ⟦<dyn DynReduceParentRule as DynReduceParentRule>⟧ self.old ++ registered ⟦<dyn DynReduceParentRule as DynReduceParentRule>⟧ parent child entry ∷ []) }
        ensures unchanged { OnErr result (entries_of ⟦<dyn DynReduceParentRule as DynReduceParentRule>⟧ self.new ≡ entries_of ⟦<dyn DynReduceParentRule as DynReduceParentRule>⟧ self.old) }
        ensures err { OnlyOutOfMemory result }
    {
        self.entries.push(RegisteredRule {
            parent,
            child,
            entry,
        })?;
        Ok(())
    }

    /// Returns the number of rules for children with the id `child` in parents with the id `parent`.
    pub fn find(&self, parent: Id, child: Id) -> usize
        ensures { result ≡ length (of_pair parent child (entries_of ⟦<dyn DynReduceParentRule as DynReduceParentRule>⟧ self.now)) }
    {
        let mut count = 0;
        for entry in &self.entries {
            if entry.is_for(parent, child) {
                count += 1;
            }
        }
        count
    }

    /// Returns whether the rule at `index` is asked for this pair of ids.
    fn is_for_at(&self, index: usize, parent: Id, child: Id) -> bool
        requires { index < vec_len self.now.entries }
        ensures { (d : Entry) → result ≡ is_for parent child (slice_index_or (entries_of ⟦<dyn DynReduceParentRule as DynReduceParentRule>⟧ self.now) index d) }
    {
        self.entries[index].is_for(parent, child)
    }

    /// Asks the rule at `index` for the answer of `child`, which must be in `slot` of `parent`.
    fn ask_at(
        &mut self,
        index: usize,
        alloc: Global,
        child: &ArrayRef,
        parent: &ArrayRef,
        slot: usize,
    ) -> VortexResult<Option<RawNode>>
        requires in_range { index < vec_len self.old.entries }
        requires slot { HasSlot slot child.now parent.now }
        ensures stands { IfOk result (MayStand parent.now) }
        ensures asked { IsAskedAt index (entries_of ⟦<dyn DynReduceParentRule as DynReduceParentRule>⟧ self.old) (entries_of ⟦<dyn DynReduceParentRule as DynReduceParentRule>⟧ self.new) result }
        ensures len { vec_len self.new.entries ≡ vec_len self.old.entries }
    {
        self.entries[index].ask(alloc, child, parent, slot)
    }

    /// Asks the rules for the ids of `parent` and `child`, in the order of registration, for the answer of `child`, which must be in `slot`
    /// of `parent`: until one answers or fails. `None` if all decline. The fields of `Refused` are those ids, and the place of the rule
    /// among them, counted from 0.
    pub(crate) fn ask(
        &mut self,
        alloc: Global,
        child: &ArrayRef,
        parent: &ArrayRef,
        slot: usize,
    ) -> VortexResult<Option<RawNode>>
        requires { HasSlot slot child.now parent.now }
        ensures stands { IfOk result (MayStand parent.now) }
        ensures asked { Asks (id_of (datum parent.now)) (id_of (datum child.now)) 0 (entries_of ⟦<dyn DynReduceParentRule as DynReduceParentRule>⟧ self.old) (entries_of ⟦<dyn DynReduceParentRule as DynReduceParentRule>⟧ self.new) result }
    {
        let (parent_id, child_id) = (parent.encoding_id(), child.encoding_id());
        let mut place = 0;
        for index in 0..self.entries.len() {
            if self.is_for_at(index, parent_id, child_id) {
                match self.ask_at(index, alloc, child, parent, slot) {
                    Ok(None) => place += 1,
                    Ok(Some(raw)) => return Ok(Some(raw)),
                    Err(error) => return Err(told(error, parent_id, child_id, place)),
                }
            }
        }
        Ok(None)
    }
}

/// Returns `error` with its fields filled in, if it is a refusal: by the rule at `place` in the list of `parent` and `child`.
fn told(error: VortexError, parent: Id, child: Id, place: usize) -> VortexError
    ensures { result ≡ told error parent child place }
{
    match error {
        VortexError::Refused { .. } => VortexError::Refused {
            kind: SessionKind::Rule,
            parent,
            child,
            place,
        },
        other => other,
    }
}
