//! Answers of rules.

ghost use Rattle.std.specs.Prelude.{◌≡◌, [], IfOk};
ghost use Rattle.vx_value.specs.Errors.{OnlyOutOfMemory};
ghost use Rattle.vx_tree.specs.Tree.{slots_of};
ghost use Rattle.vx_tree.specs.Slots.{present_from};
ghost use Rattle.vx_rule.specs.Answers.{IsRaw, IsRawFirst};

use std::alloc::Global;
use vx_tree::ArrayRef;
use vx_value::VortexResult;

/// The answer of a rule: a tree that replaces a node, and which of its slots are to be optimized next. (own)
#[derive(Drop)]
pub struct RawNode {
    pub tree: ArrayRef,
    /// Slots of `tree`, counted from 0, that hold trees.
    pub optimize: Vec<usize>,
}

impl RawNode {
    /// Returns `tree` as an answer none of whose slots is to be optimized.
    pub fn done(alloc: Global, tree: ArrayRef) -> RawNode
        ensures tree { result.tree ≡ tree }
        ensures optimize { result.optimize.items ≡ [] }
    {
        RawNode {
            tree,
            optimize: Vec::new(alloc),
        }
    }

    /// Returns `tree` as an answer whose first slot, which must hold a tree, is to be optimized. Fails only with `OutOfMemory`.
    pub fn raw_first(alloc: Global, tree: ArrayRef) -> VortexResult<Option<RawNode>>
        ensures { IsRawFirst tree result }
    {
        let optimize = vec![in alloc; 0]?;
        Ok(Some(RawNode { tree, optimize }))
    }

    /// Returns `tree` as an answer all of whose slots are to be optimized. Fails only with `OutOfMemory`.
    pub fn raw(alloc: Global, tree: ArrayRef) -> VortexResult<Option<RawNode>>
        ensures { IsRaw tree result }
    {
        let optimize = present_slots(alloc, tree.slots())?;
        Ok(Some(RawNode { tree, optimize }))
    }
}

/// Returns the indices of the slots that hold trees. Fails only with `OutOfMemory`.
fn present_slots(alloc: Global, slots: &[Option<ArrayRef>]) -> VortexResult<Vec<usize>>
    ensures ok { IfOk result (λ v. v.items ≡ present_from 0 (slots_of slots.now)) }
    ensures err { OnlyOutOfMemory result }
{
    let mut present = Vec::new(alloc);
    for index in 0..slots.len() {
        if slots[index].is_some() {
            present.push(index)?;
        }
    }
    Ok(present)
}
