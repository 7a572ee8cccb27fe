//! How far an optimization came.

ghost use Rattle.std.specs.Prelude.{MatchResult, IfOk};
ghost use Rattle.vx_value.specs.Errors.{OnlyOutOfMemory};
ghost use Rattle.vx_tree.specs.Slots.{IsHole};
ghost use Rattle.vx_opt.specs.Progress.{IsTree, IsEnd, IsLimitOf, FitsIn, IsWithin};

use vx_tree::{ArrayRef, Suspended};
use vx_value::{VortexError, VortexResult};

/// How far an optimization came.
#[derive(Debug, Drop)]
pub(crate) enum Progress {
    /// No row fits the root of the tree.
    Settled(ArrayRef),
    /// A limit is reached: the tree as it stands after the last rewrite, the `at_root`th at its root and the `total`th of the call.
    Stopped {
        tree: ArrayRef,
        at_root: u32,
        total: u32,
    },
}

impl Progress {
    /// Returns the tree as it stands.
    pub(crate) fn into_tree(self) -> ArrayRef
        ensures { IsTree self result }
    {
        match self {
            Progress::Settled(tree) => tree,
            Progress::Stopped { tree, .. } => tree,
        }
    }

    /// Returns the tree, or `RewriteLimit` if a limit is reached.
    pub(crate) fn into_result(self) -> VortexResult<ArrayRef>
        ensures { MatchResult result (IsEnd self) (IsLimitOf self) }
    {
        match self {
            Progress::Settled(tree) => Ok(tree),
            Progress::Stopped { at_root, total, .. } => {
                Err(VortexError::RewriteLimit { at_root, total })
            }
        }
    }

    /// Returns the same of `parent`, whose empty `slot`, counted from 0, the tree fits. Fails only with `OutOfMemory`.
    pub(crate) fn within(self, parent: Suspended, slot: usize) -> VortexResult<Progress>
        requires hole { IsHole slot parent }
        requires fits { FitsIn slot parent self }
        ensures ok { IfOk result (IsWithin slot parent self) }
        ensures err { OnlyOutOfMemory result }
    {
        match self {
            Progress::Settled(child) => Ok(Progress::Settled(parent.put(slot, child)?)),
            Progress::Stopped {
                tree,
                at_root,
                total,
            } => Ok(Progress::Stopped {
                tree: parent.put(slot, tree)?,
                at_root,
                total,
            }),
        }
    }
}
