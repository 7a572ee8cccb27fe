//! Errors, as in the original's `vortex-error`.

ghost use Rattle.vx_value.specs.declared.error.VortexError.TheVariants.{OutOfMemory};
ghost use Rattle.std.specs.Prelude.{◌≡◌};

use crate::id::Id;
use std::alloc::{AllocError, AllocFailed};
use thiserror::Error;

/// What is wrong with an invalid argument. A node's slots are numbered from 0.
#[derive(Clone, Copy, Debug, PartialEq, Eq, Error)]
pub enum ArgKind {
    /// The node doesn't have as many slots as its encoding requires.
    #[error("slot count")]
    SlotCount,
    /// Slot `slot` is empty, and the encoding requires a tree there.
    #[error("slot {slot} must be present")]
    SlotMissing { slot: usize },
    /// The tree in a slot has a type that the encoding doesn't accept there.
    #[error("slot type")]
    SlotType { slot: usize },
    /// The tree in a slot differs in length, in rows, from what the encoding requires there.
    #[error("slot len")]
    SlotLen { slot: usize },
    /// The function takes `want` arguments, and there are `got`.
    #[error("ScalarFnArray requires {want} children, got {got}")]
    Arity { want: usize, got: usize },
    /// An argument of a function differs in length, in rows, from the function's node.
    #[error("ScalarFnArray must have children equal to the array length")]
    ChildLen,
    /// An argument slot of a function's node is empty.
    #[error("ScalarFnArray requires every child slot to be present")]
    FnSlotMissing,
    /// A function's node has no arguments to take its length from.
    #[error("ScalarFnArray length cannot be inferred without children")]
    NoChildren,
    /// The mask of a filter has `mask` rows, and its child has `child`.
    #[error("FilterArray array and mask lengths must match")]
    MaskLen { child: usize, mask: usize },
    /// The function doesn't accept arguments of these types.
    #[error("no row")]
    NoRow,
    /// The node's type differs from the one that its parts determine.
    #[error("node type")]
    NodeType,
    /// The node's length, in rows, differs from the one that its parts determine.
    #[error("node len")]
    NodeLen,
    /// Columns of this type can't be made.
    #[error("bad type")]
    BadType,
    /// The value isn't of the type.
    #[error("bad value")]
    BadValue,
}

/// What a session holds for a pair of a parent's and a child's id. (own)
#[derive(Clone, Copy, Debug, PartialEq, Eq)]
pub enum SessionKind {
    Rule,
    Kernel,
}

/// Why a call failed.
#[derive(Clone, Copy, Debug, PartialEq, Eq, Error)]
pub enum VortexError {
    /// The allocator refused memory.
    #[error("out of memory")]
    OutOfMemory,
    /// An execution wasn't done after `limit` turns.
    #[error("Exceeded maximum execution iterations ({limit}) while executing array")]
    IterationLimit {
        limit: u64,
    },
    /// An optimization reached one of its limits: at the `at_root`th rewrite at one root, the `total`th of the call.
    #[error("Exceeded maximum optimization iterations (possible infinite loop)")]
    RewriteLimit {
        at_root: u32,
        total: u32,
    },
    /// A row has no value: a result is out of its type's range, or a divisor is 0.
    #[error("fault")]
    Fault,
    /// The product or the sum of `len` and `factor`, in rows, exceeds `usize::MAX`: a length times the size of a fixed list, or
    /// a length plus the rows that are appended.
    #[error("too long")]
    TooLong {
        len: usize,
        factor: usize,
    },
    /// The rows `start..stop` aren't within a tree of `len` rows. For a single row, both are its index.
    #[error("OutOfBounds: {start}..{stop} of length {len}")]
    OutOfBounds {
        start: usize,
        stop: usize,
        len: usize,
    },
    /// A rule or kernel that was handed in refused a child with the id `child` of a parent with the id `parent`. It is at `place`,
    /// counted from 0, in the session's list for these ids.
    #[error("refused")]
    Refused {
        kind: SessionKind,
        parent: Id,
        child: Id,
        place: usize,
    },
    /// An argument is invalid.
    #[error("{0}")]
    InvalidArgument(ArgKind),
    /// A node has an encoding that isn't allowed.
    #[error("normalize forbids encoding ({0})")]
    ForbiddenEncoding(Id),
}

/// The result of a fallible call.
pub type VortexResult<T> = Result<T, VortexError>;

impl From<AllocError> for VortexError {
    ghost from_gives = { λ _ e. e ≡ OutOfMemory };

    fn from(_e: AllocError) -> VortexError {
        VortexError::OutOfMemory
    }
}

impl<T: Drop> From<AllocFailed<T>> for VortexError {
    ghost from_gives = { λ _ e. e ≡ OutOfMemory };

    fn from(_e: AllocFailed<T>) -> VortexError {
        VortexError::OutOfMemory
    }
}
