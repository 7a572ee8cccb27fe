//! The outcome of a run.

ghost use Rattle.std.specs.Prelude.{◌≡◌};
ghost use Rattle.vx_main.specs.Statuses.{code_of, text_of};

use vx_value::{Id, SessionKind, VortexError};

/// The outcome of a run: done, or why not. (own)
#[derive(Clone, Copy, Debug, PartialEq, Eq)]
pub enum Status {
    /// The output was written.
    Done,
    /// The words aren't a command.
    Usage,
    /// The input spells no tree.
    BadInput,
    /// A row of the tree, or of a node in it, has no value.
    Fault,
    /// The tree wasn't executed within `limit` turns; `turns` were taken.
    TurnLimit {
        limit: u64,
        turns: u64,
    },
    /// The tree wasn't optimized within the limits: `at_root` rewrites were made at one root, and `total` in all.
    RewriteLimit {
        at_root: u32,
        total: u32,
    },
    /// A rule or kernel that was handed in refused a child of a parent with these ids. It is at `place`, counted from 0, in the
    /// session's list for them.
    Refused {
        kind: SessionKind,
        parent: Id,
        child: Id,
        place: usize,
    },
    /// A node has an encoding that isn't allowed.
    Forbidden(Id),
    /// Memory ran out.
    Memory,
    /// A read failed.
    ReadFault,
    /// A write failed. A prefix of the output was written.
    WriteFault,
    /// The input exceeds the limit; `bytes` had arrived when reading stopped.
    TooLarge {
        bytes: u64,
    },
}

impl From<VortexError> for Status {
    ghost use Rattle.vx_main.specs.Statuses.{status_of};

    ghost from_gives = { λ error status. status ≡ status_of error };

    fn from(error: VortexError) -> Status {
        match error {
            VortexError::OutOfMemory => Status::Memory,
            VortexError::IterationLimit { limit } => Status::TurnLimit {
                limit,
                turns: limit,
            },
            VortexError::RewriteLimit { at_root, total } => Status::RewriteLimit { at_root, total },
            VortexError::Refused {
                kind,
                parent,
                child,
                place,
            } => Status::Refused {
                kind,
                parent,
                child,
                place,
            },
            VortexError::ForbiddenEncoding(id) => Status::Forbidden(id),
            VortexError::Fault => Status::Fault,
            VortexError::TooLong { .. } => Status::BadInput,
            VortexError::OutOfBounds { .. } => Status::BadInput,
            VortexError::InvalidArgument(_) => Status::BadInput,
        }
    }
}

impl Status {
    /// Returns the exit code of the program.
    pub fn code(self) -> u8
        ensures { result ≡ code_of self }
    {
        match self {
            Status::Done => 0,
            Status::Usage => 2,
            Status::BadInput => 3,
            Status::Fault => 4,
            Status::TurnLimit { .. } => 5,
            Status::RewriteLimit { .. } => 6,
            Status::Refused { .. } => 7,
            Status::Forbidden(_) => 8,
            Status::Memory => 9,
            Status::ReadFault => 10,
            Status::WriteFault => 11,
            Status::TooLarge { .. } => 12,
        }
    }
}

/// Returns the text of `status` for standard error, empty if it is `Done`. (own)
pub fn status_text(status: Status) -> &'static str
    ensures { result.now ≡ text_of status }
{
    match status {
        Status::Done => "",
        Status::Usage => "usage",
        Status::BadInput => "bad input",
        Status::Fault => "fault",
        Status::TurnLimit { .. } => "turn limit",
        Status::RewriteLimit { .. } => "rewrite limit",
        Status::Refused { .. } => "refused",
        Status::Forbidden(_) => "forbidden encoding",
        Status::Memory => "out of memory",
        Status::ReadFault => "read fault",
        Status::WriteFault => "write fault",
        Status::TooLarge { .. } => "input too large",
    }
}
