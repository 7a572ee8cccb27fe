//! The texts of errors.

use std::alloc::AllocError;
use vx_value::{ArgKind, Id, SessionKind, VortexError};

static ERROR_TEXTS: [(VortexError, &str); 22] = [
    (VortexError::OutOfMemory, "out of memory"),
    (
        VortexError::IterationLimit { limit: 4 },
        "Exceeded maximum execution iterations (4) while executing array",
    ),
    (
        VortexError::RewriteLimit {
            at_root: 101,
            total: 101,
        },
        "Exceeded maximum optimization iterations (possible infinite loop)",
    ),
    (VortexError::Fault, "fault"),
    (VortexError::TooLong { len: 3, factor: 4 }, "too long"),
    (
        VortexError::OutOfBounds {
            start: 2,
            stop: 1,
            len: 3,
        },
        "OutOfBounds: 2..1 of length 3",
    ),
    (
        VortexError::Refused {
            kind: SessionKind::Rule,
            parent: Id::Slice,
            child: Id::Primitive,
            place: 0,
        },
        "refused",
    ),
    (
        VortexError::ForbiddenEncoding(Id::Dict),
        "normalize forbids encoding (vortex.dict)",
    ),
    (
        VortexError::InvalidArgument(ArgKind::SlotCount),
        "slot count",
    ),
    (
        VortexError::InvalidArgument(ArgKind::SlotMissing { slot: 2 }),
        "slot 2 must be present",
    ),
    (
        VortexError::InvalidArgument(ArgKind::SlotType { slot: 1 }),
        "slot type",
    ),
    (
        VortexError::InvalidArgument(ArgKind::SlotLen { slot: 1 }),
        "slot len",
    ),
    (
        VortexError::InvalidArgument(ArgKind::Arity { want: 2, got: 1 }),
        "ScalarFnArray requires 2 children, got 1",
    ),
    (
        VortexError::InvalidArgument(ArgKind::ChildLen),
        "ScalarFnArray must have children equal to the array length",
    ),
    (
        VortexError::InvalidArgument(ArgKind::FnSlotMissing),
        "ScalarFnArray requires every child slot to be present",
    ),
    (
        VortexError::InvalidArgument(ArgKind::NoChildren),
        "ScalarFnArray length cannot be inferred without children",
    ),
    (
        VortexError::InvalidArgument(ArgKind::MaskLen { child: 3, mask: 2 }),
        "FilterArray array and mask lengths must match",
    ),
    (VortexError::InvalidArgument(ArgKind::NoRow), "no row"),
    (VortexError::InvalidArgument(ArgKind::NodeType), "node type"),
    (VortexError::InvalidArgument(ArgKind::NodeLen), "node len"),
    (VortexError::InvalidArgument(ArgKind::BadType), "bad type"),
    (VortexError::InvalidArgument(ArgKind::BadValue), "bad value"),
];

fn is_text(written: Result<String, AllocError>, text: &str) -> bool {
    match written {
        Ok(written) => written.as_str() == text,
        Err(_) => false,
    }
}

#[test]
fn error_texts(rt: HostRuntime) {
    for row in &ERROR_TEXTS {
        assert!(rt; is_text(row.0.to_string(rt.alloc()), row.1), "{}", row.1);
    }
}
