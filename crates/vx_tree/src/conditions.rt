//! Conditions of nodes.

ghost use Rattle.vx_tree.specs.Conditions.{Checks, unless};

use vx_value::{ArgKind, VortexError, VortexResult};

/// Checks a condition. `InvalidArgument` with `broken` unless it `holds`. (own)
#[inline]
pub(crate) fn check_that(holds: bool, broken: ArgKind) -> VortexResult<()>
    ensures { Checks result (unless holds (VortexError.InvalidArgument broken)) }
{
    if holds {
        Ok(())
    } else {
        Err(VortexError::InvalidArgument(broken))
    }
}
