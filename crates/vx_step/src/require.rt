//! Macros for the step of an encoding: they return early, from a function of type `VortexResult<ExecutionResult>`, with the
//! request of a slot that isn't ready.

/// Gives `$parent` back if `$child`, its slot `$slot`, counted from 0, matches `$M`. Otherwise returns the request that the slot
/// be executed until it does.
#[macro_export]
macro_rules! require_child {
    ($parent:expr, $child:expr, $slot:expr => $M:ty) => {{
        if !$child.is::<$M>() {
            return Ok($crate::ExecutionResult::execute_slot::<$M>($parent, $slot));
        }
        $parent
    }};
}

/// Goes on if `$child`, an `Option<&ArrayRef>` that is slot `$slot` of `$parent`, counted from 0, is absent or matches `$M`.
/// Otherwise returns the request that the slot be executed until it does.
#[macro_export]
macro_rules! require_opt_child {
    ($parent:expr, $child:expr, $slot:expr => $M:ty) => {
        if let Some(child) = $child {
            if !child.is::<$M>() {
                return Ok($crate::ExecutionResult::execute_slot::<$M>($parent, $slot));
            }
        }
    };
}

/// Goes on if slot `$slot` of `$parent`, counted from 0, is absent or matches `$M`. Otherwise returns the request that the slot be
/// executed until it does. (own)
#[macro_export]
macro_rules! require_slot {
    ($parent:expr, $slot:expr => $M:ty) => {
        if let Some(Some(child)) = $parent.slots().get($slot) {
            if !child.is::<$M>() {
                return Ok($crate::ExecutionResult::execute_slot::<$M>($parent, $slot));
            }
        }
    };
}

/// Goes on if those of the slots of patches that are present, the indices, the values and the offsets of chunks, each counted
/// from 0, are columns of integers. Otherwise returns the request of the first that isn't.
#[macro_export]
macro_rules! require_patches {
    ($parent:expr, $indices_slot:expr, $values_slot:expr, $chunk_offsets_slot:expr) => {
        $crate::require_slot!($parent, $indices_slot => $crate::Primitive);
        $crate::require_slot!($parent, $values_slot => $crate::Primitive);
        $crate::require_slot!($parent, $chunk_offsets_slot => $crate::Primitive);
    };
}

/// Goes on if the validity, slot `$slot` of `$parent`, counted from 0, is absent or a column of booleans. Otherwise returns its
/// request.
#[macro_export]
macro_rules! require_validity {
    ($parent:expr, $slot:expr) => {
        $crate::require_slot!($parent, $slot => $crate::Bool);
    };
}
