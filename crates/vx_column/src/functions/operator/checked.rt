//! The native integers that the operators compute with.

use num_traits::{CheckedAdd, CheckedDiv, CheckedMul, CheckedSub};
use vx_tree::NativeNumber;

/// A native integer type whose operations return `None` if the result doesn't fit the type. (own)
pub(crate) trait CheckedNumber: NativeNumber + CheckedAdd + CheckedSub + CheckedMul + CheckedDiv {}

impl<T: NativeNumber + CheckedAdd + CheckedSub + CheckedMul + CheckedDiv> CheckedNumber for T {}
