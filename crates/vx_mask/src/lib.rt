//! Shared buffers of items and of bits, and masks of rows. In contracts a buffer is the list of the items or bits in its
//! range, and a mask the list of its bits.
#![tactic(auto)]

mod bit_slice;
mod bits;
mod buffer;
mod builder;
mod combine;
mod count;
mod filter;
mod laws;
mod mask;
mod mask_values;
mod operand;
mod operation;
mod word;
mod zip;

pub use bits::BitBuffer;
pub use buffer::Buffer;
pub use builder::BitBuilder;
pub use laws::{choice_laws, mask_laws, place_laws};
pub use mask::Mask;
pub use mask_values::MaskValues;
pub use operand::BitOperand;
pub use operation::{BitAnd, BitEq, BitGt, BitGte, BitLt, BitLte, BitNotEq, BitOperation, BitOr};
