//! The native integer types of columns, and values of any of them in shared storage.

mod buffer;
mod buffers;
mod decimal;
mod integer;
mod macros;
mod native;
mod number;
mod values;
mod vec;

pub use buffer::NativeBuffer;
pub use decimal::{NativeDecimalType, narrowed};
pub use integer::{NativeInteger, native_of};
pub use native::{NativeKind, NativeType};
pub use number::NativeNumber;
pub use values::{DecimalValues, NativeValues, PrimitiveValues};
pub use vec::NativeVec;
pub use vx_value::{DecimalType, PType};
