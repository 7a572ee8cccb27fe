//! Streams of bytes that count their faults.

mod mem;
mod plain;
mod read;
mod system;
mod traits;
mod write;

pub use mem::{MemSink, MemSource};
pub use plain::{PlainSink, PlainSource};
pub use read::INPUT_LIMIT;
pub(crate) use read::{ReadError, read_all};
pub use system::{StdinSource, StdoutSink, SystemStream};
pub use traits::{Failed, Sink, Source};
pub(crate) use write::write_all;
