//! Readers and writers as streams that count their faults.

ghost use Rattle.std.specs.Prelude.{◌≡◌};

use crate::streams::{Failed, Sink, Source};
use std::io::{Read, Write};

/// A source over a reader, such as standard input. A contract sees the bytes left if it sees the reader's, which it
/// doesn't for a real stream. (own)
pub type StdinSource<R> = SystemStream<R>;

/// A sink over a writer, such as standard output. A write that takes none of a piece's bytes counts as a fault. A
/// contract sees the bytes held if it sees the writer's, which it doesn't for a real stream. (own)
pub type StdoutSink<W> = SystemStream<W>;

/// A reader or a writer, and its count of faults. (own)
#[derive(Drop)]
pub struct SystemStream<T> {
    stream: T,
    faults: u64,
}

impl<T> SystemStream<T> {
    /// Creates a source over the reader `stream`, or a sink over the writer.
    pub fn new(stream: T) -> SystemStream<T>
        ensures { result ≡ record { stream = stream; faults = 0 } }
    {
        SystemStream { stream, faults: 0 }
    }
}

impl<R: Read> Source for SystemStream<R> {
    ghost left = { λ s. R.remaining s.stream };

    ghost faults = { λ s. s.faults };

    fn read(&mut self, room: &mut [u8]) -> Result<usize, Failed> {
        match self.stream.read(room) {
            Ok(count) => Ok(count),
            Err(_) => Err(Failed::counted(&mut self.faults)),
        }
    }
}

impl<W: Write> Sink for SystemStream<W> {
    ghost held = { λ s. W.contents s.stream };

    ghost faults = { λ s. s.faults };

    fn write(&mut self, piece: &[u8]) -> Result<usize, Failed> {
        match self.stream.write(piece) {
            Ok(count) if count > 0 || piece.is_empty() => Ok(count),
            _ => Err(Failed::counted(&mut self.faults)),
        }
    }
}
