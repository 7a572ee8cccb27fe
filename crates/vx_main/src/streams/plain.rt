//! Streams in memory that move as many bytes as they can.

ghost use Rattle.std.specs.Prelude.{◌≡◌, ◌≤◌, ℕ, List, [], Some};
ghost use Rattle.vx_main.specs.Causes.{Rose};
ghost use Rattle.vx_main.specs.Streams.{Told};

use crate::streams::{Failed, Sink, Source};
use std::alloc::Global;
use std::marker::Model;

/// A source in memory that never fails. A contract sees the bytes left. (own)
#[derive(Drop)]
pub struct PlainSource<'a> {
    bytes: &'a [u8],
}

impl<'a> Model for PlainSource<'a> {
    ghost Value = { List ℕ };

    ghost view = { λ s. s.bytes.now };
}

impl<'a> PlainSource<'a> {
    /// Creates a source of `bytes`.
    pub fn new(bytes: &'a [u8]) -> PlainSource<'a>
        ensures { result ≡ bytes.now }
    {
        PlainSource { bytes }
    }
}

impl Source for PlainSource<'_> {
    ghost left = { λ s. Some s };

    ghost faults = { λ _. 0 };

    fn read(&mut self, room: &mut [u8]) -> Result<usize, Failed> {
        let count = room.len().min(self.bytes.len());
        let (front, back) = self.bytes.split_at(count);
        room[..count].copy_from_slice(front);
        self.bytes = back;
        Ok(count)
    }
}

/// A sink in memory that fails only if memory runs out. (own)
#[derive(Drop)]
pub struct PlainSink {
    bytes: Vec<u8>,
    faults: u64,
}

impl Model for PlainSink {
    ghost Value = { Told };

    ghost view = { λ s. record { bytes = s.bytes.items; faults = s.faults } };
}

impl PlainSink {
    /// Creates an empty sink.
    pub fn new(alloc: Global) -> PlainSink
        ensures { result ≡ record { bytes = []; faults = 0 } }
    {
        PlainSink {
            bytes: Vec::new(alloc),
            faults: 0,
        }
    }

    /// Returns the bytes written so far.
    pub fn held(&self) -> &[u8]
        ensures { result.now ≡ self.now.bytes }
    {
        &self.bytes
    }

    /// Counts a fault and returns the error.
    pub(crate) fn fail(&mut self) -> Failed
        ensures kept { self.new.bytes ≡ self.old.bytes }
        ensures later { self.old.faults ≤ self.new.faults }
        ensures rose { Rose self.old.faults self.new.faults }
    {
        Failed::counted(&mut self.faults)
    }
}

impl Sink for PlainSink {
    ghost held = { λ s. Some s.bytes };

    ghost faults = { λ s. s.faults };

    fn write(&mut self, piece: &[u8]) -> Result<usize, Failed> {
        match self.bytes.extend_from_slice(piece) {
            Ok(()) => Ok(piece.len()),
            Err(_) => Err(self.fail()),
        }
    }
}
