//! Streams in memory that move few bytes a call, and fail at chosen calls.

ghost use Rattle.std.specs.Prelude.{◌≡◌, ◌≤◌, [], drop, length, Some};
ghost use Rattle.vx_main.specs.Streams.{Told};

use crate::streams::{Failed, PlainSink, Sink, Source};
use std::alloc::Global;
use std::marker::Model;

/// A source in memory that fails at chosen calls of `read`. (own)
#[derive(Drop)]
pub struct MemSource {
    bytes: Vec<u8>,
    at: usize,
    most: usize,
    fails: Vec<u64>,
    calls: u64,
    faults: u64,
}

impl Model for MemSource {
    ghost Value = { Told };

    ghost view = { λ s. record { bytes = drop s.at s.bytes.items; faults = s.faults } };

    ghost invariant = { λ s. s.at ≤ length s.bytes.items };
}

impl MemSource {
    /// Creates a source of `bytes`. It gives at most `most` of them a call (1 if `most` is 0), and fails at the calls
    /// in `fails`, counted from 0.
    pub fn new(bytes: Vec<u8>, most: usize, fails: Vec<u64>) -> MemSource
        ensures { result ≡ record { bytes = bytes.items; faults = 0 } }
    {
        MemSource {
            bytes,
            at: 0,
            most,
            fails,
            calls: 0,
            faults: 0,
        }
    }
}

impl Source for MemSource {
    ghost left = { λ s. Some s.bytes };

    ghost faults = { λ s. s.faults };

    fn read(&mut self, room: &mut [u8]) -> Result<usize, Failed> {
        let call = self.calls;
        self.calls = self.calls.saturating_add(1);
        if self.fails.contains(&call) {
            return Err(Failed::counted(&mut self.faults));
        }
        let left = &self.bytes[self.at..];
        let count = room.len().min(left.len()).min(self.most.max(1));
        room[..count].copy_from_slice(&left[..count]);
        self.at += count;
        Ok(count)
    }
}

/// A sink in memory that fails at chosen calls of `write`. (own)
#[derive(Drop)]
pub struct MemSink {
    sink: PlainSink,
    most: usize,
    fails: Vec<u64>,
    calls: u64,
}

impl Model for MemSink {
    ghost Value = { Told };

    ghost view = { λ s. s.sink };
}

impl MemSink {
    /// Creates an empty sink. It takes at most `most` bytes a call (1 if `most` is 0), and fails at the calls in
    /// `fails`, counted from 0, or if memory runs out.
    pub fn new(alloc: Global, most: usize, fails: Vec<u64>) -> MemSink
        ensures { result ≡ record { bytes = []; faults = 0 } }
    {
        MemSink {
            sink: PlainSink::new(alloc),
            most,
            fails,
            calls: 0,
        }
    }

    /// Returns the bytes written so far.
    pub fn held(&self) -> &[u8]
        ensures { result.now ≡ self.now.bytes }
    {
        self.sink.held()
    }
}

impl Sink for MemSink {
    ghost held = { λ s. Some s.bytes };

    ghost faults = { λ s. s.faults };

    fn write(&mut self, piece: &[u8]) -> Result<usize, Failed> {
        let call = self.calls;
        self.calls = self.calls.saturating_add(1);
        if self.fails.contains(&call) {
            return Err(self.sink.fail());
        }
        let count = piece.len().min(self.most.max(1));
        self.sink.write(&piece[..count])
    }
}
