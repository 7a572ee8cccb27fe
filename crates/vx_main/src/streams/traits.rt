//! Sources, to read bytes from, and sinks, to write bytes to.

ghost use Rattle.std.specs.Prelude.{ℕ, ◌<◌, ◌≤◌, List, length, Option, IfOk};
ghost use Rattle.std.specs.Io.{ReadsAtMost, WritesAtMost};
ghost use Rattle.std.specs.Io.KnownBytes.{ReadConsumes, WriteAppends};
ghost use Rattle.vx_main.specs.Causes.{HasCause, Rose};

/// The error of a read or write that failed and moved no byte. (own)
#[derive(Clone, Copy, Debug, PartialEq, Eq)]
pub struct Failed;

impl Failed {
    /// Counts a fault in `faults` and returns the error.
    pub(crate) fn counted(faults: &mut u64) -> Failed
        ensures later { faults.old ≤ faults.new }
        ensures rose { Rose faults.old faults.new }
    {
        *faults = faults.saturating_add(1);
        Failed
    }
}

/// A source of bytes. It counts its faults, up to `u64::MAX`. A contract sees the bytes left if they are known. (own)
pub trait Source {
    ghost left: { Self → Option (List ℕ) };

    ghost faults: { Self → ℕ };

    /// Reads bytes into the front of `room` and returns how many: 0 only at the end, or if `room` is empty. If it
    /// fails, it counts a fault and moves no byte.
    fn read(&mut self, room: &mut [u8]) -> Result<usize, Failed>
        ensures bound { ReadsAtMost result room.new }
        ensures bytes { ReadConsumes (left self.old) (left self.new) result room.new }
        ensures cause { HasCause (faults self.old) (faults self.new) result };
}

/// A sink for bytes. It counts its faults, up to `u64::MAX`. A contract sees the bytes held if they are known. (own)
pub trait Sink {
    ghost held: { Self → Option (List ℕ) };

    ghost faults: { Self → ℕ };

    /// Writes bytes from the front of `piece` and returns how many: 0 only if `piece` is empty. If it fails, it counts
    /// a fault and takes no byte.
    fn write(&mut self, piece: &[u8]) -> Result<usize, Failed>
        ensures bound { WritesAtMost result piece.now }
        ensures moves { IfOk result (λ n. 0 < length piece.now → 0 < n) }
        ensures bytes { WriteAppends (held self.old) (held self.new) result piece.now }
        ensures cause { HasCause (faults self.old) (faults self.new) result };
}
