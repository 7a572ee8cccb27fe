//! Reads a source to its end.

ghost use Rattle.std.specs.Prelude.{◌≡◌, ◌≢◌, ◌≤◌, ◌<◌, ℕ, List, length, Some, Err, IsErr, IfOk, IsErrOf};
ghost use Rattle.vx_main.specs.Limits.{input_limit};
ghost use Rattle.vx_main.specs.Causes.{Rose};
ghost use Rattle.vx_main.specs.Streams.{TakesAll, TakesSome};

use crate::streams::{Failed, Source};
use std::alloc::{AllocError, Global};

/// The largest input, in bytes. (own)
pub const INPUT_LIMIT: usize = 67_108_864;

/// The largest read, in bytes.
const PIECE: usize = 65_536;

/// The error of `read_all`.
#[derive(Clone, Copy, Debug, PartialEq, Eq)]
pub(crate) enum ReadError {
    /// A read failed.
    Failed,
    /// The input exceeds `INPUT_LIMIT`. Holds the number of bytes read so far.
    TooLarge(usize),
    OutOfMemory,
}

impl From<AllocError> for ReadError {
    ghost use Rattle.vx_main.specs.declared.streams.read.ReadError.TheVariants.{OutOfMemory};

    ghost from_gives = { λ _ e. e ≡ OutOfMemory };

    fn from(_error: AllocError) -> ReadError {
        ReadError::OutOfMemory
    }
}

impl From<Failed> for ReadError {
    ghost use Rattle.vx_main.specs.declared.streams.read.ReadError.TheVariants.{Failed as ReadFailed};

    ghost from_gives = { λ _ e. e ≡ ReadFailed };

    fn from(_error: Failed) -> ReadError {
        ReadError::Failed
    }
}

/// Reads `source` to its end and returns all its bytes.
///
/// # Errors
///
/// `Failed` if a read fails; `TooLarge` if more than `INPUT_LIMIT` bytes come; `OutOfMemory`.
pub(crate) fn read_all<S: Source>(alloc: Global, source: &mut S) -> Result<Vec<u8>, ReadError>
    ensures all { IfOk result (λ bytes. TakesAll (S.left source.old) (S.left source.new) bytes.items) }
    ensures fits { IfOk result (λ bytes. length bytes.items ≤ input_limit) }

    // Each error but `OutOfMemory` has its cause.
    ensures too_large { (n : ℕ) → IsErrOf result (ReadError.TooLarge n)
        → (input_limit < n) × TakesSome (S.left source.old) (S.left source.new) n }
    ensures too_large_comes { (bytes : List ℕ) → S.left source.old ≡ Some bytes
        → input_limit < length bytes → IsErr result }
    ensures failed { IsErrOf result ReadError.Failed → Rose (S.faults source.old) (S.faults source.new) }

    ensures later { S.faults source.old ≤ S.faults source.new }
    ensures kept { result ≢ Err ReadError.Failed → S.faults source.new ≡ S.faults source.old }
{
    let mut bytes = Vec::new(alloc);
    let mut room = [0u8; PIECE];
    loop {
        let count = source.read(&mut room)?;
        if count == 0 {
            return Ok(bytes);
        }
        if count > INPUT_LIMIT - bytes.len() {
            return Err(ReadError::TooLarge(bytes.len() + count));
        }
        bytes.extend_from_slice(&room[..count])?;
    }
}
