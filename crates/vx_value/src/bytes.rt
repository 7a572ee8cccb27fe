//! Shared bytes, as in the original's `buffer` crate.

ghost use Rattle.std.specs.Prelude.{◌≡◌, ◌↔◌, ◌==◌, [], length, refl, Some, is_some, IfOk, IfSome, IsTrue, string_bytes};
ghost use Rattle.std.specs.Str.{is_utf8, bytes_eq};
ghost use Rattle.std.specs.Cmp.{partial_equiv_from_equiv};
ghost use Rattle.std.specs.Cmp.Lexicographic.{bytes_decides, nat_list_eq_equiv, nat_list_cmp_total, texts_po, texts_ties};
ghost use Rattle.std.specs.Hash.{same_Alike};
ghost use Rattle.vx_value.specs.Errors.{OnlyOutOfMemory};
ghost use Rattle.vx_value.specs.Bytes.{bytes_cmp, bytes_writes};

use crate::VortexResult;
use std::alloc::{AllocError, Global};
use std::cmp::Ordering;
use std::hash::{Hash, Hasher};
use std::marker::Model;
use std::rc::Rc;

/// Immutable bytes. Clones share them. A contract sees the list of the bytes.
#[derive(Debug, Drop)]
pub struct ByteBuffer {
    /// `None` if there are no bytes, which takes no memory.
    bytes: Option<Rc<Vec<u8>>>,
}

impl Model for ByteBuffer {
    ghost use Rattle.std.specs.Prelude.{List, ℕ, option_map};
    ghost use Rattle.vx_value.specs.Bytes.{or_none};

    ghost Value = { List ℕ };

    ghost view = { λ b. or_none (option_map (λ r. r.value.items) b.bytes) };
}

impl Clone for ByteBuffer {
    ghost is_clone = { λ a b. b ≡ a };

    /// Returns the same bytes, shared.
    fn clone(&self) -> Result<ByteBuffer, AllocError> {
        Ok(ByteBuffer {
            bytes: self.bytes.clone()?,
        })
    }
}

impl ByteBuffer {
    /// Returns the buffer without bytes, which takes no memory.
    pub fn empty() -> ByteBuffer
        ensures { result ≡ [] }
    {
        ByteBuffer { bytes: None }
    }

    /// Makes a buffer of `bytes`, which aren't copied. Fails only with `OutOfMemory`. (own)
    pub fn from_vec(alloc: Global, bytes: Vec<u8>) -> VortexResult<ByteBuffer>
        ensures ok { IfOk result (λ b. b ≡ bytes.items) }
        ensures err { OnlyOutOfMemory result }
    {
        Ok(ByteBuffer {
            bytes: Some(Rc::new(alloc, bytes)?),
        })
    }

    /// Makes a buffer of the bytes of `text`, which aren't copied. Fails only with `OutOfMemory`. (own)
    pub fn from_string(alloc: Global, text: String) -> VortexResult<ByteBuffer>
        ensures ok { IfOk result (λ b. b ≡ string_bytes text) }
        ensures err { OnlyOutOfMemory result }
    {
        ByteBuffer::from_vec(alloc, text.into_bytes())
    }

    /// Makes a buffer of a copy of `bytes`. Fails only with `OutOfMemory`.
    pub fn copy_from(alloc: Global, bytes: &[u8]) -> VortexResult<ByteBuffer>
        ensures ok { IfOk result (λ b. b ≡ bytes.now) }
        ensures err { OnlyOutOfMemory result }
    {
        ByteBuffer::from_vec(alloc, Vec::from_slice(alloc, bytes)?)
    }

    /// Returns the bytes.
    pub fn as_slice(&self) -> &[u8]
        ensures { result.now ≡ self.now }
    {
        match &self.bytes {
            Some(bytes) => bytes.as_slice(),
            None => &[],
        }
    }

    /// Returns the number of bytes.
    pub fn len(&self) -> usize
        ensures { result ≡ length self.now }
    {
        self.as_slice().len()
    }

    /// Checks whether there are no bytes.
    pub fn is_empty(&self) -> bool
        ensures { result ≡ (length self.now == 0) }
    {
        self.as_slice().is_empty()
    }

    /// Returns the bytes as text, or `None` if they aren't UTF-8. Reads all of them. (own)
    #[tactic(auto, using(crate::proofs::BytesLemmas::is_text, crate::proofs::BytesLemmas::is_no_text))]
    pub fn as_str(&self) -> Option<&str>
        ensures which { is_some result ≡ is_utf8 self.now }
        ensures text { IfSome result (λ text. text.now ≡ self.now) }
    {
        str::from_utf8(self.as_slice()).ok()
    }
}

/// Checks whether `bytes` are UTF-8. (own)
#[tactic(auto, using(crate::proofs::BytesLemmas::is_text, crate::proofs::BytesLemmas::is_no_text))]
pub fn is_text(bytes: &[u8]) -> bool
    ensures { result ≡ is_utf8 bytes.now }
{
    str::from_utf8(bytes).is_ok()
}

/// Buffers are equal if they have the same bytes, shared or not.
impl PartialEq for ByteBuffer {
    ghost eq = { bytes_eq };

    ghost laws = { partial_equiv_from_equiv nat_list_eq_equiv };

    #[tactic(auto, using(crate::proofs::BytesLemmas::bytes_eq_is))]
    fn eq(&self, other: &ByteBuffer) -> bool
        ensures value { result ≡ bytes_eq self.now other.now }
        ensures equal { IsTrue result ↔ (self.now ≡ other.now) }
    {
        self.as_slice() == other.as_slice()
    }
}

impl Eq for ByteBuffer {
    ghost laws = { nat_list_eq_equiv };
}

impl PartialOrd for ByteBuffer {
    ghost partial_cmp = { λ a b. Some (bytes_cmp a b) };

    ghost laws = { texts_po };

    fn partial_cmp(&self, other: &ByteBuffer) -> Option<Ordering> {
        Some(self.cmp(other))
    }
}

/// Orders buffers by the first byte that differs. A prefix comes before the longer buffer.
impl Ord for ByteBuffer {
    ghost cmp = { bytes_cmp };

    ghost total = { nat_list_cmp_total };

    ghost matches_partial_cmp = { λ a b. refl };

    ghost matches_eq = { texts_ties };

    fn cmp(&self, other: &ByteBuffer) -> Ordering {
        self.as_slice().cmp(other.as_slice())
    }
}

impl Hash for ByteBuffer {
    ghost hash_input = { bytes_writes };

    ghost respects_eq = { (same_Alike bytes_writes bytes_decides).fed };

    fn hash<H: Hasher>(&self, state: &mut H) {
        self.as_slice().hash(state);
    }
}
