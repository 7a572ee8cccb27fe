//! Streams that come in pieces, and fail in the middle; a rule that refuses.

use crate::streams::{
    Failed, MemSink, MemSource, PlainSink, PlainSource, ReadError, Sink, Source, StdinSource,
    StdoutSink, read_all, write_all,
};
use crate::top::{Status, run};
use std::alloc::Global;
use std::io;
use std::io::{Read, Write};
use std::test::Fail;
use vx_exec::VortexSession;
use vx_rule::{DynReduceParentRule, RawNode, RuleEntry, Spent};
use vx_tree::ArrayRef;
use vx_value::{Id, SessionKind, VortexError, VortexResult};

/// 141 bytes: nine pieces of 16, and a read that finds the end.
const INPUT: &str =
    r#"{"enc":"slice","start":1,"stop":4,"child":{"enc":"slice","start":2,"stop":8,"child":{"enc":"col","type":"i32","rows":[0,1,2,3,4,5,6,7,8,9]}}}"#;

/// 41 bytes: eleven pieces of 4.
const OUTPUT: &str = "type i32\nencoding vortex.primitive\n3\n4\n5\n";

/// Returns whether the source gives `INPUT`, or, if `fails`, whether reading it fails.
fn is_read<S: Source>(alloc: Global, source: &mut S, fails: bool) -> bool {
    match read_all(alloc, source) {
        Ok(bytes) => !fails && bytes.as_slice() == INPUT.as_bytes(),
        Err(error) => fails && error == ReadError::Failed,
    }
}

/// Returns whether the sink takes `OUTPUT`, or, if `fails`, whether writing to it fails.
fn is_taken<K: Sink>(sink: &mut K, fails: bool) -> bool {
    write_all(sink, OUTPUT.as_bytes()) == if fails { Err(Failed) } else { Ok(()) }
}

#[test]
fn sources_in_pieces(rt: HostRuntime) -> Result<(), Fail> {
    for most in [0, 1, 3, 16] {
        let bytes = INPUT.as_bytes().to_vec(rt.alloc())?;
        let mut source = MemSource::new(bytes, most, Vec::new(rt.alloc()));
        assert!(rt; is_read(rt.alloc(), &mut source, false), "{most}");
    }
    Ok(())
}

#[test]
fn sources_that_fail_once(rt: HostRuntime) -> Result<(), Fail> {
    for call in 0..11 {
        let bytes = INPUT.as_bytes().to_vec(rt.alloc())?;
        let mut source = MemSource::new(bytes, 16, [call].to_vec(rt.alloc())?);
        assert!(rt; is_read(rt.alloc(), &mut source, call < 10), "{call}");
    }
    Ok(())
}

#[test]
fn sinks_in_pieces_that_fail_once(rt: HostRuntime) -> Result<(), Fail> {
    for call in 0..12 {
        let mut sink = MemSink::new(rt.alloc(), 4, [call as u64].to_vec(rt.alloc())?);
        assert!(rt; is_taken(&mut sink, call < 11), "{call}");
        let held = OUTPUT.len().min(4 * call);
        assert!(rt; sink.held() == &OUTPUT.as_bytes()[..held], "{call}");
    }
    Ok(())
}

#[test]
fn plain_streams(rt: HostRuntime) {
    assert!(rt; is_read(rt.alloc(), &mut PlainSource::new(INPUT.as_bytes()), false));
    let mut sink = PlainSink::new(rt.alloc());
    assert!(rt; is_taken(&mut sink, false));
    assert!(rt; sink.held() == OUTPUT.as_bytes());
}

/// A reader and a writer that fail once, and would then continue.
#[derive(Drop)]
struct FailsOnce<'a> {
    bytes: &'a [u8],
    has_failed: bool,
}

impl Read for FailsOnce<'_> {
    fn read(&mut self, buf: &mut [u8]) -> io::Result<usize> {
        if !self.has_failed {
            self.has_failed = true;
            return Err(io::ErrorKind::Other.into());
        }
        self.bytes.read(buf)
    }
}

impl Write for FailsOnce<'_> {
    fn write(&mut self, buf: &[u8]) -> io::Result<usize> {
        if !self.has_failed {
            self.has_failed = true;
            return Err(io::ErrorKind::Other.into());
        }
        Ok(buf.len())
    }

    fn flush(&mut self) -> io::Result<()> {
        Ok(())
    }
}

#[test]
fn system_streams_are_not_tried_again(rt: HostRuntime) {
    for has_failed in [false, true] {
        let bytes = INPUT.as_bytes();
        let mut source = StdinSource::new(FailsOnce { bytes, has_failed });
        assert!(rt;
            is_read(rt.alloc(), &mut source, !has_failed),
            "{has_failed}"
        );
        let mut sink = StdoutSink::new(FailsOnce { bytes, has_failed });
        assert!(rt; is_taken(&mut sink, !has_failed), "{has_failed}");
    }
}

#[test]
fn a_writer_without_room_fails(rt: HostRuntime) {
    let mut room = [0u8; 4];
    assert!(rt; is_taken(&mut StdoutSink::new(room.as_mut_slice()), true));
    assert!(rt; room == *b"type");
}

/// A rule that refuses each child.
#[derive(Drop)]
struct Refusing {
    refusals: u64,
    spent: Spent,
}

impl DynReduceParentRule for Refusing {
    ghost refusals = { λ r. r.refusals };

    ghost spent_so_far = { λ r. r.spent.total };

    fn reduce_parent(
        &mut self,
        _alloc: Global,
        child: &ArrayRef,
        parent: &ArrayRef,
        slot: usize,
    ) -> VortexResult<Option<RawNode>> {
        self.refusals = self.refusals.saturating_add(1);
        Err(VortexError::Refused {
            kind: SessionKind::Kernel,
            parent: child.encoding_id(),
            child: parent.encoding_id(),
            place: slot,
        })
    }

    fn spent(&self) -> u64 {
        self.spent.count()
    }
}

/// Runs `word` on the negation of a column of booleans, in `session`.
fn negate(alloc: Global, word: &str, session: &mut VortexSession) -> VortexResult<Status> {
    let words = vec![in alloc; String::from_str(alloc, word)?]?;
    let input = r#"{"enc":"fn","fn":"not","args":[{"enc":"col","type":"bool","rows":[true]}]}"#;
    let mut source = PlainSource::new(input.as_bytes());
    Ok(run(
        alloc,
        &words,
        &mut source,
        &mut PlainSink::new(alloc),
        session,
    ))
}

#[test]
fn a_rule_that_refuses(rt: HostRuntime) -> Result<(), Fail> {
    let alloc = rt.alloc();
    let mut session = VortexSession::empty(alloc);
    let rule = Refusing {
        refusals: 0,
        spent: Spent::new(),
    };
    let entry = RuleEntry::Boxed(Box::new(alloc, rule)?);
    session.kernels.rules.register(Id::Not, Id::Bool, entry)?;
    assert!(rt; negate(alloc, "run", &mut session)? == Status::Done);
    let refused = Status::Refused {
        kind: SessionKind::Rule,
        parent: Id::Not,
        child: Id::Bool,
        place: 0,
    };
    assert!(rt; negate(alloc, "optimize", &mut session)? == refused);
    assert!(rt; session.kernels.rules.find(Id::Not, Id::Bool) == 1);
    Ok(())
}
