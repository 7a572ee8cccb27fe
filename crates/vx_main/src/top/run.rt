//! The call of the program.

ghost use Rattle.std.specs.Prelude.{◌≡◌, ◌≢◌, ◌≤◌, ◌<◌, ◌↔◌, ◌⊎◌, ℕ, Some, None, true, false, [], length, IfSome};
ghost use Rattle.std.specs.Io.KnownBytes.{Appends};
ghost use Rattle.vx_value.specs.declared.error.SessionKind.{SessionKind as Kind};
ghost use Rattle.vx_value.specs.declared.id.Id.{Id};
ghost use Rattle.vx_opt.specs.Entries.{entries_of, AreLater};
ghost use Rattle.vx_json.specs.Spelled.{SpellsNone};
ghost use Rattle.vx_main.specs.Limits.{input_limit};
ghost use Rattle.vx_main.specs.Causes.{Rose};
ghost use Rattle.vx_main.specs.Streams.{TakesSome, AppendsPrefix};
ghost use Rattle.vx_main.specs.Commands.{texts, command_of, reads_tree, asks_rules, limit_of};
ghost use Rattle.vx_main.specs.Statuses.{has_no_input, has_no_tree};
ghost use Rattle.vx_main.specs.Runs.{Writes, WritesPrefix, IsFaulty, IsCostly, MeetsRewriteLimit, MeetsRefusal, Suffices, rules_of};
ghost use Rattle.vx_main.specs.declared.top.words.Command.{Command as CommandOf};

use crate::streams::{ReadError, Sink, Source, read_all, write_all};
use crate::top::answer::answer;
use crate::top::status::Status;
use crate::top::words::{Command, HELP, VERSION, read_command};
use std::alloc::Global;
use vx_exec::VortexSession;
use vx_rule::DynReduceParentRule;

/// Runs the command in `words`: reads the tree in `source`, rewrites it if the command is `optimize`, also by the rules of
/// `session`, executes it to a column and writes the column's text into `sink`.
///
/// The text is complete before the first write. `source` and `sink` count their own faults. (own)
#[tactic(auto, using(vx_opt::proofs::EntriesLemmas::all_later_refl))]
pub fn run<S: Source, K: Sink>(
    alloc: Global,
    words: &Vec<String>,
    source: &mut S,
    sink: &mut K,
    session: &mut VortexSession,
) -> Status
    // What is done: the input spells a tree, which is executed within the turns of the command, and the sink has its
    // type, the encoding of its column and its rows.
    ensures headline { (c : CommandOf) → command_of (texts words.now.items) ≡ Some c → result ≡ Status.Done
        → Writes c (rules_of ⟦<dyn DynReduceParentRule as DynReduceParentRule>⟧ session.old session.new)
        (S.left source.old) (K.held sink.old) (K.held sink.new) }
    ensures read_whole { reads_tree (command_of (texts words.now.items)) ≡ true → result ≡ Status.Done
        → IfSome (S.left source.old) (λ _. S.left source.new ≡ Some []) }

    // Why it isn't done: each status only from its cause.
    ensures usage { (result ≡ Status.Usage) ↔ (command_of (texts words.now.items) ≡ None) }
    ensures read_fault { result ≡ Status.ReadFault
        → (reads_tree (command_of (texts words.now.items)) ≡ true) × Rose (S.faults source.old) (S.faults source.new) }
    ensures too_large { (n : ℕ) → result ≡ Status.TooLarge n
        → (reads_tree (command_of (texts words.now.items)) ≡ true) × (input_limit < n) × TakesSome (S.left source.old) (S.left source.new) n }
    ensures bad_input { result ≡ Status.BadInput
        → (reads_tree (command_of (texts words.now.items)) ≡ true) × IfSome (S.left source.old) (λ bytes. (length bytes ≤ input_limit) × SpellsNone bytes) }
    ensures fault { result ≡ Status.Fault
        → (reads_tree (command_of (texts words.now.items)) ≡ true) × IfSome (S.left source.old) IsFaulty }
    ensures turn_limit { (c : CommandOf) (limit turns : ℕ) → command_of (texts words.now.items) ≡ Some c → result ≡ Status.TurnLimit limit turns
        → (reads_tree (Some c) ≡ true) × (limit ≡ limit_of c) × (turns ≡ limit) ×
        IfSome (S.left source.old) (IsCostly c (rules_of ⟦<dyn DynReduceParentRule as DynReduceParentRule>⟧ session.old session.new)) }
    ensures rewrite_limit { (c : CommandOf) (at_root total : ℕ) → command_of (texts words.now.items) ≡ Some c → result ≡ Status.RewriteLimit at_root total
        → (reads_tree (Some c) ≡ true) × IfSome (S.left source.old)
        (λ bytes. MeetsRewriteLimit c (rules_of ⟦<dyn DynReduceParentRule as DynReduceParentRule>⟧ session.old session.new) bytes at_root total) }
    ensures refused { (c : CommandOf) (kind : Kind) (parent child : Id) (k : ℕ) → command_of (texts words.now.items) ≡ Some c
        → result ≡ Status.Refused kind parent child k
        → (reads_tree (Some c) ≡ true) × IfSome (S.left source.old)
        (λ bytes. MeetsRefusal c (rules_of ⟦<dyn DynReduceParentRule as DynReduceParentRule>⟧ session.old session.new) bytes kind parent child k) }
    ensures allowed { (id : Id) → result ≢ Status.Forbidden id }
    ensures write_fault { (c : CommandOf) → command_of (texts words.now.items) ≡ Some c → result ≡ Status.WriteFault
        → Rose (K.faults sink.old) (K.faults sink.new) ×
        WritesPrefix c (rules_of ⟦<dyn DynReduceParentRule as DynReduceParentRule>⟧ session.old session.new)
        (S.left source.old) (K.held sink.old) (K.held sink.new) }
    ensures memory { result ≡ Status.Memory → reads_tree (command_of (texts words.now.items)) ≡ true }

    // And each cause gives its status, unless an earlier cause gives another.
    ensures too_large_comes { reads_tree (command_of (texts words.now.items)) ≡ true
        → IfSome (S.left source.old) (λ bytes. input_limit < length bytes → has_no_input result ≡ true) }
    ensures bad_input_comes { reads_tree (command_of (texts words.now.items)) ≡ true
        → IfSome (S.left source.old) (λ bytes. SpellsNone bytes → has_no_tree result ≡ true) }
    ensures complete { (c : CommandOf) → command_of (texts words.now.items) ≡ Some c
        → Suffices c (rules_of ⟦<dyn DynReduceParentRule as DynReduceParentRule>⟧ session.old session.new) (S.left source.old)
        → ¬ (Rose (S.faults source.old) (S.faults source.new)) → ¬ (Rose (K.faults sink.old) (K.faults sink.new))
        → (result ≡ Status.Done) ⊎ (result ≡ Status.Memory) }

    // What stays as it was: so the first read or write that fails ends the run.
    ensures source_kept { result ≢ Status.ReadFault → S.faults source.new ≡ S.faults source.old }
    ensures sink_kept { result ≢ Status.WriteFault → K.faults sink.new ≡ K.faults sink.old }
    ensures unwritten { result ≢ Status.Done → result ≢ Status.WriteFault → sink.new ≡ sink.old }
    ensures unread { reads_tree (command_of (texts words.now.items)) ≡ false → source.new ≡ source.old }
    ensures source_later { S.faults source.old ≤ S.faults source.new }
    ensures sink_later { K.faults sink.old ≤ K.faults sink.new }
    ensures session_later { AreLater
        (entries_of ⟦<dyn DynReduceParentRule as DynReduceParentRule>⟧ session.old.kernels.rules)
        (entries_of ⟦<dyn DynReduceParentRule as DynReduceParentRule>⟧ session.new.kernels.rules) }
    ensures session_unasked { asks_rules (command_of (texts words.now.items)) ≡ false → session.new ≡ session.old }
{
    let command = match read_command(words) {
        None => return Status::Usage,
        Some(Command::Help) => return finish(sink, HELP.as_bytes()),
        Some(Command::Version) => return finish(sink, VERSION.as_bytes()),
        Some(command) => command,
    };
    let bytes = match read_all(alloc, source) {
        Ok(bytes) => bytes,
        Err(ReadError::Failed) => return Status::ReadFault,
        Err(ReadError::TooLarge(bytes)) => return Status::TooLarge {
            bytes: bytes as u64,
        },
        Err(ReadError::OutOfMemory) => return Status::Memory,
    };
    match answer(alloc, bytes.as_slice(), command, session) {
        Ok(text) => finish(sink, text.as_bytes()),
        Err(status) => status,
    }
}

/// Writes the whole of `text`. Takes no memory.
fn finish<K: Sink>(sink: &mut K, text: &[u8]) -> Status
    ensures done { result ≡ Status.Done → Appends (K.held sink.old) (K.held sink.new) text.now }
    ensures fault { result ≡ Status.WriteFault
        → Rose (K.faults sink.old) (K.faults sink.new) × AppendsPrefix (K.held sink.old) (K.held sink.new) text.now }
    ensures ends { (result ≡ Status.Done) ⊎ (result ≡ Status.WriteFault) }
    ensures later { K.faults sink.old ≤ K.faults sink.new }
    ensures kept { result ≢ Status.WriteFault → K.faults sink.new ≡ K.faults sink.old }
{
    match write_all(sink, text) {
        Ok(()) => Status::Done,
        Err(_) => Status::WriteFault,
    }
}
