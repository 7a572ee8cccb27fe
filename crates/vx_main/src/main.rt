//! The program `vx`: reads a tree, executes it and prints its rows.
#![tactic(auto)]

ghost use Rattle.std.specs.Prelude.{◌≡◌, ◌⊎◌, None, drop};
ghost use Rattle.std.specs.IoError.{error_kind};
ghost use Rattle.vx_main.specs.Commands.{texts, command_of};
ghost use Rattle.std.specs.declared.io.ErrorKind.TheVariants as failure;

mod streams;
#[cfg(test)]
mod tests;
mod top;

use std::process::ExitCode;
use std::{env, io};
pub use streams::{
    Failed, INPUT_LIMIT, MemSink, MemSource, PlainSink, PlainSource, Sink, Source, StdinSource,
    StdoutSink,
};
pub use top::{Command, HELP, Status, VERSION, run, status_text};
pub use vx_exec::VortexSession;

/// Reads the arguments of the process, with the program's name first.
fn read_arguments(rt: &HostRuntime) -> io::Result<Vec<String>> {
    let mut arguments = Vec::new(rt.alloc());
    for argument in env::args(rt)? {
        arguments.push(argument)?;
    }
    Ok(arguments)
}

/// Returns the words after the program's name.
fn words_of(mut arguments: Vec<String>) -> Vec<String>
    ensures { result.items ≡ drop 1 arguments.items }
{
    if !arguments.is_empty() {
        let _name = arguments.remove(0);
    }
    arguments
}

/// Returns the status for arguments that can't be read: `Memory` if memory ran out, else `Usage`.
fn status_of(error: &io::Error) -> Status
    ensures memory { error_kind error.now ≡ failure.OutOfMemory → result ≡ Status.Memory }
    ensures usage { ¬ (error_kind error.now ≡ failure.OutOfMemory) → result ≡ Status.Usage }
{
    if error.kind() == io::ErrorKind::OutOfMemory {
        Status::Memory
    } else {
        Status::Usage
    }
}

/// Runs `words` on the standard streams, with the entries that are built in.
fn run_words(rt: &HostRuntime, words: &Vec<String>) -> Status
    ensures usage { result ≡ Status.Usage → command_of (texts words.now.items) ≡ None }
    ensures usage_comes { command_of (texts words.now.items) ≡ None → (result ≡ Status.Usage) ⊎ (result ≡ Status.Memory) }
{
    let Ok(mut session) = VortexSession::with_builtins(rt.alloc()) else {
        return Status::Memory;
    };
    run(
        rt.alloc(),
        words,
        &mut StdinSource::new(rt.stdin()),
        &mut StdoutSink::new(rt.stdout()),
        &mut session,
    )
}

fn main(rt: HostRuntime) -> ExitCode {
    let status = match read_arguments(&rt) {
        Ok(arguments) => run_words(&rt, &words_of(arguments)),
        Err(error) => status_of(&error),
    };
    let text = status_text(status);
    if !text.is_empty() {
        let _ = rt.eprintln(text);
    }
    ExitCode::from(status.code())
}
