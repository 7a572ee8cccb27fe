//! The commands of the program.

ghost use Rattle.std.specs.Prelude.{◌≡◌};
ghost use Rattle.vx_main.specs.Commands.{texts, command_of, word_command, numbered_command, number_of, limit_of};

use vx_exec::DEFAULT_TURNS;

/// The text that `--help` prints. (own)
pub const HELP: &str = "usage: vx run [TURNS] < TREE.json
       vx optimize [TURNS] < TREE.json
       vx --help
       vx --version

Reads a tree as JSON on standard input, executes it to a column in at most TURNS
turns (4194304 by default), and prints the type, the encoding and one line for
each row. With optimize, the tree is rewritten first, so that less is executed.

status 0: done, 2: usage, 3: bad input, 4: fault in a row, 5: turn limit,
6: rewrite limit, 9: out of memory, 10: read fault, 11: write fault,
12: input too large
";

/// The text that `--version` prints. (own)
pub const VERSION: &str = "vx 0.1.0\n";

/// A command of the program. (own)
#[derive(Clone, Copy, Debug, PartialEq, Eq)]
pub enum Command {
    /// Executes the tree in at most `limit` turns, and prints the column.
    Run { limit: u64 },
    /// Rewrites the tree, then executes it in at most `limit` turns and prints the column.
    Optimize { limit: u64 },
    /// Prints `HELP`.
    Help,
    /// Prints `VERSION`.
    Version,
}

impl Command {
    /// Returns the number of turns that the command allows, 0 if it executes nothing.
    pub(crate) fn limit(self) -> u64
        ensures { result ≡ limit_of self }
    {
        match self {
            Command::Run { limit } => limit,
            Command::Optimize { limit } => limit,
            _ => 0,
        }
    }
}

/// Reads a decimal number below 2^64; `None` for any other text, and for a leading zero.
fn read_number(text: &[u8]) -> Option<u64>
    ensures { result ≡ number_of text.now }
{
    if text.is_empty() || text.len() > 1 && text[0] == b'0' {
        return None;
    }
    let mut number = 0u64;
    for byte in text {
        if *byte < b'0' || *byte > b'9' {
            return None;
        }
        number = number
            .checked_mul(10)?
            .checked_add(u64::from(*byte - b'0'))?;
    }
    Some(number)
}

/// Reads a command of one word.
fn read_word(word: &str) -> Option<Command>
    ensures { result ≡ word_command word.now }
{
    if word == "run" {
        Some(Command::Run {
            limit: DEFAULT_TURNS,
        })
    } else if word == "optimize" {
        Some(Command::Optimize {
            limit: DEFAULT_TURNS,
        })
    } else if word == "--help" {
        Some(Command::Help)
    } else if word == "--version" {
        Some(Command::Version)
    } else {
        None
    }
}

/// Reads a command of a word and a number.
fn read_numbered(word: &str, number: &str) -> Option<Command>
    ensures { result ≡ numbered_command word.now number.now }
{
    let limit = read_number(number.as_bytes())?;
    if word == "run" {
        Some(Command::Run { limit })
    } else if word == "optimize" {
        Some(Command::Optimize { limit })
    } else {
        None
    }
}

/// Reads the command in `words`; `None` if they aren't one.
pub(crate) fn read_command(words: &Vec<String>) -> Option<Command>
    ensures { result ≡ command_of (texts words.now.items) }
{
    if words.len() == 1 {
        read_word(words[0].as_str())
    } else if words.len() == 2 {
        read_numbered(words[0].as_str(), words[1].as_str())
    } else {
        None
    }
}
