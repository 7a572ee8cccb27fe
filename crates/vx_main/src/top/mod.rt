//! The run of the program: from words and input to output and status.

mod answer;
mod run;
mod status;
mod words;

pub use run::run;
pub use status::{Status, status_text};
pub use words::{Command, HELP, VERSION};
