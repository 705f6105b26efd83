// The words of the command line.
// Stands on clap, which reads them as one simple command, and on omega_kinds (want of memory).
// Proved: `read_words` gives exactly the command line that the words are, or none, by what clap states of the words that
// a simple command takes and of the values that it finds in them; words are at most one command line (`one_line`).
#![tactic(auto)]

mod command_line;
mod number;
mod table;
mod words;

pub use command_line::{CommandLine, one_line};
pub use words::read_words;
