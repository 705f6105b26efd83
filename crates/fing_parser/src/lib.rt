// The parser: trees out of the steps in which the recogniser reads a list of tokens.
// Stands on parse_grammar (the recogniser), fing_syntax (trees) and parse_productions.
// Proved: `program` gives exactly the one tree of the tokens, or refuses exactly where they have none, with the length
// of their longest front that begins some program. `units` does the same for lists of separate units.
#![tactic(auto)]

mod build;
mod parser;

pub use parse_grammar::ParseRefusal;
pub use parser::{program, units};
