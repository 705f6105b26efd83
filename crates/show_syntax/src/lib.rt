// What is said to people of tokens that form no program: which tokens could stand at the place, and which slip it may be.
// Stands on parse_grammar, by whose tables a front of the tokens is read, fing_lexer (tokens) and show_text (pages).
// Proved: the reading and the writing end. That just the right tokens are named is tested, against the parser.
#![tactic(auto)]

mod expected;
mod following;
mod foreign;
mod slips;
mod sorts;
mod terminals;

pub use expected::put_expected;
pub use following::followers;
pub use slips::slip;
