// The lexer: a source's bytes as tokens, with their spans, or the first place that has no token.
// Stands on fing_text (spans), omega_kinds (names, out of memory) and thiserror.
// Proved: `tokens` gives exactly the one list of longest tokens of the bytes, or the refusal of the first place that
// has none, numbers out of range and the limit on nesting included; each list of bytes has exactly
// one outcome; and the spans of tokens are in order, each token being what the bytes of its span are.
#![tactic(auto)]

mod bytes;
mod facts;
mod lexer;
mod nest;
mod scan;
mod token;

pub use facts::{one_outcome, slices_in_order};
pub use lexer::{LexRefusal, tokens};
pub use token::{Mark, Token, What, Word};
