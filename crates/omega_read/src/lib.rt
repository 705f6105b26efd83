// The text of System Fω, read into a type and a term.
// Stands on omega_spelling, whose definitions say what is read and why bytes are refused, and on thiserror.
// Proved: `read` gives exactly the type and the term whose text the bytes are, and each refusal exactly where it is
// the first that holds; a written text is read back to the same type and term. Want of memory alone is free.
#![tactic(auto)]

mod depth;
mod fields;
mod kinds;
mod labels;
mod left;
mod numbers;
mod terms;
mod texts;
mod types;
mod whole;
mod wide;

pub use whole::{ReadRefusal, read, read_back};
