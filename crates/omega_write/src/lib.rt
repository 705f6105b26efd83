// Kinds, labels, types, terms and whole texts of System Fω, written to a sink with no memory.
// Stands on fing_text, on omega_terms, whose definitions say how each is spelled, and on itoa (numbers in decimal).
// Proved: each call, `write_omega` for whole texts, writes exactly the text, and fails only where the sink counted a
// fault, a prefix of the text being written.
#![tactic(auto)]

mod example;
mod leaves;
mod trees;

pub use example::spelled_example;
pub use leaves::write_label;
pub use trees::{write_kind, write_omega, write_term, write_ty};
