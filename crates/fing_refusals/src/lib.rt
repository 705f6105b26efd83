// The refusals of elaboration in code, and the line of each, written to a sink; no memory is taken.
// Stands on refusal_reasons, whose plain reasons the code's are seen as, and on semantic_sigs, fing_syntax,
// omega_write and itoa (numbers in decimal).
// Proved: `write_line` writes exactly the line, and fails only where the sink counted a fault, a prefix of the line
// being written.
#![tactic(auto)]

mod path;
mod pieces;
mod refusal;
mod writing;

pub use refusal::{ElabWhy, Refusal};
pub use writing::write_line;
