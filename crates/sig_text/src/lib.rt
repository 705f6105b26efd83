// The text of signatures, written to a sink with no memory.
// Stands on semantic_sigs and omega_write.
// Proved: `write_abs` and `write_elab` write exactly the text, and fail only where the sink counted a fault, a prefix of
// the text being written.
#![tactic(auto)]

mod kinds;
mod trees;

pub use trees::{write_abs, write_elab};
