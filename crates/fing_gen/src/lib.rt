// Generated sources: a program for each size, for measuring.
// Stands on omega_kinds and itoa (numbers in decimal).
// Proved: `source_of` gives exactly the text of the definition.
#![tactic(auto)]

mod source;

pub use source::source_of;
