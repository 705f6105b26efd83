// Signatures for people: one declaration a line, in the order of the source, and hidden types by the paths that lead to
// them.
// Stands on show_text and show_types (pages and types), show_order (the order of components), semantic_sigs (signatures)
// and sig_roots (paths of hidden types).
// Proved: the writing ends, and a naming never holds one name twice. How a signature is written is only tested.
#![tactic(auto)]

mod names;
mod program;
mod search;
mod writer;

pub use program::{put_phrase, put_program};
