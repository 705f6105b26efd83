// Kinds, types, signatures and what phrases mean, in the notation of the literature, as text and as LaTeX for math mode.
// Stands on show_layout (lines of limited width), show_text (pages), show_types (variables in eta-long form), show_order
// (the order of components), omega_types (types), semantic_sigs (signatures) and itoa (numbers in decimal).
// Proved: the writing ends, and two variables in scope never have one name, which is a letter and a number. How a
// signature is written is only tested.
#![tactic(auto)]

mod conclusions;
mod kinds;
mod names;
mod program;
mod sigs;
mod symbols;
mod types;
mod writer;

pub use conclusions::{Conclusion, conclusion_page};
pub use kinds::{put_inner, put_kind};
pub use names::{VariableName, level_names_differ, variable_name};
pub use program::put_behind_effect;
pub use symbols::{LATEX, Pair, Special, Symbols, UNICODE};
pub use types::put_type;
pub use writer::Writer;
