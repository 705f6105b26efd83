// Types and kinds for people: in the syntax of a source, with the least parentheses and with names for type
// variables.
// Stands on show_text (pages), omega_types (types) and itoa (numbers in decimal).
// Proved: the writing ends; a naming holds just the names that it was given and may hold, and what it writes for two
// variables differs. How a type is written is only tested.
#![tactic(auto)]

mod kinds;
mod naming;
mod types;
mod variables;

pub use kinds::put_kind;
pub use naming::{Naming, names_differ};
pub use types::put_ty;
pub use variables::eta_variable;
