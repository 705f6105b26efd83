// Elaboration: what a program or a separate unit means in System Fω, or the one reason why it means nothing.
// Stands on elab_phrases (phrases in an environment), module_rules (hidden types packed into a term), fing_units (interfaces
// in an environment), and on the theorems of elab_laws, elab_exact, unit_laws and elab_spelling.
// Proved (`elab`, `elab_unit`): an answer is the one meaning, and that of a program has a whole term whose type is the encoding
// of its signature, both legible where the program is spelled; a refusal is the one refusal. Want of memory alone is free.
#![tactic(auto)]

mod units;
mod whole;

pub use units::{elab_unit, unit_in};
pub use whole::{Elaborated, elab};
