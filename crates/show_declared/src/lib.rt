// Where a source declares what a refusal tells: the declaration of a signature that asks for a component, what the module
// has there, and what a path leads to.
// Stands on show_order, which reads the source, fing_lexer (tokens), fing_refusals (reasons) and semantic_sigs (paths).
// Proved: each place begins with the word of a binding or a declaration that is given with it, behind which the name stands
// that is given too; the search is safe and ends. That the declaration is the right one is only tested.
#![tactic(auto)]

mod declaration;
mod found;
mod refused;

pub use declaration::Declaration;
pub use refused::{Declarations, declarations_of};
