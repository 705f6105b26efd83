// Trees of rules as pages: as text, in LaTeX, and as HTML in which a reader folds the parts.
// Stands on omega_kinds (out of memory), fing_text (places), show_text (pages), show_paper (conclusions in the notation of the
// literature) and show_rules (rules).
// Proved: the writing is safe and ends. What is written is only tested.
#![tactic(auto)]

mod drawing;
mod escaped;
mod form;
mod html;
mod latex;
mod phrase;
mod text;

pub use drawing::{Drawing, Node};
pub use form::Form;
