// What is shown to people of a source: the page of its refusal, or of its signature, its term, its run, its derivation or a
// phrase, and the verdict.
// Stands on fing_lexer, fing_parser, fing_elab and elab_phrases (from bytes to a meaning or a refusal), and on the crates
// show_text to show_syntax (pages).
// Proved: the verdict is the one of the rules, with the place of a refusal; the end of a run is what the whole term comes to
// within the budget. The page begins with `error: ` and the title of the one refusal, or in the views of signatures with the
// effect of the program; as Omega text it is made compact to what `emit` writes. Making it ends; all else is only tested.
#![tactic(auto)]

#[cfg(test)]
mod arranged_tests;
mod declared;
#[cfg(test)]
mod declared_tests;
#[cfg(test)]
mod derivation_tests;
mod derivations;
mod heads;
#[cfg(test)]
mod name_tests;
mod omega;
#[cfg(test)]
mod omega_text_tests;
#[cfg(test)]
mod order_tests;
mod pages;
#[cfg(test)]
mod paper_tests;
#[cfg(test)]
mod phrase_tests;
mod places;
mod running;
mod showing;
#[cfg(test)]
mod sides_tests;
#[cfg(test)]
mod slip_tests;
#[cfg(test)]
mod step_tests;
#[cfg(test)]
mod syntax_tests;
#[cfg(test)]
mod term_tests;
#[cfg(test)]
mod tests;
mod view;

pub use show_figures::Form;
pub use showing::{Shown, Verdict, show};
pub use view::View;
