// The rules of elaboration by their names, and the phrases of a program in order, each with its rule and its depth in the
// tree of rules, between the names that come into scope.
// Stands on omega_kinds (names and kinds), fing_text (places) and fing_syntax (trees).
// Proved: going through a program is safe and ends. Which rule a phrase has is only tested, and `tools/check-rules`
// compares the names with the figures of docs/language.
#![tactic(auto)]

mod names;
mod rule;
mod steps;
mod walk;

pub use rule::{DEFINITIONS, Rule};
pub use steps::{DEEPEST, MOST, Move, Phrase, Step, Steps};
pub use walk::steps_of;
