// The grammar of the language: a relation between a list of tokens and a tree, its laws, and a recogniser.
// Stands on fing_lexer (tokens), fing_syntax (trees) and thiserror.
// Proved: a list of tokens is a phrase of a class in at most one way. A text starts from one of two classes, programs and
// lists of separate units. For these, a list is a phrase of the class, or has exactly one place at which it stops being
// one. The place is the length of its longest front that begins such a phrase. `recognise` gives the steps in which the
// one tree is read, or refuses with exactly that length. The grammar's tables are code.
#![tactic(auto)]

pub mod choices;
pub mod facts;
pub mod grammar;
pub mod recogniser;
pub mod refusal;
pub mod sides;

pub use facts::{one_answer, one_choice, one_place, one_tree, one_unit_list};
pub use recogniser::{Step, recognise};
pub use refusal::ParseRefusal;
