// The derivation of a program: its phrases in order, each with its rule and with what it means in the environment in which
// it stands.
// Stands on elab_phrases (what a phrase means in an environment), elab_rules (environments), show_rules (phrases in order) and
// show_paper (conclusions).
// Proved: what is shown of each phrase is derived by the judgments in a good environment. That this is the environment of
// its place, and that the nodes form the tree, is only tested.
#![tactic(auto)]

mod declaring;
mod following;
mod judgment;
mod scope;

pub use following::{Derivation, Line, derivation_of};
pub use judgment::Judgment;
