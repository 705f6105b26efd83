// The names by which a reader finds the type variables of an environment: `Money.t`, `X.t`, `a`.
// Stands on semantic_sigs (environments and signatures) and sig_roots (types that are a variable).
// Proved: the search is safe and ends. That there is one place in the answer for each type variable, and that a name leads
// to its variable, is only tested.
#![tactic(auto)]

mod finder;
mod scope;

pub use scope::names_in;
