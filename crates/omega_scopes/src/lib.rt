// Whether the variables of types and terms of System Fω are in scope, so that they can be written.
// Stands on omega_types and omega_terms.
// Proved: where `ty_in_scope` and `term_in_scope` say so, each variable is in scope and has a level below 2^64; and they
// say so where that holds and the binders and the variables in scope, counted together, are below 2^64.
#![tactic(auto)]

mod scopes;

pub use scopes::{term_in_scope, ty_in_scope};
