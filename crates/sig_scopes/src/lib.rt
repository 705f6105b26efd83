// Whether the type variables of signatures and of refusals are in scope, so that they can be written.
// Stands on omega_scopes, and on sig_text and fing_refusals, which say what must be in scope in what they write.
// Proved: where `abs_in_scope` and `refusal_in_scope` say so, the text of the signature and the line of the refusal can
// be written; and they say so where that holds and the binders and the variables in scope, counted together, are below 2^64.
#![tactic(auto)]

mod refusals;
mod walks;

pub use refusals::refusal_in_scope;
pub use walks::abs_in_scope;
