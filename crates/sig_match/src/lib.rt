// Matching and subtyping of semantic signatures, with the types that match and the coercion.
// Stands on semantic_sigs, sig_roots and coercion_terms, and on sig_match_laws, whose laws its contracts rest on.
// Proved: `match_sig` and `sub_abs` answer Ok exactly where some types match, with just these types and the one coercion,
// and each refusal exactly where it is the one that the definitions give.
#![tactic(auto)]

mod alike;
mod calls;
mod coercing;
mod cutting;
mod effects;
mod made;
mod matching;
mod putting;
mod refusal;
mod refusing;

pub use calls::{match_sig, sub_abs};
pub use refusal::{MatchRefusal, Matched};
