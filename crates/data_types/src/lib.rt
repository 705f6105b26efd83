// The rules of iso-recursive types in code: each call gives the conclusion of its rule out of premises that are handed in, or
// the refusal of the first condition that fails.
// Stands on core_judgments, whose definitions say what is given and what is refused, and on the crates of types and terms and
// semantic_sigs, in whose handles it works.
// Proved: what a call gives is the conclusion of its rule, and each refusal is one of its rule; out of memory alone is free.
#![tactic(auto)]

mod premises;
mod refusal;
mod rules;

pub use refusal::DataRefusal;
pub use rules::{mu_ty, roll_exp, unroll_exp};
