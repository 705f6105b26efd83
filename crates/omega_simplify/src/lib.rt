// Terms of System Fω without the calls of functions that give their argument back.
// Stands on omega_terms and omega_simplify_laws.
// Proved: `simplify` gives exactly the simplified term of the definitions. So each law of omega_simplify_laws speaks of what
// it answers: the term keeps its types, and comes to the same end in no more steps.
#![tactic(auto)]

mod flatness;
mod simplifying;

pub use simplifying::simplify;
