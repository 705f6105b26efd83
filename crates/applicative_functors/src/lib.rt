// Applicative functors in code: the hidden types of a pure body are lifted over the functor's parameter.
// Stands on semantic_sigs and omega_shorthands, and on functor_judgments, whose definitions its contracts cite.
// Proved: `lift` gives the signature of a pure functor, `lift_witness` the operators that a pure body's types become, and
// `pure_functor` the conclusion of its rule. None of them is refused for another cause than out of memory.
#![tactic(auto)]

mod functors;
mod lifting;
mod operators;
mod parameters;

pub use functors::pure_functor;
pub use lifting::{lift, lift_witness};
