// The productions of separate units and of functors, played on the parser's stack.
// Stands on parse_stack (the stack) and parse_forms (names and places).
// Proved: a production takes its parts off the stack and puts what the definitions say there, or misfits exactly where the
// stack does not hold its parts.
#![tactic(auto)]

mod functors;
mod units;

pub use functors::{applicative_functor, generative_functor};
pub use units::unit;
