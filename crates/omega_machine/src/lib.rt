// The machine of System Fω: it reduces a checked term by substitution, step by step, and shows the value that it comes to.
// Stands on omega_kinds, omega_types, omega_terms, omega_laws, omega_checker and itoa (numbers in decimal).
// Proved: `run` gives exactly the outcome of reduction within the budget, with its exact number of steps; it is spent
// exactly where the term that is reached is no value, and no term that is reached is stuck. A value is shown exactly
// by its text. Step by step, a `Run` makes exactly one step at a time, at the redex in its frames and by the rule that it
// names, or says exactly that the term is a value or faults.
#![tactic(auto)]

mod arithmetic;
mod frames;
mod machine;
mod outcome;
mod redexes;
mod refocus;
mod shown;
mod stepping;

pub use frames::{Frame, Ready, Waiting};
pub use machine::run;
pub use outcome::{Arith, End};
pub use shown::{Shown, show_program};
pub use stepping::{Next, Redex, Rule, Run};
