// The productions of sums, of recursive types, and of `case` and `if`, played on the parser's stack.
// Stands on parse_stack (the stack) and parse_forms (derived forms).
// Proved: a production takes its parts off the stack and puts the tree of the definitions there, or misfits exactly where
// the stack does not hold its parts.
#![tactic(auto)]

mod choices;
mod data;
mod sums;

pub use choices::{branch, case_of, if_else, next_branch, no_branches};
pub use data::{data_binding, data_declaration, roll, unroll};
pub use sums::{injection, sum_type};
