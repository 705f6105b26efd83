// The parser's stack: tokens, and what phrases give, out of which productions make trees.
// Stands on parse_forms (parts that are no trees of their own) and parse_grammar (productions).
// Proved: a part that is pushed stands on top; each call gives the top part exactly where it is what the call's name
// says, and otherwise misfits.
#![tactic(auto)]

mod part;
mod refusal;
mod stack;

pub use part::Part;
pub use refusal::{BuildRefusal, Misfit};
pub use stack::Stack;
