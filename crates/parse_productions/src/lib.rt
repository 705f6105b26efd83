// The productions of the grammar, played on the parser's stack.
// Stands on parse_units and parse_sums (productions), parse_stack (the stack) and parse_forms (derived forms and chains).
// Proved (`play`): a production takes its parts off the stack and puts the tree of the definitions there, or misfits
// exactly where the stack does not hold its parts.
#![tactic(auto)]

mod arguments;
mod atoms;
mod binds;
mod decls;
mod exps;
mod kinds;
mod modules;
mod operators;
mod paths;
mod playing;
mod sigs;
mod types;

pub use playing::play;
