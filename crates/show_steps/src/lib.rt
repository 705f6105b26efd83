// The run of a term for people: its first steps, each with its rule, its redex marked and its frames round it, and its end.
// Stands on omega_machine (steps), omega_terms (terms), show_terms and show_paper (the notation) and show_text (pages).
// Proved: the end is exactly the outcome of the term within the budget, which `run` of omega_machine gives; the steps that
// are shown are those that `Run::next` answers. How a step is written is only tested.
#![tactic(auto)]

mod contexts;
mod forms;
mod page;
mod walk;

pub use walk::{Walk, show_steps};
