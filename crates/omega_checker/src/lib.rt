// The checker of System Fω: it finds one normal type for each term, and compares it with the type that is asked for.
// Each normal type has a number in a store, and two numbers are compared in one step; the store comes out.
// Stands on omega_kinds, omega_types, type_normal, type_store, omega_terms and omega_node_laws.
// Proved: `check` says yes exactly where the typing rules, with conversion anywhere, give the term the type; a `Checked`
// exists only for a closed term with a closed type that it has, and its store has the normal form of the type of each of
// the term's nodes.
#![tactic(auto)]

mod checked;
mod forms;
mod naming;
mod normality;
mod putting;
mod scope;
mod synthesis;

pub use checked::{Checked, check};
