// The rest of a structure on the way: pure bindings whose hidden types are put into what comes after them all at once.
// Stands on semantic_sigs, omega_shorthands, sig_instances and module_rules, and on module_laws and module_judgments, whose
// definitions its contracts cite.
// Proved: what a rest comes to is what the rule of a sequence makes of its bindings from the last one to the first.
#![tactic(auto)]

mod gathering;
mod rests;

pub use rests::Rest;
