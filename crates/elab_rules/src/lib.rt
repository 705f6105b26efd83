// What the elaboration of phrases calls at one phrase: the rule of its form, refused at a place in an environment, what it
// enters in an environment and leaves again, and modules that are written by names alone.
// Stands on the rules in code, one crate for each kind of rule, and on elab_judgments and elab_laws, whose judgments over
// phrases some contracts cite.
// Proved: what a call gives is the conclusion of its rule, or is derived by the judgments; each refusal is one of its rule at
// the place, or want of memory, of which nothing more is said.
#![tactic(auto)]

pub mod data_rules;
pub mod exp_rules;
mod mod_refusing;
pub mod mod_rules;
pub mod named;
pub mod naming;
pub mod package_rules;
pub mod path_rules;
pub mod paths;
pub mod places;
pub mod refusing;
pub mod scopes;
pub mod sets;
pub mod signature_rules;
pub mod sum_rules;
pub mod type_rules;
