// Normal types put in for the type variables of a term, each type in the term being brought to normal form at once.
// Stands on omega_terms, which goes through the term, and on semantic_sigs, which puts types into types.
// Proved: `instance` gives the instance of the term that the definitions speak of.
#![tactic(auto)]

mod instances;

pub use instances::instance;
