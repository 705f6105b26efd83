// Modules at the places of their names in an environment.
use crate::tree::Sig;
use omega_terms::Term;

/// A pure module that hides nothing, at a place of an environment: its signature as it stands there, how many type
/// variables come after that place, and its term, as it stands at the end of the environment.
#[derive(Drop)]
pub struct Standing<'a> {
    pub sig: &'a Sig,
    pub types: u64,
    pub term: Term,
}
