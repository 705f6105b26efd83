// Copies of environments of elaboration.
// Stands on semantic_sigs (environments), type_normal (types of values) and omega_kinds (kinds, names and out of memory).
// Proved: a copy is the environment, and the environment stays as it was.
#![tactic(auto)]

mod copying;

pub use copying::copy_of;
