// Omega text for people: each form on a line where it fits, and else its parts on lines of their own.
// Stands on omega_write (Omega text), omega_compact (tokens and compact text), show_layout and show_text (pages),
// omega_types, omega_terms, fing_text and omega_kinds.
// Proved: what is shown has the same tokens, so that it is made compact to the same text. Where its lines end is only
// tested.
#![tactic(auto)]

mod emission;
mod lines;
#[cfg(test)]
mod tests;

pub use emission::readable_omega;
pub use lines::readable;
