// Omega text with line breaks, indentation and comments, made compact.
// Stands on omega_kinds (out of memory), omega_types and omega_terms (plain trees), and omega_spelling, whose definitions
// say what is an Omega text.
// Proved: `compact` gives exactly the text of the tokens; it has the same tokens (`same_tokens`), is an Omega text of
// just the type and the term that the text denotes (`same_meaning`), and an Omega text stays as it is
// (`omega_text_stays`).
#![tactic(auto)]

mod laws;
mod scan;
mod spelling;
#[cfg(test)]
mod tests;
mod token;

pub use laws::{omega_text_stays, same_meaning, same_tokens};
pub use scan::tokens;
pub use spelling::compact;
pub use token::Token;
