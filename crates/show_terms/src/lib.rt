// Terms of System Fω in the notation of the literature, as text and as LaTeX for math mode.
// Stands on show_paper (types and the table of symbols), show_text (pages), omega_types and omega_terms (types and terms)
// and itoa (numbers in decimal).
// Proved: the writing ends. How a term is written is only tested.
#![tactic(auto)]

mod forms;
mod terms;
mod writer;

pub use forms::{Room, is_function, operator_text};
pub use terms::{put_cases, put_opened, put_part, put_term};
pub use writer::TermWriter;
