// What is said to people of a refusal: a sentence, a hint, and the section of docs/errors.md.
// Stands on show_text and show_types (pages and types), fing_lexer (places without tokens) and fing_refusals
// (reasons).
// Proved: the writing ends. What is written is only tested.
#![tactic(auto)]

mod explanation;
mod hints;
mod reasons;
mod sentences;
mod sources;

pub use explanation::{Explanation, put_end};
pub use hints::Around;
pub use reasons::{explanation_of, is_exchanged};
pub use sentences::put_sentence;
pub use sources::{lexical_explanation, lexical_place, syntax_explanation};
