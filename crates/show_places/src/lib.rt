// Places in a program: the smallest phrase at a line and a column, and the program with this phrase bound to a name
// before one that nothing has, so that elaboration is refused where the phrase is bound and in scope.
// Stands on fing_lexer (tokens), fing_syntax (trees) and show_text (columns).
// Proved: the search and the making of the tokens are safe and end. What is found and made is only tested.
#![tactic(auto)]

mod found;
mod offsets;
mod phrases;
mod planting;

pub use found::{Found, Sort};
pub use offsets::offset_at;
pub use phrases::phrase_at;
pub use planting::{BOUND, MISSING, planted};
