// Pages of text for people, and sources as lines: where a byte stands, and the excerpt of a span with a mark under
// it.
// Stands on omega_kinds (out of memory), fing_text (spans), itoa (numbers in decimal) and unicode_width (columns).
// Proved: each function is safe and ends, for each source and each offset, and the number of a line is right.
#![tactic(auto)]

mod columns;
mod excerpt;
mod page;
#[cfg(test)]
mod tests;

pub use columns::put_shown;
pub use excerpt::{Line, Place, line_at, put_excerpt};
pub use page::Page;
