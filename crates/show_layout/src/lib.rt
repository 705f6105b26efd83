// Texts laid out in lines of limited width: a group that fits on its line stands on it, and else each of its breaks is
// a new line.
// Stands on omega_kinds (out of memory) and show_text (pages).
// Proved: each function is safe and ends, and the columns of a text are its bytes without those that go on a
// character. How a text is laid out is only tested.
#![tactic(auto)]

mod pieces;
#[cfg(test)]
mod tests;
mod widths;
mod writing;

pub use pieces::Layout;
pub use writing::{Lines, put_layout};
