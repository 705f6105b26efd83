// Pages of refusals in colour, for terminals: the title, the frame of the excerpt, the mark and the notes.
// Stands on omega_kinds (out of memory).
// Proved: a page in colour is the page with nothing but signs of colour between its bytes. Which bytes get which colour is
// only tested.
#![tactic(auto)]

mod colouring;
mod lines;
mod style;
#[cfg(test)]
mod tests;

pub use colouring::coloured;
pub use style::Style;
