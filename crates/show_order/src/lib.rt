// The order in which a source declares the components of its modules and signatures, and where it declares them.
// Stands on omega_kinds (names) and fing_syntax (phrases).
// Proved: fields are shown each once, those of the names that are declared at the places of their last declarations, and
// all others after them; reading ends. That these names are those of the source is only tested.
#![tactic(auto)]

mod declared;
mod order;
mod reader;
mod scope;
mod sides;

pub use order::{Order, Orders};
pub use reader::{orders_of, orders_of_bound, sides_of};
pub use sides::Sides;
