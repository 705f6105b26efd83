// Kinds, labels, names and effects: what every other crate names.
// Stands on std alone.
// Proved: `same_kind` decides equality of kinds; `compare` is the strict total order of labels, the reserved
// ones first and then the names by their bytes; lists of kinds and of names are lists; `share` gives the same value.
#![tactic(auto)]

mod effect;
mod extent;
mod kind;
mod kinds;
mod label;
mod memory;
mod name;
mod names;

pub use effect::Effect;
pub use extent::{Extent, NOTHING};
pub use kind::{Kind, arrow, same_kind};
pub use kinds::Kinds;
pub use label::{Label, compare, same_label};
pub use memory::Mem;
pub use name::{Name, name_of, same_name};
pub use names::Names;
