// Normal types as numbered nodes: one number for each type, and the operations of a checker on numbers.
// A node holds the outermost form of a type with the numbers of its parts, and stands in a set that keeps its order.
// Stands on omega_kinds, omega_types and type_normal.
// Proved: a store is a list of distinct types, and a number is a place in it; `put` puts a type there once, gives two
// types one number if and only if they are the same, and leaves all earlier numbers as they were. `shift`, `lower` and
// `fill` give the number of exactly the type that their definitions name, whatever was remembered before.
#![tactic(auto)]

mod checking;
mod comparing;
mod digest;
mod filling;
mod finding;
mod hinting;
mod low;
mod lowering;
mod memo;
mod node;
mod reading;
mod shifting;
mod store;
mod types;

pub use finding::copied;
pub use node::{Form, Node};
pub use store::Store;
pub use types::Types;
