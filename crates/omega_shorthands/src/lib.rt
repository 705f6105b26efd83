// Terms that stand for a let, and for several instantiations, type functions, packs and opens in a row.
// Stands on the crates of types and terms.
// Proved: each call gives the term of the definitions; packed terms have the types hidden one after the other, each inner
// pack at the normal form of the rest of the type.
#![tactic(auto)]

mod shorthands;

pub use shorthands::{insts, let_in, one_field, opens, pack_up, ty_lam_over, variable};
