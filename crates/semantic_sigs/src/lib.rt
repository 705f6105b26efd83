// Semantic signatures in code: shared trees, what elaboration makes of phrases, environments, and operations on them.
// Stands on the crates of types and terms, and on sig_definitions and sig_laws, whose definitions its contracts cite.
// Proved: `raise_sig`, `lower_sig`, `renumber_sig` and their like rename as the definitions do, `instantiate` and
// `instantiate_abs` give the normal form of a signature at types, `sig_mentions` decides mentions, and `least_in_sig` finds
// the least free index from a number on, `field` finds a part by its name and `part` by a path, `encode` and `encode_sig`
// give the encoding, and `find` gives exactly what an environment has for a name.
#![tactic(auto)]

mod changing;
mod encoding;
mod env;
mod forms;
mod heads;
mod made;
mod mentioning;
mod part_terms;
mod parts;
mod path;
mod standing;
mod tree;
mod witnesses;

pub use changing::{
    instantiate, instantiate_abs, lower_sig, raise_abs, raise_sig, renumber_abs, renumber_sig,
};
pub use encoding::{encode, encode_sig};
pub use env::{Entry, Env};
pub use forms::Functor;
pub use made::{Kinded, Module, Typed, Why};
pub use mentioning::{least_in_sig, sig_mentions};
pub use part_terms::{type_term, value_term};
pub use parts::{field, find_field, part};
pub use path::{Item, Path};
pub use standing::Standing;
pub use tree::{Abs, Sig, SigFields, SigNode};
pub use type_normal::put_types;
pub use witnesses::Witnesses;
