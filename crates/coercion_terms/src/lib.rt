// The coercion terms of subtyping between signatures, one call for each rule, over encoded types.
// Stands on omega_shorthands and the crates of types and terms, whose definitions say what the terms are and which types
// they have.
// Proved: each call gives exactly the term of its rule, which has its type where the coercions inside have theirs.
#![tactic(auto)]

mod packing;
mod parts;

pub use packing::{abs_part, match_part};
pub use parts::{Functors, fields_part, functor_part, meta_part, same_part};
