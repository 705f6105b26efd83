// Types of System Fω: shared trees with de Bruijn indexes, shifting, substitution and kinding.
// Stands on omega_kinds.
// Proved: `shift`, `substitute` and `kind_of` are the operations of the definitions; each kinded type has exactly
// one normal form, which hereditary substitution computes, and conversion is decided by it.
#![tactic(auto)]

mod finding;
mod kinding;
mod levels;
mod putting;
mod shifting;
mod theory;
mod tree;
mod walking;

pub use finding::part_at;
pub use kinding::{is_star, kind_of, share_context, variable_kind};
pub use levels::next_level;
pub use putting::substitute;
pub use shifting::shift;
pub use theory::{inversion, laws, normal_forms, normalisers};
pub use tree::{Ty, TyFields, TyNode};
pub use walking::{TyChange, is_closed, walk_type};
