// Normal types of System Fω: the normal form of each type, and what is decided by it.
// Stands on omega_kinds and omega_types.
// Proved: `normal` gives the one beta-normal eta-long form, `hsubst` and `put_types` that of a substitution; `same` decides
// conversion between normal types, `mentions` whether a convertible type can do without a variable; `least_free` finds the
// least free index, `renumber` renames, and `raise` undoes `lower` where nothing that is left out is mentioned.
#![tactic(auto)]

mod arrows;
mod comparing;
mod filling;
mod lowering;
mod mentioning;
mod normal_ty;
mod normalising;
mod placing;
mod putting;
mod renumbering;

pub use arrows::function_type;
pub use comparing::same;
pub use filling::hsubst;
pub use lowering::{lower, lower_from};
pub use mentioning::{least_free, lesser, mentions};
pub use normal_ty::{NormalTy, as_normal, plain, raise};
pub use normalising::normal;
pub use putting::put_types;
pub use renumbering::renumber;
