// Packages in code: the order of a package's quantifiers, package types, modules packed and unpacked.
// Stands on semantic_sigs, sig_roots and omega_shorthands, and on package_judgments and package_laws, whose definitions
// its contracts cite.
// Proved: `norm` gives the signature with its quantifiers in their order; `pack_type`, `pack_value` and `unpack_module`
// give the conclusions of their rules, and `unpack_module` refuses exactly where the type is another one than that of the
// package; `pack_type` gives one type for signatures that match each other, under two conditions on root paths.
#![tactic(auto)]

mod first;
mod norms;
mod ordering;
mod packing;
mod refusal;
mod sweeping;

pub use norms::norm;
pub use packing::{pack_type, pack_value, unpack_module};
pub use refusal::UnpackRefusal;
