// The rules of modules in code, one call for each rule, over premises that are elaborated already.
// Stands on semantic_sigs, omega_shorthands, sig_instances and sig_rules (sets of names), and on module_judgments, whose
// definitions its contracts cite.
// Proved: each call gives the conclusion of its rule, and each refusal exactly where its condition holds, the first one in
// their order; of modules whose types are normal and have their kinds, and whose structures have different names.
#![tactic(auto)]

mod bindings;
mod functors;
mod hidden;
mod naming;
mod paths;
mod projecting;
mod refusal;
mod sequences;
mod standing;

pub use bindings::{bind_sig, bind_type, bind_val, end_struct};
pub use functors::{apply, functor_parts, gen_functor, seal};
pub use naming::named;
pub use paths::{path_sig, path_type, path_value};
pub use projecting::{packed, project};
pub use refusal::ModRefusal;
pub use sequences::{include_bind, seq_bind};
pub use standing::{raised, standing_part};
