// The rules of signatures and declarations in code: each call gives the conclusion of its rule out of premises that are
// handed in, or the refusal of the first condition that fails. And sets of declared names, and declarations in a row.
// Stands on sig_judgments, whose definitions say what is given and what is refused, and on semantic_sigs, in whose handles it
// works.
// Proved: what a call gives is the conclusion of its rule, and each refusal is one of its rule; out of memory alone is free.
#![tactic(auto)]

mod declarations;
mod gathering;
mod hidden;
mod name_set;
mod refinement;
mod refusal;
mod sequences;

pub use declarations::{decl_is, decl_meta, decl_module, decl_of, decl_val, functor_sig, include};
pub use gathering::Declarations;
pub use name_set::NameSet;
pub use refinement::where_type;
pub use refusal::SigRefusal;
pub use sequences::{distinct, seq_decl};
