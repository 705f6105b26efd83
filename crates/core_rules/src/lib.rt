// The rules of types and expressions in code, sums and cases among them: each call gives the conclusion of its rule out of
// premises that are handed in, or the refusal of the first condition that fails.
// Stands on core_judgments, whose definitions say what is given and what is refused, and on the crates of types and terms and
// semantic_sigs, in whose handles it works.
// Proved: what a call gives is the conclusion of its rule, and each refusal is one of its rule; out of memory alone is free.
#![tactic(auto)]

mod expressions;
mod premises;
mod records;
mod refusal;
mod sums;
mod types;

pub use expressions::{
    Literal, apply_exp, fix_exp, get_exp, if_exp, inst_exp, lam_exp, literal_exp, op_exp,
    ty_lam_exp,
};
pub use records::{fields_exp, fields_ty};
pub use refusal::CoreRefusal;
pub use sums::{case_exp, case_part, inj_exp, is_sum, sum_ty};
pub use types::{Base, all_ty, apply_ty, arrow_ty, base_ty, lam_ty};
