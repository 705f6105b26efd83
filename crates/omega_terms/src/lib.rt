// Terms of System Fω: shared trees with de Bruijn indexes, and what typing, values, steps, faults and texts of terms are.
// Stands on omega_kinds and omega_types.
// Proved: `walk` makes of each type and each variable what a change makes of it below the binders round it; `shift_term`,
// `put_term` and `put_type` are the operations of the definitions; `is_value` decides values and `nodes` counts; renaming
// and substitution keep types; typing with normal types is typing; each coercion term is typed where its parts are.
#![tactic(auto)]

mod counting;
mod inner;
mod labels;
mod op;
mod putting_terms;
mod putting_types;
mod shifting;
mod theory;
mod tree;
mod version;
mod walking;

pub use counting::nodes;
pub use inner::{Inner, OUTSIDE};
pub use labels::result_label;
pub use op::Op;
pub use putting_terms::put_term;
pub use putting_types::put_type;
pub use shifting::shift_term;
pub use theory::{coercion_rows, typing};
pub use tree::{Term, TermFields, TermNode, is_value};
pub use version::Version;
pub use walking::{Change, walk};
