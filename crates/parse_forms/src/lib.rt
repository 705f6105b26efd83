// What the parser builds trees with: names and places out of tokens, derived forms and chains.
// Stands on parse_grammar (the grammar) and fing_syntax (trees).
// Proved: each derived form and each chain is the tree of the definitions.
#![tactic(auto)]

mod chains;
mod forms;
mod kept;
mod part;
mod tokens;

pub use chains::{
    apply_all, args_chain, arrow_chain, ascribe_all, get_all, kind_chain, ops_chain, project_all,
    projected, refine_all, ty_chain,
};
pub use forms::{
    abstracted, apply_mod, data_bind, data_decl, declared_type, let_exp, let_mod, pack_exp,
    seal_mod, show_mod,
};
pub use kept::Kept;
pub use part::{Abstraction, Ascription, KindPart, TypeTail, Where};
pub use tokens::{bytes_in, named, number_in, up_to};
