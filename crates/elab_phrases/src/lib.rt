// The elaboration of phrases: types, expressions, signatures, declarations, modules and bindings, each in an environment.
// Stands on elab_rules, the rules at a place, and on elab_judgments and elab_laws, whose judgments over phrases its contracts
// cite.
// Proved (for `structure` and for a call for each form of phrase): what is answered is derived by the judgments, and each
// refusal is one of the phrase, or want of memory, of which nothing more is said.
#![tactic(auto)]

mod bindings;
mod declarations;
mod expressions;
mod modules;
mod phrases;
mod sigs;
mod sums;
mod types;
mod uses;

pub use bindings::structure;
pub use elab_rules::scopes::leave;
pub use elab_rules::sets::NameSet;
pub use modules::sealed_in;
pub use phrases::{expression_phrase, module_in, module_phrase, signature_phrase, type_phrase};
