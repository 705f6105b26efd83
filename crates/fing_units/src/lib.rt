// Separate units: their interfaces, the environment that these give, and the link of units that were elaborated apart.
// Stands on semantic_sigs (signatures, environments), module_rules (bindings in a row) and sig_rules (sets of names), and on
// unit_judgments, whose definitions its contracts cite.
// Proved: `env_of` gives the environment of interfaces; `link` gives the one link of units that stand under the interfaces
// of those before them, and else the index of the first that does not. Want of memory alone is free.
#![tactic(auto)]

mod comparing;
mod interfaces;
mod linking;
mod refusal;
mod scopes;
mod unit_module;

pub use interfaces::Interfaces;
pub use linking::{join, link};
pub use refusal::LinkRefusal;
pub use scopes::{env_of, push_interface};
pub use unit_module::UnitModule;
