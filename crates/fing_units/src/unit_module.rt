// Units that were elaborated apart.
use crate::interfaces::Interfaces;
use omega_kinds::Name;
use semantic_sigs::Module;

/// A unit that was elaborated apart: the interfaces of the units under which it was elaborated, its name, and its module,
/// whose free indexes count what these interfaces hide and name.
///
/// Separate units are this project's own.
#[derive(Drop)]
pub struct UnitModule {
    pub under: Interfaces,
    pub name: Name,
    pub module: Module,
}
