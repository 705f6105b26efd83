// Names that are declared one after the other.
ghost use Rattle.std.specs.Prelude.{◌≡◌, [], ◌∷◌, ◌++◌, OnOk};
ghost use Rattle.show_order.specs.Inner.Places.{rank};

use crate::order::Id;
use fing_text::Span;
use omega_kinds::{Mem, Name};
use std::alloc::Global;
use std::collections::HashMap;
use std::marker::Model;

/// Where a component is declared, if the source shows it, and the order of the components inside of it.
#[derive(Clone, Copy)]
pub(crate) struct Component {
    pub(crate) at: Option<Span>,
    pub(crate) inside: Id,
}

impl Component {
    /// The source does not show it.
    pub(crate) const NONE: Component = Component {
        at: None,
        inside: Id::NONE,
    };
}

/// The names that a structure or a signature declares, one after the other, with what each of them declares. A name can
/// be declared more than once: the last one hides those before. Contracts see it as the list of names.
#[derive(Drop)]
pub(crate) struct Declared {
    list: Vec<(Name, Component)>,
    places: HashMap<Name, usize>,
}

impl Model for Declared {
    ghost use Rattle.std.specs.Prelude.{ℕ, List};
    ghost use Rattle.show_order.specs.Inner.Places.{HasPlaces, names_of};

    ghost Value = { List (List ℕ) };

    ghost view = { λ d. names_of d.list.items };

    ghost invariant = { λ d. HasPlaces d.places (names_of d.list.items) };
}

impl Declared {
    /// No names.
    pub(crate) fn new(alloc: Global) -> Declared
        ensures { result ≡ [] }
    {
        Declared {
            list: Vec::new(alloc),
            places: HashMap::new(alloc),
        }
    }

    /// One more name. `Err` is out of memory.
    pub(crate) fn push(&mut self, name: Name, component: Component) -> Result<(), Mem>
        ensures { OnOk result (self.new ≡ self.old ++ name ∷ []) }
    {
        self.list.reserve(1)?;
        let list = self.list.as_slice();
        let at = list.len();
        self.places.insert(name.share()?, at)?;
        // There is room.
        self.list.push((name, component))?;
        Ok(())
    }

    /// All names of another list that no later one there hides, in its order. `Err` is out of memory.
    pub(crate) fn push_all(&mut self, others: &Declared) -> Result<(), Mem> {
        for (at, other) in others.list.iter().enumerate() {
            if others.places.get(&other.0) == Some(&at) {
                self.push(other.0.share()?, other.1)?;
            }
        }
        Ok(())
    }

    /// The names with what they declare, one after the other.
    pub(crate) fn items(&self) -> &[(Name, Component)] {
        self.list.as_slice()
    }

    /// The place of a name: that of its last declaration, or for a name that is not declared the place after all others.
    pub(crate) fn rank(&self, name: &Name) -> usize
        ensures { result ≡ rank self.now name.now }
    {
        match self.places.get(name) {
            Some(at) => *at,
            None => self.list.len(),
        }
    }

    /// What a name declares: its last declaration.
    pub(crate) fn component(&self, name: &Name) -> Component {
        match self.list.get(self.rank(name)) {
            Some(item) => item.1,
            None => Component::NONE,
        }
    }
}
