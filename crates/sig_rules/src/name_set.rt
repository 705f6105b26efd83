// Sets of names, in their order.
ghost use Rattle.std.specs.Prelude.{◌≡◌, ◌↔◌, [], IfOk, IsFalse};
ghost use Rattle.sig_definitions.specs.Signatures.FieldOrder.{with_name};
ghost use Rattle.sig_definitions.specs.Signatures.RecordOrder.{IsNew};

use omega_kinds::{Mem, Name, Names};
use std::alloc::Global;
use std::collections::BTreeSet;
use std::marker::Model;

/// A set of names. Contracts see it as the list of its names, in their order.
pub struct NameSet {
    names: BTreeSet<Name>,
}

impl Model for NameSet {
    ghost use Rattle.std.specs.Prelude.{List, ℕ};

    ghost Value = { List (List ℕ) };

    ghost view = { λ n. n.names.keys };
}

impl Drop for NameSet {
    fn drop(self) {
        let NameSet { names } = self;
        drop(names);
    }
}

impl NameSet {
    /// No names.
    pub fn new(alloc: Global) -> NameSet
        ensures { result ≡ [] }
    {
        NameSet {
            names: BTreeSet::new(alloc),
        }
    }

    /// Whether the name is one of them.
    pub fn contains(&self, name: &Name) -> bool
        ensures { IsFalse result ↔ IsNew name.now self.now }
    {
        self.names.contains(name)
    }

    /// The names, in their order. `Err` is out of memory, as for all calls below.
    pub fn list(&self, alloc: Global) -> Result<Names, Mem>
        ensures { IfOk result (λ n. n ≡ self.now) }
    {
        let mut list = Names::new(alloc);
        for name in &self.names {
            list.push(name.share()?)?;
        }
        Ok(list)
    }

    /// A name more.
    pub fn with(self, name: &Name) -> Result<NameSet, Mem>
        ensures { IfOk result (λ n. n ≡ with_name name.now self) }
    {
        let NameSet { mut names } = self;
        names.insert(name.share()?)?;
        Ok(NameSet { names })
    }
}
