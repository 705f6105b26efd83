// Lists of names.
ghost use Rattle.std.specs.Prelude.{◌≡◌, [], ◌∷◌, ◌++◌, OnOk, OnErr, slice_get};
ghost use Rattle.std.specs.Option.{option_copied};

use crate::memory::Mem;
use crate::name::Name;
use std::alloc::Global;
use std::marker::Model;

/// A list of names. Contracts see it as the list of their bytes.
#[derive(Drop)]
pub struct Names {
    list: Vec<Name>,
}

impl Model for Names {
    ghost use Rattle.std.specs.Prelude.{List, ℕ};

    ghost Value = { List (List ℕ) };

    ghost view = { λ n. n.list.items };
}

impl Names {
    /// No names.
    pub fn new(alloc: Global) -> Names
        ensures { result ≡ [] }
    {
        Names {
            list: Vec::new(alloc),
        }
    }

    /// One more name at the end. `Err` is out of memory, and the list stays as it was.
    pub fn push(&mut self, name: Name) -> Result<(), Mem>
        ensures ok { OnOk result (self.new ≡ self.old ++ name ∷ []) }
        ensures err { OnErr result (self.new ≡ self.old) }
    {
        self.list.push(name)?;
        Ok(())
    }

    /// The names in their order.
    pub fn items(&self) -> &[Name]
        ensures { result.now ≡ self.now }
    {
        self.list.as_slice()
    }

    /// The name at a place, counted from 0; `None` exactly past the end.
    pub fn get(&self, i: usize) -> Option<&Name>
        ensures { option_copied result ≡ slice_get self.now i }
    {
        self.list.get(i)
    }
}
