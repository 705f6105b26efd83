// Lists of interfaces.
ghost use Rattle.std.specs.Prelude.{◌≡◌, [], ◌∷◌, ◌++◌, IfOk, OnOk, OnErr, slice_get};
ghost use Rattle.std.specs.Option.{option_copied};

use omega_kinds::{Mem, Name};
use semantic_sigs::Abs;
use std::alloc::Global;
use std::marker::Model;

/// What units show to the units after them: the name of each with the signature of its module, in order. Each signature
/// stands under the interfaces before it, so that its free indexes count the types that these hide. Contracts see it as the
/// list of the pairs.
///
/// Separate units are this project's own.
#[derive(Drop)]
pub struct Interfaces {
    list: Vec<(Name, Abs)>,
}

impl Model for Interfaces {
    ghost use Rattle.std.specs.Prelude.{List};
    ghost use Rattle.unit_judgments.specs.Interfaces.{Interface};
    ghost use Rattle.fing_units.specs.Inner.Code.{interfaces_code};

    ghost Value = { List Interface };

    ghost coded = { interfaces_code };

    ghost view = { λ i. i.list.items };
}

impl Interfaces {
    /// No interfaces.
    pub fn new(alloc: Global) -> Interfaces
        ensures { result ≡ [] }
    {
        Interfaces {
            list: Vec::new(alloc),
        }
    }

    /// One more interface at the end. `Err` is out of memory, and the list stays as it was.
    pub fn push(&mut self, item: (Name, Abs)) -> Result<(), Mem>
        ensures ok { OnOk result (self.new ≡ self.old ++ item ∷ []) }
        ensures err { OnErr result (self.new ≡ self.old) }
    {
        self.list.push(item)?;
        Ok(())
    }

    /// The interfaces in their order.
    pub fn items(&self) -> &[(Name, Abs)]
        ensures { result.now ≡ self.now }
    {
        self.list.as_slice()
    }

    /// The interface at a place, counted from 0; `None` exactly past the end.
    pub fn get(&self, i: usize) -> Option<&(Name, Abs)>
        ensures { option_copied result ≡ slice_get self.now i }
    {
        self.list.get(i)
    }

    /// The same interfaces, with their parts shared. `Err` is out of memory.
    pub fn share(&self, alloc: Global) -> Result<Interfaces, Mem>
        ensures { IfOk result (λ i. i ≡ self.now) }
    {
        let mut copy = Interfaces::new(alloc);
        for item in &self.list {
            copy.push((item.0.share()?, item.1.share()?))?;
        }
        Ok(copy)
    }
}
