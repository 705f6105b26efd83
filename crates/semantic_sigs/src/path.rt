// Paths into signatures.
ghost use Rattle.std.specs.Prelude.{◌≡◌, [], ◌∷◌, ◌++◌, IfOk, OnOk, OnErr, map, slice_get};
ghost use Rattle.std.specs.Option.{option_copied, option_map};
ghost use Rattle.semantic_sigs.specs.Inner.Items.{item_of};

use omega_kinds::{Mem, Name};
use std::alloc::Global;
use std::marker::Model;

/// A step into a signature: a field of a structure, a functor's parameter, its result, or what a signature part holds.
#[derive(Debug, Drop)]
pub enum Item {
    Part(Name),
    Arg,
    Res,
    Meta,
}

impl Item {
    /// The same step, with its name shared. `Err` is out of memory.
    pub fn share(&self) -> Result<Item, Mem>
        ensures { IfOk result (λ item. item ≡ self.now) }
    {
        match self {
            Item::Part(name) => Ok(Item::Part(name.share()?)),
            Item::Arg => Ok(Item::Arg),
            Item::Res => Ok(Item::Res),
            Item::Meta => Ok(Item::Meta),
        }
    }
}

/// A path into a signature, from the outside in. Contracts see it as the list of its steps.
#[derive(Drop)]
pub struct Path {
    list: Vec<Item>,
}

impl Model for Path {
    ghost use Rattle.std.specs.Prelude.{map};
    ghost use Rattle.sig_definitions.specs.Explicit.SigPath.{SigPath};
    ghost use Rattle.semantic_sigs.specs.Inner.Items.{item_of, path_code};

    ghost Value = { SigPath };

    ghost coded = { path_code };

    ghost view = { λ p. map item_of p.list.items };
}

impl Path {
    /// No steps.
    pub fn new(alloc: Global) -> Path
        ensures { result ≡ [] }
    {
        Path {
            list: Vec::new(alloc),
        }
    }

    /// One more step at the end. `Err` is out of memory, and the path stays as it was.
    pub fn push(&mut self, item: Item) -> Result<(), Mem>
        ensures ok { OnOk result (self.new ≡ self.old ++ item_of item ∷ []) }
        ensures err { OnErr result (self.new ≡ self.old) }
    {
        self.list.push(item)?;
        Ok(())
    }

    /// The steps in their order.
    pub fn items(&self) -> &[Item]
        ensures { map item_of result.now ≡ self.now }
    {
        self.list.as_slice()
    }

    /// The step at a place, counted from 0; `None` exactly past the end.
    pub fn get(&self, i: usize) -> Option<&Item>
        ensures { option_map item_of (option_copied result) ≡ slice_get self.now i }
    {
        self.list.get(i)
    }
}
