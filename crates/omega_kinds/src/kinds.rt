// Lists of kinds.
ghost use Rattle.std.specs.Prelude.{◌≡◌, [], ◌∷◌, ◌++◌, IfOk, OnOk, OnErr, map, slice_get};
ghost use Rattle.std.specs.Option.{option_copied, option_map};
ghost use Rattle.omega_kinds.specs.View.{kind_tree};

use crate::kind::Kind;
use crate::memory::Mem;
use std::alloc::Global;
use std::marker::Model;

/// A list of kinds, as that of the variables which a signature quantifies, the outermost first.
/// Contracts see it as the list of their plain trees.
#[derive(Drop)]
pub struct Kinds {
    list: Vec<Kind>,
}

impl Model for Kinds {
    ghost use Rattle.std.specs.Prelude.{List, map};
    ghost use Rattle.omega_kinds.specs.Kind.{Kind as KindTree};
    ghost use Rattle.omega_kinds.specs.View.{kind_tree};
    ghost use Rattle.omega_kinds.specs.Inner.Code.{kinds_code};

    ghost Value = { List KindTree };

    ghost coded = { kinds_code };

    ghost view = { λ k. map kind_tree k.list.items };
}

impl Kinds {
    /// No kinds.
    pub fn new(alloc: Global) -> Kinds
        ensures { result ≡ [] }
    {
        Kinds {
            list: Vec::new(alloc),
        }
    }

    /// One more kind at the end. `Err` is out of memory, and the list stays as it was.
    pub fn push(&mut self, kind: Kind) -> Result<(), Mem>
        ensures ok { OnOk result (self.new ≡ self.old ++ kind_tree kind ∷ []) }
        ensures err { OnErr result (self.new ≡ self.old) }
    {
        self.list.push(kind)?;
        Ok(())
    }

    /// The kinds in their order.
    pub fn items(&self) -> &[Kind]
        ensures { map kind_tree result.now ≡ self.now }
    {
        self.list.as_slice()
    }

    /// The kind at a place, counted from 0; `None` exactly past the end.
    pub fn get(&self, i: usize) -> Option<&Kind>
        ensures { option_map kind_tree (option_copied result) ≡ slice_get self.now i }
    {
        self.list.get(i)
    }

    /// The same kinds, with their parts shared. `Err` is out of memory.
    pub fn share(&self, alloc: Global) -> Result<Kinds, Mem>
        ensures { IfOk result (λ k. k ≡ self.now) }
    {
        let mut copy = Kinds::new(alloc);
        for kind in &self.list {
            copy.push(kind.share()?)?;
        }
        Ok(copy)
    }
}
