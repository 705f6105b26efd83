// Lists of normal types.
ghost use Rattle.std.specs.Prelude.{◌≡◌, [], ◌∷◌, ◌++◌, IfOk, OnOk, OnErr, slice_get};
ghost use Rattle.std.specs.Option.{option_copied};

use omega_kinds::Mem;
use std::alloc::Global;
use std::marker::Model;
use type_normal::NormalTy;

/// A list of normal types, as those that a pure module keeps for the variables which its signature hides, the first for
/// the outermost variable. Contracts see it as the list of their plain trees.
#[derive(Drop)]
pub struct Witnesses {
    list: Vec<NormalTy>,
}

impl Model for Witnesses {
    ghost use Rattle.std.specs.Prelude.{List};
    ghost use Rattle.omega_types.specs.Ty.{Ty as TyTree};
    ghost use Rattle.semantic_sigs.specs.Inner.Code.{tys_code};

    ghost Value = { List TyTree };

    ghost coded = { tys_code };

    ghost view = { λ w. w.list.items };
}

impl Witnesses {
    /// No types.
    pub fn new(alloc: Global) -> Witnesses
        ensures { result ≡ [] }
    {
        Witnesses {
            list: Vec::new(alloc),
        }
    }

    /// One more type at the end. `Err` is out of memory, and the list stays as it was.
    pub fn push(&mut self, ty: NormalTy) -> Result<(), Mem>
        ensures ok { OnOk result (self.new ≡ self.old ++ ty ∷ []) }
        ensures err { OnErr result (self.new ≡ self.old) }
    {
        self.list.push(ty)?;
        Ok(())
    }

    /// The types in their order.
    pub fn items(&self) -> &[NormalTy]
        ensures { result.now ≡ self.now }
    {
        self.list.as_slice()
    }

    /// The type at a place, counted from 0; `None` exactly past the end.
    pub fn get(&self, i: usize) -> Option<&NormalTy>
        ensures { option_copied result ≡ slice_get self.now i }
    {
        self.list.get(i)
    }

    /// The same types, with their parts shared. `Err` is out of memory.
    pub fn share(&self, alloc: Global) -> Result<Witnesses, Mem>
        ensures { IfOk result (λ w. w ≡ self.now) }
    {
        let mut copy = Witnesses::new(alloc);
        for ty in &self.list {
            copy.push(ty.share()?)?;
        }
        Ok(copy)
    }
}
