// Hidden types: lists of their kinds, and their variables.
ghost use Rattle.std.specs.Prelude.{◌≡◌, ◌∷◌, ◌++◌, IfOk, OnOk, map};
ghost use Rattle.omega_kinds.specs.View.{kind_tree};
ghost use Rattle.omega_types.specs.Binders.{vars};
ghost use Rattle.omega_types.specs.EtaLong.{eta as eta_of};
ghost use Rattle.omega_types.specs.Ty.{Var};

use omega_kinds::{Kind, Kinds, Mem};
use omega_types::{Ty, TyNode};
use semantic_sigs::Witnesses;
use std::alloc::Global;
use type_normal::{NormalTy, normal, raise};

// The kinds of two lists, one after the other.
pub(crate) fn joined(alloc: Global, first: &[Kind], rest: &[Kind]) -> Result<Kinds, Mem>
    ensures { IfOk result (λ ks. ks ≡ map kind_tree first.now ++ map kind_tree rest.now) }
{
    let mut kinds = copied(alloc, first)?;
    add_kinds(&mut kinds, rest)?;
    Ok(kinds)
}

// The kinds of a list.
pub(crate) fn copied(alloc: Global, list: &[Kind]) -> Result<Kinds, Mem>
    ensures { IfOk result (λ ks. ks ≡ map kind_tree list.now) }
{
    let mut kinds = Kinds::new(alloc);
    add_kinds(&mut kinds, list)?;
    Ok(kinds)
}

// More kinds.
fn add_kinds(kinds: &mut Kinds, more: &[Kind]) -> Result<(), Mem>
    ensures { OnOk result (kinds.new ≡ kinds.old ++ map kind_tree more.now) }
{
    for kind in more {
        kinds.push(kind.share()?)?;
    }
    Ok(())
}

// The innermost variable, of a kind, in normal form.
pub(crate) fn innermost(alloc: Global, kind: &Kind) -> Result<NormalTy, Mem>
    ensures { IfOk result (λ t. t ≡ eta_of (kind_tree kind.now) (Var 0)) }
{
    let variable = Ty::make(alloc, TyNode::Var(0))?;
    let scope = [kind.share()?];
    normal(alloc, &scope, &variable, kind)
}

// A variable of a kind, in normal form.
pub(crate) fn variable(alloc: Global, kind: &Kind, index: u64) -> Result<NormalTy, Mem>
    ensures { IfOk result (λ t. t ≡ eta_of (kind_tree kind.now) (Var index)) }
{
    let own = innermost(alloc, kind)?;
    raise(alloc, &own, index, 0)
}

// A type for the first of some hidden types, and for each later one, of these kinds, its own variable.
pub(crate) fn with_own(alloc: Global, first: NormalTy, later: &[Kind]) -> Result<Witnesses, Mem>
    ensures { IfOk result (λ ts. ts ≡ first ∷ vars (map kind_tree later.now)) }
{
    let mut types = Witnesses::new(alloc);
    types.push(first)?;
    let mut index = later.len() as u64;
    for kind in later {
        index -= 1;
        let own = variable(alloc, kind, index)?;
        types.push(own)?;
    }
    Ok(types)
}
