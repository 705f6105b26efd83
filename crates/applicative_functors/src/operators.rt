// Operators over the types that a functor's parameter hides.
ghost use Rattle.std.specs.Prelude.{◌≡◌, IfOk};
ghost use Rattle.omega_kinds.specs.View.{kind_tree};
ghost use Rattle.omega_types.specs.Binders.{arrow_over as arrow_over_of, lam_over as lam_over_of};
ghost use Rattle.sig_definitions.specs.Lifting.{lifted_kinds as lifted_kinds_of};

use omega_kinds::{Kind, Kinds, Mem, arrow};
use omega_types::{Ty, TyNode};
use std::alloc::Global;

// The kind of an operator that takes a type of each kind, the first one first. `Err` is out of memory, as for all calls
// here.
#[tactic(auto, using(crate::proofs::Loops::over_steps))]
pub(crate) fn arrow_over(alloc: Global, kinds: &Kinds, target: Kind) -> Result<Kind, Mem>
    ensures { IfOk result (λ k. kind_tree k ≡ arrow_over_of kinds.now (kind_tree target)) }
{
    let mut kind = target;
    for from in kinds.items().iter().rev() {
        kind = arrow(alloc, from.share()?, kind)?;
    }
    Ok(kind)
}

// The same for each kind of a list.
pub(crate) fn lifted_kinds(alloc: Global, kinds: &Kinds, hidden: &Kinds) -> Result<Kinds, Mem>
    ensures { IfOk result (λ ks. ks ≡ lifted_kinds_of kinds.now hidden.now) }
{
    let mut lifted = Kinds::new(alloc);
    for kind in hidden.items() {
        lifted.push(arrow_over(alloc, kinds, kind.share()?)?)?;
    }
    Ok(lifted)
}

// The operator that takes a type of each kind, the first one first, and gives the body.
#[tactic(auto, using(crate::proofs::Loops::over_steps))]
pub(crate) fn lam_over(alloc: Global, kinds: &Kinds, body: Ty) -> Result<Ty, Mem>
    ensures { IfOk result (λ t. t ≡ lam_over_of kinds.now body) }
{
    let mut ty = body;
    for kind in kinds.items().iter().rev() {
        ty = Ty::make(alloc, TyNode::Lam(kind.share()?, ty))?;
    }
    Ok(ty)
}
