// The conditions of several rules, and the types and terms that they give.
ghost use Rattle.std.specs.Prelude.{◌≡◌, ◌≢◌, ◌↔◌, IfErr, IfOk, IfSome, IsTrue, OnOk};
ghost use Rattle.omega_kinds.specs.Kind.{Kind as KindTree};
ghost use Rattle.omega_kinds.specs.View.{kind_tree};
ghost use Rattle.omega_types.specs.Inner.View.{ty_of};
ghost use Rattle.core_judgments.specs.CoreWhy.{CoreWhy as Why};
ghost use Rattle.core_rules.specs.Inner.Plain.{plain_why};

use crate::refusal::CoreRefusal;
use omega_kinds::{Kind, Mem};
use omega_types::{Ty, TyNode};
use std::alloc::Global;
use type_normal::{NormalTy, as_normal, same};

// The kind is `*`.
pub(crate) fn expect_star(kind: &Kind) -> Result<(), CoreRefusal>
    ensures ok { OnOk result (kind_tree kind.now ≡ KindTree.Star) }
    ensures refused { IfErr result (λ e. IfSome (plain_why e) (λ why. (kind_tree kind.now ≢ KindTree.Star) × (why ≡ Why.KindDiffer (kind_tree kind.now) KindTree.Star))) }
{
    match kind {
        Kind::Star => Ok(()),
        Kind::Arrow(_, _, _) => Err(CoreRefusal::KindDiffer(kind.share()?, Kind::Star)),
    }
}

// The type that was found is the one that is needed.
pub(crate) fn expect_same(found: &NormalTy, needed: &NormalTy) -> Result<(), CoreRefusal>
    ensures ok { OnOk result (found.now ≡ needed.now) }
    ensures refused { IfErr result (λ e. IfSome (plain_why e) (λ why. (found.now ≢ needed.now) × (why ≡ Why.Differ found.now needed.now))) }
{
    if same(found, needed) {
        Ok(())
    } else {
        Err(CoreRefusal::Differ(found.share()?, needed.share()?))
    }
}

// A type by its outermost form. `Err` is out of memory.
pub(crate) fn made(alloc: Global, node: TyNode) -> Result<NormalTy, Mem>
    ensures { IfOk result (λ t. t ≡ ty_of node) }
{
    Ok(as_normal(Ty::make(alloc, node)?))
}

// A part of a normal type. `Err` is out of memory.
pub(crate) fn part(ty: &Ty) -> Result<NormalTy, Mem>
    ensures { IfOk result (λ t. t ≡ ty.now) }
{
    Ok(as_normal(ty.share()?))
}
