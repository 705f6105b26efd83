// The conditions of several rules, and the types that they give.
ghost use Rattle.std.specs.Prelude.{◌≡◌, ◌≢◌, IfErr, IfOk, IfSome, OnOk};
ghost use Rattle.omega_kinds.specs.Kind.{Kind as KindTree};
ghost use Rattle.omega_kinds.specs.View.{kind_tree};
ghost use Rattle.omega_types.specs.Ty.{Ty as TyTree};
ghost use Rattle.core_judgments.specs.DataRules.{DataWhy as Why, IsNoMu};
ghost use Rattle.data_types.specs.Inner.Plain.{plain_why, unfolded};

use crate::refusal::DataRefusal;
use omega_kinds::Kind;
use omega_types::TyNode;
use std::alloc::Global;
use type_normal::{NormalTy, as_normal, hsubst, plain, same};

// The kind is `*`.
pub(crate) fn expect_star(kind: &Kind) -> Result<(), DataRefusal>
    ensures ok { OnOk result (kind_tree kind.now ≡ KindTree.Star) }
    ensures refused { IfErr result (λ e. IfSome (plain_why e) (λ why. (kind_tree kind.now ≢ KindTree.Star) × (why ≡ Why.KindDiffer (kind_tree kind.now) KindTree.Star))) }
{
    match kind {
        Kind::Star => Ok(()),
        Kind::Arrow(_, _, _) => Err(DataRefusal::KindDiffer(kind.share()?, Kind::Star)),
    }
}

// The type that was found is the one that is needed.
pub(crate) fn expect_same(found: &NormalTy, needed: &NormalTy) -> Result<(), DataRefusal>
    ensures ok { OnOk result (found.now ≡ needed.now) }
    ensures refused { IfErr result (λ e. IfSome (plain_why e) (λ why. (found.now ≢ needed.now) × (why ≡ Why.Differ found.now needed.now))) }
{
    if same(found, needed) {
        Ok(())
    } else {
        Err(DataRefusal::Differ(found.share()?, needed.share()?))
    }
}

// What a recursive type unfolds to: its body with the whole type for the variable, in normal form.
pub(crate) fn unfold(alloc: Global, whole: &NormalTy) -> Result<NormalTy, DataRefusal>
    ensures given { IfOk result (λ t. (b : TyTree) × (whole.now ≡ TyTree.Mu b) × (t ≡ unfolded b)) }
    ensures refused { IfErr result (λ e. IfSome (plain_why e) (λ why. IsNoMu whole.now × (why ≡ Why.NotData whole.now))) }
{
    let TyNode::Mu(body) = plain(whole).node() else {
        return Err(DataRefusal::NotData(whole.share()?));
    };
    let body = as_normal(body.share()?);
    Ok(hsubst(alloc, &body, 0, whole, &Kind::Star)?)
}
