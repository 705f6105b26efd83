// The rules of recursive types, of rolled values and of unrolled ones.
ghost use Rattle.std.specs.Prelude.{IfErr, IfOk, IfSome, List};
ghost use Rattle.omega_kinds.specs.Kind.{Kind as KindTree};
ghost use Rattle.omega_kinds.specs.View.{kind_tree};
ghost use Rattle.omega_types.specs.Normality.{Normal};
ghost use Rattle.core_judgments.specs.DataRules.{MuGives, MuRefuses, RollGives, RollRefuses, UnrollGives, UnrollRefuses};
ghost use Rattle.data_types.specs.Inner.Plain.{plain_why};

use crate::premises::{expect_same, expect_star, unfold};
use crate::refusal::DataRefusal;
use omega_kinds::Kind;
use omega_terms::{Term, TermNode};
use omega_types::{Ty, TyNode};
use semantic_sigs::{Kinded, Typed};
use std::alloc::Global;
use type_normal::{as_normal, plain};

/// The recursive type of a body that stands under a type variable of kind `*`. `KindDiffer` comes exactly where the body
/// has another kind than `*`: the kind, and `*`.
///
/// Pierce, "Types and Programming Languages", section 20.2 and figure 20-1, Iso-recursive types.
pub fn mu_ty(alloc: Global, body: &Kinded) -> Result<Kinded, DataRefusal>
    ensures given { IfOk result (λ o. MuGives body.now.ty (kind_tree body.now.kind) o.ty (kind_tree o.kind)) }
    ensures refused { IfErr result (λ e. IfSome (plain_why e) (λ why. MuRefuses body.now.ty (kind_tree body.now.kind) why)) }
{
    expect_star(&body.kind)?;
    let ty = as_normal(Ty::make(alloc, TyNode::Mu(plain(&body.ty).share()?))?);
    Ok(Kinded {
        ty,
        kind: Kind::Star,
    })
}

/// `roll E : T`; T is normal in the context. `KindDiffer` comes exactly where T has another kind than `*`: the kind, and
/// `*`. Where it has `*`, `NotData` comes exactly where T, which is kept, is no recursive type, and `Differ` where E has
/// another type than T unfolds to: the type of E, and what T unfolds to, in normal form.
///
/// Pierce, "Types and Programming Languages", figure 20-1, Iso-recursive types (`fold`).
pub fn roll_exp(alloc: Global, value: Typed, target: &Kinded) -> Result<Typed, DataRefusal>
    ensures given { IfOk result (λ o. (ctx : List KindTree) → Normal ctx target.now.ty (kind_tree target.now.kind)
        → RollGives ctx value.ty value.term target.now.ty (kind_tree target.now.kind) o.ty o.term) }
    ensures refused { IfErr result (λ e. IfSome (plain_why e) (λ why. (ctx : List KindTree) → Normal ctx target.now.ty (kind_tree target.now.kind)
        → RollRefuses ctx value.ty target.now.ty (kind_tree target.now.kind) why)) }
{
    expect_star(&target.kind)?;
    expect_same(&value.ty, &unfold(alloc, &target.ty)?)?;
    let node = TermNode::Roll(value.term, plain(&target.ty).share()?);
    let ty = target.ty.share()?;
    let term = Term::make(alloc, node)?;
    Ok(Typed { ty, term })
}

/// `unroll E`, whose type is what that of E unfolds to, in normal form; the type of E is normal in the context. `NotData`
/// comes exactly where E has a type, which is kept, that is no recursive one.
///
/// Pierce, "Types and Programming Languages", figure 20-1, Iso-recursive types (`unfold`).
pub fn unroll_exp(alloc: Global, whole: Typed) -> Result<Typed, DataRefusal>
    ensures given { IfOk result (λ o. (ctx : List KindTree) → Normal ctx whole.ty KindTree.Star → UnrollGives ctx whole.ty whole.term o.ty o.term) }
    ensures refused { IfErr result (λ e. IfSome (plain_why e) (λ why. UnrollRefuses whole.ty why)) }
{
    let ty = unfold(alloc, &whole.ty)?;
    let term = Term::make(alloc, TermNode::Unroll(whole.term))?;
    Ok(Typed { ty, term })
}
