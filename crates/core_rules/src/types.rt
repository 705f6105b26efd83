// The rules of types.
ghost use Rattle.std.specs.Prelude.{◌≡◌, IfErr, IfOk, IfSome, List};
ghost use Rattle.omega_kinds.specs.Kind.{Kind as KindTree};
ghost use Rattle.omega_kinds.specs.View.{kind_tree};
ghost use Rattle.omega_types.specs.Normality.{Normal};
ghost use Rattle.omega_types.specs.Normaliser.{beta};
ghost use Rattle.omega_types.specs.Inner.View.{ty_of};
ghost use Rattle.core_judgments.specs.TypeRules.{BaseGives, ArrowGives, ArrowRefuses, AllGives, AllRefuses, OperatorGives, AppliedGives, AppliedRefuses};
ghost use Rattle.core_rules.specs.Inner.Plain.{plain_base, plain_why};

use crate::premises::{expect_star, made, part};
use crate::refusal::CoreRefusal;
use omega_kinds::{Kind, Mem, arrow, same_kind};
use omega_types::TyNode;
use semantic_sigs::Kinded;
use std::alloc::Global;
use type_normal::{NormalTy, function_type, hsubst, plain};

/// A type that is written as a word: the numbers, the truth values, the texts.
#[derive(Clone, Copy, Debug, PartialEq, Eq)]
pub enum Base {
    Int,
    Bool,
    Text,
}

// A type of values.
pub(crate) fn of_values(alloc: Global, node: TyNode) -> Result<Kinded, Mem>
    ensures ty { IfOk result (λ o. o.ty ≡ ty_of node) }
    ensures kind { IfOk result (λ o. kind_tree o.kind ≡ KindTree.Star) }
{
    Ok(Kinded {
        ty: made(alloc, node)?,
        kind: Kind::Star,
    })
}

/// `Int`, `Bool` and `Text`. `Err` is out of memory.
pub fn base_ty(alloc: Global, what: Base) -> Result<Kinded, Mem>
    ensures { IfOk result (λ o. BaseGives (plain_base what) o.ty (kind_tree o.kind)) }
{
    match what {
        Base::Int => of_values(alloc, TyNode::Int),
        Base::Bool => of_values(alloc, TyNode::Bool),
        Base::Text => of_values(alloc, TyNode::Text),
    }
}

/// `T -> U`. `KindDiffer` comes exactly where T, or else U, has another kind than `*`: the kind, and `*`.
///
/// Pierce, "Types and Programming Languages", figure 30-1, for the rules of types and expressions of this crate; the
/// explicitly typed core language is this project's own.
pub fn arrow_ty(alloc: Global, from: &Kinded, to: &Kinded) -> Result<Kinded, CoreRefusal>
    ensures given { IfOk result (λ o. ArrowGives from.now.ty (kind_tree from.now.kind) to.now.ty (kind_tree to.now.kind) o.ty (kind_tree o.kind)) }
    ensures refused { IfErr result (λ e. IfSome (plain_why e) (λ why. ArrowRefuses from.now.ty (kind_tree from.now.kind) to.now.ty (kind_tree to.now.kind) why)) }
{
    expect_star(&from.kind)?;
    expect_star(&to.kind)?;
    let ty = function_type(alloc, &from.ty, &to.ty)?;
    Ok(Kinded {
        ty,
        kind: Kind::Star,
    })
}

/// `[X : K] -> T`, T under X. `KindDiffer` comes exactly where T has another kind than `*`: the kind, and `*`.
pub fn all_ty(alloc: Global, kind: &Kind, body: &Kinded) -> Result<Kinded, CoreRefusal>
    ensures given { IfOk result (λ o. AllGives (kind_tree kind.now) body.now.ty (kind_tree body.now.kind) o.ty (kind_tree o.kind)) }
    ensures refused { IfErr result (λ e. IfSome (plain_why e) (λ why. AllRefuses (kind_tree kind.now) body.now.ty (kind_tree body.now.kind) why)) }
{
    expect_star(&body.kind)?;
    let node = TyNode::All(kind.share()?, plain(&body.ty).share()?);
    Ok(of_values(alloc, node)?)
}

/// `fun (X : K) => T`, T under X. `Err` is out of memory.
pub fn lam_ty(alloc: Global, kind: &Kind, body: &Kinded) -> Result<Kinded, Mem>
    ensures { IfOk result (λ o. OperatorGives (kind_tree kind.now) body.now.ty (kind_tree body.now.kind) o.ty (kind_tree o.kind)) }
{
    let node = TyNode::Lam(kind.share()?, plain(&body.ty).share()?);
    Ok(Kinded {
        ty: made(alloc, node)?,
        kind: arrow(alloc, kind.share()?, body.kind.share()?)?,
    })
}

// The normal form of a normal operator at a normal argument.
fn applied(alloc: Global, operator: &NormalTy, arg: &NormalTy) -> Result<NormalTy, Mem>
    ensures { IfOk result (λ t. t ≡ beta operator.now arg.now) }
{
    if let TyNode::Lam(kind, body) = plain(operator).node() {
        return hsubst(alloc, &part(body)?, 0, arg, kind);
    }
    made(
        alloc,
        TyNode::Apply(plain(operator).share()?, plain(arg).share()?),
    )
}

/// `T U`, in normal form; both are normal in one context. `NotOperator` comes exactly where T has kind `*`, and
/// `KindDiffer` where U has not the kind that T takes: the kind of U, and that of T's argument.
pub fn apply_ty(alloc: Global, operator: &Kinded, arg: &Kinded) -> Result<Kinded, CoreRefusal>
    ensures given { IfOk result (λ o. (ctx : List KindTree) → Normal ctx operator.now.ty (kind_tree operator.now.kind)
        → Normal ctx arg.now.ty (kind_tree arg.now.kind)
        → AppliedGives ctx operator.now.ty (kind_tree operator.now.kind) arg.now.ty (kind_tree arg.now.kind) o.ty (kind_tree o.kind)) }
    ensures refused { IfErr result (λ e. IfSome (plain_why e) (λ why. AppliedRefuses operator.now.ty (kind_tree operator.now.kind) arg.now.ty (kind_tree arg.now.kind) why)) }
{
    match &operator.kind {
        Kind::Star => Err(CoreRefusal::NotOperator),
        Kind::Arrow(from, to, _) => {
            if !same_kind(&arg.kind, from) {
                return Err(CoreRefusal::KindDiffer(arg.kind.share()?, from.share()?));
            }
            Ok(Kinded {
                ty: applied(alloc, &operator.ty, &arg.ty)?,
                kind: to.share()?,
            })
        }
    }
}
