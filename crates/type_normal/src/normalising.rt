// Normal forms.
ghost use Rattle.std.specs.Prelude.{◌≡◌, ◌∷◌, IfOk, OnOk};
ghost use Rattle.omega_kinds.specs.View.{kind_tree};
ghost use Rattle.omega_types.specs.EtaLong.{eta as eta_of};
ghost use Rattle.omega_types.specs.Fields.{row};
ghost use Rattle.omega_types.specs.Kinding.{HasKind};
ghost use Rattle.omega_types.specs.Normaliser.{beta as beta_of, kind_at as kind_at_of, normal, normal_row};
ghost use Rattle.omega_types.specs.Normalises.{NormalForm};
ghost use Rattle.omega_types.specs.Ty.{Ty as TyTree};
ghost use Rattle.omega_types.specs.Inner.Scope.{scope_of};

use crate::filling::fill_whole;
use crate::normal_ty::{NormalTy, as_normal};
use omega_kinds::{Kind, Mem};
use omega_types::{Ty, TyFields, TyNode, share_context, shift, variable_kind};
use std::alloc::Global;

/// The normal form of a type of a kind in a context, which lists the kinds of the type variables, the innermost last:
/// the one type that is beta-normal, eta-long and convertible to it. `Err` is out of memory.
///
/// Keller and Altenkirch, "Hereditary substitutions for simple types, formalized" (2010).
pub fn normal(alloc: Global, ctx: &[Kind], ty: &Ty, _kind: &Kind) -> Result<NormalTy, Mem>
    ensures value { IfOk result (λ n. n ≡ normal (scope_of ctx.now) ty.now) }
    ensures normal { IfOk result (λ n. HasKind (scope_of ctx.now) ty.now (kind_tree _kind.now) → NormalForm (scope_of ctx.now) ty.now (kind_tree _kind.now) n) }
{
    let mut scope = share_context(alloc, ctx)?;
    Ok(as_normal(normalise(alloc, &mut scope, ty)?))
}

// The kind of the variable at an index, and `*` where there is none.
#[tactic(auto, using(crate::proofs::NormalSteps::normal_steps))]
fn kind_at(scope: &[Kind], index: u64) -> Result<Kind, Mem>
    ensures { IfOk result (λ k. kind_tree k ≡ kind_at_of (scope_of scope.now) index) }
{
    match variable_kind(scope, index)? {
        Some(kind) => Ok(kind),
        None => Ok(Kind::Star),
    }
}

// The eta-long form of a variable with its arguments.
#[tactic(auto, using(crate::proofs::NormalSteps::normal_steps))]
fn eta(alloc: Global, kind: &Kind, ty: Ty) -> Result<Ty, Mem>
    ensures { IfOk result (λ t. t ≡ eta_of (kind_tree kind.now) ty) }
{
    match kind {
        Kind::Star => Ok(ty),
        Kind::Arrow(from, to, _) => {
            let operator = shift(alloc, &ty, 1, 0)?;
            let arg = eta(alloc, from, Ty::make(alloc, TyNode::Var(0))?)?;
            let body = eta(alloc, to, Ty::make(alloc, TyNode::Apply(operator, arg))?)?;
            Ty::make(alloc, TyNode::Lam(from.share()?, body))
        }
    }
}

// The normal form of a normal operator at a normal argument.
fn beta(alloc: Global, operator: Ty, arg: Ty) -> Result<Ty, Mem>
    ensures { IfOk result (λ t. t ≡ beta_of operator arg) }
{
    if let TyNode::Lam(kind, body) = operator.node() {
        return fill_whole(alloc, body, 0, &arg, kind);
    }
    Ty::make(alloc, TyNode::Apply(operator, arg))
}

// The normal form of a type; the context stands as it was.
#[cycle(normalise)]
#[tactic(auto, using(crate::proofs::NormalSteps::normal_steps))]
fn normalise(alloc: Global, scope: &mut Vec<Kind>, ty: &Ty) -> Result<Ty, Mem>
    ensures kept { OnOk result (scope_of scope.new.items ≡ scope_of scope.old.items) }
    ensures value { IfOk result (λ n. n ≡ normal (scope_of scope.old.items) ty.now) }
{
    match ty.node() {
        TyNode::Var(index) => normalise_var(alloc, scope, *index, ty),
        TyNode::Int | TyNode::Bool | TyNode::Text => ty.share(),
        TyNode::Arrow(a, b) => match ty.both_sides() {
            Some(part) => normalise_even(alloc, scope, part),
            None => normalise_arrow(alloc, scope, a, b),
        },
        TyNode::Fields(fields) => normalise_record(alloc, scope, fields),
        TyNode::Sum(fields) => normalise_sum(alloc, scope, fields),
        TyNode::All(k, b) => normalise_all(alloc, scope, k, b),
        TyNode::Ex(k, b) => normalise_ex(alloc, scope, k, b),
        TyNode::Mu(b) => normalise_mu(alloc, scope, b),
        TyNode::Lam(k, b) => normalise_operator(alloc, scope, k, b),
        TyNode::Apply(f, a) => normalise_application(alloc, scope, f, a),
    }
}

// A variable: its eta-long form.
#[inline(never)]
#[tactic(auto, using(crate::proofs::NormalSteps::normal_steps))]
fn normalise_var(alloc: Global, scope: &[Kind], index: u64, ty: &Ty) -> Result<Ty, Mem>
    requires { ty.now ≡ TyTree.Var index }
    ensures { IfOk result (λ n. n ≡ normal (scope_of scope.now) ty.now) }
{
    let kind = kind_at(scope, index)?;
    eta(alloc, &kind, ty.share()?)
}

// A function type.
#[cycle(normalise)]
#[inline(never)]
#[tactic(auto, using(crate::proofs::NormalSteps::normal_steps))]
fn normalise_arrow(alloc: Global, scope: &mut Vec<Kind>, a: &Ty, b: &Ty) -> Result<Ty, Mem>
    ensures kept { OnOk result (scope_of scope.new.items ≡ scope_of scope.old.items) }
    ensures value { IfOk result (λ n. n ≡ normal (scope_of scope.old.items) (TyTree.Arrow a.now b.now)) }
{
    let a = normalise(alloc, scope, a)?;
    let b = normalise(alloc, scope, b)?;
    Ty::make(alloc, TyNode::Arrow(a, b))
}

// A function type whose two parts are one tree.
#[cycle(normalise)]
#[inline(never)]
#[tactic(auto, using(crate::proofs::NormalSteps::normal_steps))]
fn normalise_even(alloc: Global, scope: &mut Vec<Kind>, part: &Ty) -> Result<Ty, Mem>
    ensures kept { OnOk result (scope_of scope.new.items ≡ scope_of scope.old.items) }
    ensures value { IfOk result (λ n. n ≡ normal (scope_of scope.old.items) (TyTree.Arrow part.now part.now)) }
{
    Ty::to_itself(alloc, normalise(alloc, scope, part)?)
}

// A record type.
#[cycle(normalise)]
#[inline(never)]
#[tactic(auto, using(crate::proofs::NormalSteps::normal_steps))]
fn normalise_record(alloc: Global, scope: &mut Vec<Kind>, fields: &TyFields) -> Result<Ty, Mem>
    ensures kept { OnOk result (scope_of scope.new.items ≡ scope_of scope.old.items) }
    ensures value { IfOk result (λ n. n ≡ normal (scope_of scope.old.items) (TyTree.Fields (row fields.now))) }
{
    let fields = normalise_fields(alloc, scope, fields)?;
    Ty::make(alloc, TyNode::Fields(fields))
}

// A sum.
#[cycle(normalise)]
#[inline(never)]
#[tactic(auto, using(crate::proofs::NormalSteps::normal_steps))]
fn normalise_sum(alloc: Global, scope: &mut Vec<Kind>, fields: &TyFields) -> Result<Ty, Mem>
    ensures kept { OnOk result (scope_of scope.new.items ≡ scope_of scope.old.items) }
    ensures value { IfOk result (λ n. n ≡ normal (scope_of scope.old.items) (TyTree.Sum (row fields.now))) }
{
    let fields = normalise_fields(alloc, scope, fields)?;
    Ty::make(alloc, TyNode::Sum(fields))
}

// A universal type.
#[cycle(normalise)]
#[inline(never)]
#[tactic(auto, using(crate::proofs::NormalSteps::normal_steps))]
fn normalise_all(alloc: Global, scope: &mut Vec<Kind>, k: &Kind, b: &Ty) -> Result<Ty, Mem>
    ensures kept { OnOk result (scope_of scope.new.items ≡ scope_of scope.old.items) }
    ensures value { IfOk result (λ n. n ≡ normal (scope_of scope.old.items) (TyTree.All (kind_tree k.now) b.now)) }
{
    let b = normalise_under(alloc, scope, b, k)?;
    Ty::make(alloc, TyNode::All(k.share()?, b))
}

// An existential type.
#[cycle(normalise)]
#[inline(never)]
#[tactic(auto, using(crate::proofs::NormalSteps::normal_steps))]
fn normalise_ex(alloc: Global, scope: &mut Vec<Kind>, k: &Kind, b: &Ty) -> Result<Ty, Mem>
    ensures kept { OnOk result (scope_of scope.new.items ≡ scope_of scope.old.items) }
    ensures value { IfOk result (λ n. n ≡ normal (scope_of scope.old.items) (TyTree.Ex (kind_tree k.now) b.now)) }
{
    let b = normalise_under(alloc, scope, b, k)?;
    Ty::make(alloc, TyNode::Ex(k.share()?, b))
}

// A recursive type.
#[cycle(normalise)]
#[inline(never)]
#[tactic(auto, using(crate::proofs::NormalSteps::normal_steps))]
fn normalise_mu(alloc: Global, scope: &mut Vec<Kind>, b: &Ty) -> Result<Ty, Mem>
    ensures kept { OnOk result (scope_of scope.new.items ≡ scope_of scope.old.items) }
    ensures value { IfOk result (λ n. n ≡ normal (scope_of scope.old.items) (TyTree.Mu b.now)) }
{
    let b = normalise_under(alloc, scope, b, &Kind::Star)?;
    Ty::make(alloc, TyNode::Mu(b))
}

// An operator.
#[cycle(normalise)]
#[inline(never)]
#[tactic(auto, using(crate::proofs::NormalSteps::normal_steps))]
fn normalise_operator(alloc: Global, scope: &mut Vec<Kind>, k: &Kind, b: &Ty) -> Result<Ty, Mem>
    ensures kept { OnOk result (scope_of scope.new.items ≡ scope_of scope.old.items) }
    ensures value { IfOk result (λ n. n ≡ normal (scope_of scope.old.items) (TyTree.Lam (kind_tree k.now) b.now)) }
{
    let b = normalise_under(alloc, scope, b, k)?;
    Ty::make(alloc, TyNode::Lam(k.share()?, b))
}

// An application: an operator takes the argument.
#[cycle(normalise)]
#[inline(never)]
#[tactic(auto, using(crate::proofs::NormalSteps::normal_steps))]
fn normalise_application(alloc: Global, scope: &mut Vec<Kind>, f: &Ty, a: &Ty) -> Result<Ty, Mem>
    ensures kept { OnOk result (scope_of scope.new.items ≡ scope_of scope.old.items) }
    ensures value { IfOk result (λ n. n ≡ normal (scope_of scope.old.items) (TyTree.Apply f.now a.now)) }
{
    let f = normalise(alloc, scope, f)?;
    let a = normalise(alloc, scope, a)?;
    beta(alloc, f, a)
}

// The normal form of the body of a binder.
#[cycle(normalise)]
#[tactic(auto, using(crate::proofs::NormalSteps::normal_steps))]
fn normalise_under(alloc: Global, scope: &mut Vec<Kind>, body: &Ty, kind: &Kind) -> Result<Ty, Mem>
    ensures kept { OnOk result (scope_of scope.new.items ≡ scope_of scope.old.items) }
    ensures value { IfOk result (λ n. n ≡ normal (kind_tree kind.now ∷ scope_of scope.old.items) body.now) }
{
    scope.push(kind.share()?)?;
    let found = normalise(alloc, scope, body)?;
    scope.pop();
    Ok(found)
}

// The fields with the normal form of each part.
#[cycle(normalise)]
#[tactic(auto, using(crate::proofs::NormalSteps::normal_steps))]
fn normalise_fields(
    alloc: Global,
    scope: &mut Vec<Kind>,
    fields: &TyFields,
) -> Result<TyFields, Mem>
    ensures kept { OnOk result (scope_of scope.new.items ≡ scope_of scope.old.items) }
    ensures value { IfOk result (λ f. row f ≡ normal_row (scope_of scope.old.items) (row fields.now)) }
{
    let mut found = TyFields::with_capacity(alloc, fields.items().len())?;
    for field in fields.items() {
        let part = normalise(alloc, scope, &field.1)?;
        found.push((field.0.share()?, part))?;
    }
    Ok(found)
}
