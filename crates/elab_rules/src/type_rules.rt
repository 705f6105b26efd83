// The rules of types, refused at a place in an environment.
ghost use Rattle.std.specs.Prelude.{◌≡◌, ◌≢◌, [], IfErr, IfOk, OnOk};
ghost use Rattle.omega_kinds.specs.Kind.{Kind as KindTree};
ghost use Rattle.omega_kinds.specs.View.{kind_tree};
ghost use Rattle.omega_types.specs.Normality.{Normal};
ghost use Rattle.sig_definitions.specs.Env.{kinds as kinds_in};
ghost use Rattle.core_rules.specs.Inner.Plain.{plain_base};
ghost use Rattle.core_rules.specs.Inner.Records.{RecordTypeIs, type_fields};
ghost use Rattle.core_judgments.specs.TypeRules.{BaseGives, ArrowGives, ArrowRefuses, AllGives, AllRefuses, OperatorGives, AppliedGives, AppliedRefuses, RecordTypeRefuses};
ghost use Rattle.elab_judgments.specs.Refusals.Refusal.{of_core};
ghost use Rattle.refusal_reasons.specs.Refusal.{KindDiffer, NotOperator};
ghost use Rattle.fing_syntax.specs.Inner.Leaves.{place};
ghost use Rattle.fing_refusals.specs.Inner.Plain.{want_of_memory};
ghost use Rattle.elab_rules.specs.Inner.Answered.{ByRule, ByTest};

use crate::refusing::{core_refusal, refuse};
use core_rules::{Base, all_ty, apply_ty, arrow_ty, base_ty, fields_ty, lam_ty};
use fing_refusals::{ElabWhy, Refusal};
use fing_text::Span;
use omega_kinds::{Kind, Name};
use semantic_sigs::{Env, Kinded};
use std::alloc::Global;

/// The kind is `*`. `KindDiffer` comes exactly where it is another: the kind, and `*`.
pub fn expect_star(env: &Env, at: Span, kind: &Kind) -> Result<(), Refusal>
    ensures given { OnOk result (kind_tree kind.now ≡ KindTree.Star) }
    ensures refused { IfErr result (λ e. ByTest env.now (place at) (kind_tree kind.now ≢ KindTree.Star) (KindDiffer (kind_tree kind.now) KindTree.Star) e) }
{
    match kind {
        Kind::Star => Ok(()),
        Kind::Arrow(_, _, _) => {
            let why = ElabWhy::KindDiffer(kind.share()?, Kind::Star);
            Err(refuse(env, at, why))
        }
    }
}

/// The kind is that of an operator. `NotOperator` comes exactly where it is none.
pub fn expect_operator(env: &Env, at: Span, kind: &Kind) -> Result<(), Refusal>
    ensures given { OnOk result ((p : KindTree × KindTree) × (kind_tree kind.now ≡ KindTree.Arrow p.0 p.1)) }
    ensures refused { IfErr result (λ e. ByTest env.now (place at) ((p : KindTree × KindTree) → kind_tree kind.now ≡ KindTree.Arrow p.0 p.1 → ⊥) NotOperator e) }
{
    match kind {
        Kind::Arrow(_, _, _) => Ok(()),
        Kind::Star => Err(refuse(env, at, ElabWhy::NotOperator)),
    }
}

/// `Int`, `Bool`, `Text`. The only refusal is want of memory, as wherever no place is handed in.
pub fn base_rule(alloc: Global, what: Base) -> Result<Kinded, Refusal>
    ensures given { IfOk result (λ o. BaseGives (plain_base what) o.ty (kind_tree o.kind)) }
    ensures refused { IfErr result (λ e. e ≡ want_of_memory) }
{
    Ok(base_ty(alloc, what)?)
}

/// `T -> U`.
pub fn arrow_rule(
    alloc: Global,
    env: &Env,
    at: Span,
    from: &Kinded,
    to: &Kinded,
) -> Result<Kinded, Refusal>
    ensures given { IfOk result (λ o. ArrowGives from.now.ty (kind_tree from.now.kind) to.now.ty (kind_tree to.now.kind) o.ty (kind_tree o.kind)) }
    ensures refused { IfErr result (λ e. ByRule of_core env.now (place at) (ArrowRefuses from.now.ty (kind_tree from.now.kind) to.now.ty (kind_tree to.now.kind)) e) }
{
    arrow_ty(alloc, from, to).map_err(|why| core_refusal(env, at, why))
}

/// `[X : K] -> T`.
pub fn all_rule(
    alloc: Global,
    env: &Env,
    at: Span,
    kind: &Kind,
    body: &Kinded,
) -> Result<Kinded, Refusal>
    ensures given { IfOk result (λ o. AllGives (kind_tree kind.now) body.now.ty (kind_tree body.now.kind) o.ty (kind_tree o.kind)) }
    ensures refused { IfErr result (λ e. ByRule of_core env.now (place at) (AllRefuses (kind_tree kind.now) body.now.ty (kind_tree body.now.kind)) e) }
{
    all_ty(alloc, kind, body).map_err(|why| core_refusal(env, at, why))
}

/// `fun (X : K) => T`.
pub fn lam_rule(alloc: Global, kind: &Kind, body: &Kinded) -> Result<Kinded, Refusal>
    ensures given { IfOk result (λ o. OperatorGives (kind_tree kind.now) body.now.ty (kind_tree body.now.kind) o.ty (kind_tree o.kind)) }
    ensures refused { IfErr result (λ e. e ≡ want_of_memory) }
{
    Ok(lam_ty(alloc, kind, body)?)
}

/// `T U`; both are normal in the environment.
pub fn apply_rule(
    alloc: Global,
    env: &Env,
    at: Span,
    operator: &Kinded,
    arg: &Kinded,
) -> Result<Kinded, Refusal>
    requires operator { Normal (kinds_in env.now) operator.now.ty (kind_tree operator.now.kind) }
    requires arg { Normal (kinds_in env.now) arg.now.ty (kind_tree arg.now.kind) }
    ensures given { IfOk result (λ o. AppliedGives (kinds_in env.now) operator.now.ty (kind_tree operator.now.kind) arg.now.ty (kind_tree arg.now.kind) o.ty (kind_tree o.kind)) }
    ensures refused { IfErr result (λ e. ByRule of_core env.now (place at) (AppliedRefuses operator.now.ty (kind_tree operator.now.kind) arg.now.ty (kind_tree arg.now.kind)) e) }
{
    apply_ty(alloc, operator, arg).map_err(|why| core_refusal(env, at, why))
}

/// `{X : T, ..}`.
pub fn fields_rule(
    alloc: Global,
    env: &Env,
    at: Span,
    fields: Vec<(Name, Kinded)>,
) -> Result<Kinded, Refusal>
    ensures given { IfOk result (λ o. RecordTypeIs (type_fields fields.items) o.ty (kind_tree o.kind)) }
    ensures refused { IfErr result (λ e. ByRule of_core env.now (place at) (RecordTypeRefuses [] (type_fields fields.items)) e) }
{
    fields_ty(alloc, fields).map_err(|why| core_refusal(env, at, why))
}
