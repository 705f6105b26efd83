// The rules of sum types, of injections and of cases, refused at a place in an environment.
ghost use Rattle.std.specs.Prelude.{◌≡◌, [], IfErr, IfOk, OnOk};
ghost use Rattle.omega_kinds.specs.Kind.{Kind as KindTree};
ghost use Rattle.omega_kinds.specs.View.{kind_tree};
ghost use Rattle.omega_types.specs.Ty.{Row};
ghost use Rattle.core_rules.specs.Inner.Records.{SumTypeIs, exp_fields, type_fields};
ghost use Rattle.core_judgments.specs.TypeRules.{RecordTypeRefuses};
ghost use Rattle.core_judgments.specs.ExpRules.{CaseGives, CaseRefuses, InjectionGives, LabelGives, LabelRefuses, SumGives, SumRefuses};
ghost use Rattle.elab_judgments.specs.Refusals.Refusal.{of_core};
ghost use Rattle.fing_syntax.specs.Inner.Leaves.{place, spelled};
ghost use Rattle.elab_rules.specs.Inner.Answered.{ByInjection, ByRule};

use crate::places::injection_place;
use crate::refusing::core_refusal;
use core_rules::{case_exp, case_part, inj_exp, is_sum, sum_ty};
use fing_refusals::Refusal;
use fing_syntax::SpanName;
use fing_text::Span;
use omega_kinds::Name;
use semantic_sigs::{Env, Kinded, Typed};
use std::alloc::Global;
use type_normal::NormalTy;

/// `case {X : T, ..}`, a sum type.
pub fn sum_rule(
    alloc: Global,
    env: &Env,
    at: Span,
    labels: Vec<(Name, Kinded)>,
) -> Result<Kinded, Refusal>
    ensures given { IfOk result (λ o. SumTypeIs (type_fields labels.items) o.ty (kind_tree o.kind)) }
    ensures refused { IfErr result (λ e. ByRule of_core env.now (place at) (RecordTypeRefuses [] (type_fields labels.items)) e) }
{
    sum_ty(alloc, labels).map_err(|why| core_refusal(env, at, why))
}

/// The phrase after `case` has a sum type. `NotSum` comes exactly where it has another one: the type.
pub fn expect_sum(env: &Env, at: Span, whole: &Typed) -> Result<(), Refusal>
    ensures given { OnOk result ((r : Row) × SumGives whole.now.ty r) }
    ensures refused { IfErr result (λ e. ByRule of_core env.now (place at) (SumRefuses whole.now.ty) e) }
{
    is_sum(whole).map_err(|why| core_refusal(env, at, why))
}

/// The type of the value that the branch for a label takes.
pub fn label_rule(env: &Env, whole: &Typed, label: &SpanName) -> Result<NormalTy, Refusal>
    ensures given { IfOk result (λ t. LabelGives whole.now.ty label.now.name t) }
    ensures refused { IfErr result (λ e. ByRule of_core env.now (place label.now.span) (LabelRefuses whole.now.ty label.now.name) e) }
{
    case_part(whole, &label.name).map_err(|why| core_refusal(env, label.span, why))
}

/// `inj X E : T`, with the places of E and T; T is a type of values.
pub fn injection_rule(
    alloc: Global,
    env: &Env,
    label: &SpanName,
    from: Span,
    value: Typed,
    to: Span,
    target: &Kinded,
) -> Result<Typed, Refusal>
    requires { kind_tree target.now.kind ≡ KindTree.Star }
    ensures given { IfOk result (λ o. InjectionGives label.now.name value.ty value.term target.now.ty (kind_tree target.now.kind) o.ty o.term) }
    ensures refused { IfErr result (λ e. ByInjection env.now (spelled label.now) (place from) value.ty (place to) target.now.ty e) }
{
    match inj_exp(alloc, &label.name, value, target) {
        Ok(made) => Ok(made),
        Err(why) => {
            let at = injection_place(label.span, from, to, &why);
            Err(core_refusal(env, at, why))
        }
    }
}

/// `case E : T of {X (x) => E', ..}`, with its branches.
pub fn case_rule(
    alloc: Global,
    env: &Env,
    at: Span,
    whole: Typed,
    target: &Kinded,
    branches: Vec<(Name, Typed)>,
) -> Result<Typed, Refusal>
    ensures given { IfOk result (λ o. CaseGives whole.ty whole.term target.now.ty (kind_tree target.now.kind) (exp_fields branches.items) o.ty o.term) }
    ensures refused { IfErr result (λ e. ByRule of_core env.now (place at) (CaseRefuses whole.ty target.now.ty (kind_tree target.now.kind) (exp_fields branches.items)) e) }
{
    case_exp(alloc, whole, target, branches).map_err(|why| core_refusal(env, at, why))
}
