// Injections, cases, rolled and unrolled values: what each means, a type and a term, in an environment.
ghost use Rattle.std.specs.Prelude.{◌≡◌, ◌++◌, List, IfErr, IfOk, OnOk};
ghost use Rattle.omega_kinds.specs.Kind.{Star};
ghost use Rattle.omega_types.specs.Normality.{Normal};
ghost use Rattle.sig_definitions.specs.Env.{kinds as kinds_in};
ghost use Rattle.sig_laws.specs.Good.{OkEnv};
ghost use Rattle.core_rules.specs.Inner.Records.{exp_fields as exp_parts};
ghost use Rattle.core_judgments.specs.ExpRules.{FieldExp};
ghost use Rattle.elab_judgments.specs.Judgments.Meaning.{BranchesMean, ExpMeans};
ghost use Rattle.elab_judgments.specs.Refusals.Task.{an_exp, branches as branches_task};
ghost use Rattle.fing_syntax.specs.Inner.Leaves.{place, spelled};
ghost use Rattle.fing_syntax.specs.Phrase.{ExpAt, ExpCase, ExpInj, ExpRoll, ExpUnroll, MoreBranches, Span as Place};
ghost use Rattle.fing_syntax.specs.Inner.View.{branches as branches_of};
ghost use Rattle.elab_rules.specs.Inner.Answered.{RefusedAs};
ghost use Rattle.elab_rules.specs.Inner.Fields.{names_before};

use crate::expressions::{exp, exp_under};
use crate::types::value_ty;
use elab_rules::data_rules::{roll_rule, unroll_rule};
use elab_rules::exp_rules::expect_same;
use elab_rules::naming::{add, expect_new};
use elab_rules::places::branch_place;
use elab_rules::sum_rules::{case_rule, expect_sum, injection_rule, label_rule};
use fing_refusals::Refusal;
use fing_syntax::{Branch, Exp, SpanName, TyEx};
use fing_text::Span;
use omega_kinds::Name;
use semantic_sigs::{Env, Typed};
use std::alloc::Global;
use type_normal::NormalTy;

/// `inj X E : T`.
#[cycle(elab)]
#[inline(never)]
pub(crate) fn exp_inj(
    alloc: Global,
    env: &mut Env,
    label: &SpanName,
    value: &Exp,
    target: &TyEx,
) -> Result<Typed, Refusal>
    requires { OkEnv env.old }
    ensures given { IfOk result (λ o. (at : Place) → ExpMeans env.old (ExpAt at (ExpInj (spelled label.now) value.now target.now)) o.ty o.term) }
    ensures refused { IfErr result (λ e. (at : Place) → RefusedAs env.old (an_exp (ExpAt at (ExpInj (spelled label.now) value.now target.now))) e) }
    ensures same { OnOk result (env.new ≡ env.old) }
{
    let found = exp(alloc, env, value)?;
    let to = value_ty(alloc, env, target)?;
    injection_rule(alloc, env, label, value.span, found, target.span, &to)
}

/// `case E : T of {X (x) => E', ..}`.
#[cycle(elab)]
#[inline(never)]
pub(crate) fn exp_case(
    alloc: Global,
    env: &mut Env,
    at: Span,
    whole: &Exp,
    target: &TyEx,
    branches: &[Branch],
) -> Result<Typed, Refusal>
    requires { OkEnv env.old }
    ensures given { IfOk result (λ o. ExpMeans env.old (ExpAt (place at) (ExpCase whole.now target.now (branches_of branches.now))) o.ty o.term) }
    ensures refused { IfErr result (λ e. RefusedAs env.old (an_exp (ExpAt (place at) (ExpCase whole.now target.now (branches_of branches.now)))) e) }
    ensures same { OnOk result (env.new ≡ env.old) }
{
    let found = exp(alloc, env, whole)?;
    expect_sum(env, whole.span, &found)?;
    let to = value_ty(alloc, env, target)?;
    let mut parts = Vec::new(alloc);
    case_branches(alloc, env, &found, &to.ty, &mut parts, branches)?;
    case_rule(alloc, env, at, found, &to, parts)
}

// The branches that are left of a case, behind those that are done.
#[cycle(elab)]
fn case_branches(
    alloc: Global,
    env: &mut Env,
    whole: &Typed,
    target: &NormalTy,
    done: &mut Vec<(Name, Typed)>,
    branches: &[Branch],
) -> Result<(), Refusal>
    requires env { OkEnv env.old }
    requires normal { Normal (kinds_in env.old) whole.now.ty Star }
    ensures given { OnOk result ((parts : List FieldExp) × BranchesMean env.old whole.now.ty target.now (names_before done.old.items) (branches_of branches.now) parts × (exp_parts done.new.items ≡ exp_parts done.old.items ++ parts)) }
    ensures refused { IfErr result (λ e. RefusedAs env.old (branches_task whole.now.ty target.now (names_before done.old.items) (branches_of branches.now)) e) }
    ensures same { OnOk result (env.new ≡ env.old) }
{
    match branches {
        [] => Ok(()),
        [first, rest @ ..] => case_branch(alloc, env, whole, target, done, first, rest),
    }
}

// One branch of a case, behind those that are done, and then those that are left.
#[cycle(elab)]
#[inline(never)]
fn case_branch(
    alloc: Global,
    env: &mut Env,
    whole: &Typed,
    target: &NormalTy,
    done: &mut Vec<(Name, Typed)>,
    first: &Branch,
    rest: &[Branch],
) -> Result<(), Refusal>
    requires env { OkEnv env.old }
    requires normal { Normal (kinds_in env.old) whole.now.ty Star }
    ensures given { OnOk result ((parts : List FieldExp) × BranchesMean env.old whole.now.ty target.now (names_before done.old.items) (MoreBranches (spelled first.now.label) (spelled first.now.name) first.now.body (branches_of rest.now)) parts × (exp_parts done.new.items ≡ exp_parts done.old.items ++ parts)) }
    ensures refused { IfErr result (λ e. RefusedAs env.old (branches_task whole.now.ty target.now (names_before done.old.items) (MoreBranches (spelled first.now.label) (spelled first.now.name) first.now.body (branches_of rest.now))) e) }
    ensures same { OnOk result (env.new ≡ env.old) }
{
    expect_new(env, &first.label, done)?;
    let part = label_rule(env, whole, &first.label)?;
    let body = exp_under(alloc, env, &first.name.name, &part, &first.body)?;
    expect_same(env, branch_place(first), &body.ty, target)?;
    add(done, &first.label.name, body)?;
    case_branches(alloc, env, whole, target, done, rest)
}

/// `roll E : T`.
#[cycle(elab)]
#[inline(never)]
pub(crate) fn exp_roll(
    alloc: Global,
    env: &mut Env,
    value: &Exp,
    target: &TyEx,
) -> Result<Typed, Refusal>
    requires { OkEnv env.old }
    ensures given { IfOk result (λ o. (at : Place) → ExpMeans env.old (ExpAt at (ExpRoll value.now target.now)) o.ty o.term) }
    ensures refused { IfErr result (λ e. (at : Place) → RefusedAs env.old (an_exp (ExpAt at (ExpRoll value.now target.now))) e) }
    ensures same { OnOk result (env.new ≡ env.old) }
{
    let found = exp(alloc, env, value)?;
    let to = value_ty(alloc, env, target)?;
    roll_rule(alloc, env, value.span, found, target.span, &to)
}

/// `unroll E`.
#[cycle(elab)]
#[inline(never)]
pub(crate) fn exp_unroll(alloc: Global, env: &mut Env, whole: &Exp) -> Result<Typed, Refusal>
    requires { OkEnv env.old }
    ensures given { IfOk result (λ o. (at : Place) → ExpMeans env.old (ExpAt at (ExpUnroll whole.now)) o.ty o.term) }
    ensures refused { IfErr result (λ e. (at : Place) → RefusedAs env.old (an_exp (ExpAt at (ExpUnroll whole.now))) e) }
    ensures same { OnOk result (env.new ≡ env.old) }
{
    let found = exp(alloc, env, whole)?;
    unroll_rule(alloc, env, whole.span, found)
}
