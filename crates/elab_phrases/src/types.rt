// Types: what each form means, with its kind, in an environment.
ghost use Rattle.std.specs.Prelude.{◌≡◌, ◌++◌, [], List, IfErr, IfOk, OnOk};
ghost use Rattle.omega_kinds.specs.Kind.{Star};
ghost use Rattle.omega_kinds.specs.View.{kind_tree};
ghost use Rattle.omega_types.specs.Normality.{Normal};
ghost use Rattle.sig_definitions.specs.Env.{kinds as kinds_in};
ghost use Rattle.sig_laws.specs.Good.{OkEnv};
ghost use Rattle.core_rules.specs.Inner.Records.{type_fields as type_parts};
ghost use Rattle.core_judgments.specs.TypeRules.{FieldTy};
ghost use Rattle.elab_judgments.specs.Operators.{with_type};
ghost use Rattle.elab_judgments.specs.Judgments.Meaning.{ArgTysMean, FieldTysMean, TyMeans};
ghost use Rattle.elab_judgments.specs.Refusals.Task.{a_type, type_args, type_fields};
ghost use Rattle.fing_syntax.specs.Inner.Leaves.{place, spelled};
ghost use Rattle.fing_syntax.specs.Phrase.{MoreFieldTys, MoreTys, Span as Place, TyAll, TyApply, TyArrow, TyAt, TyFields, TyLam, TyMu, TySum};
ghost use Rattle.fing_syntax.specs.Inner.View.{field_tys, tys};
ghost use Rattle.elab_rules.specs.Inner.Answered.{NoValueType, RefusedAs};
ghost use Rattle.elab_rules.specs.Inner.Fields.{names_before};

use crate::uses::{pack_type, path_type};
use core_rules::Base;
use elab_rules::data_rules::mu_rule;
use elab_rules::naming::{add, expect_new, up_to};
use elab_rules::scopes::{leave, push_type};
use elab_rules::sum_rules::sum_rule;
use elab_rules::type_rules::{
    all_rule, apply_rule, arrow_rule, base_rule, expect_operator, expect_star, fields_rule,
    lam_rule,
};
use fing_refusals::Refusal;
use fing_syntax::{SpanName, TyEx, TyWhat};
use fing_text::Span;
use omega_kinds::{Kind, Name};
use semantic_sigs::{Env, Kinded};
use std::alloc::Global;

/// What a type means, and its kind. The environment is good, as for all calls of this crate.
///
/// Rossberg, Russo and Dreyer, "F-ing modules", section 4, Elaboration, as for all calls of this crate.
#[cycle(elab)]
pub(crate) fn ty(alloc: Global, env: &mut Env, phrase: &TyEx) -> Result<Kinded, Refusal>
    requires { OkEnv env.old }
    ensures given { IfOk result (λ o. TyMeans env.old phrase.now o.ty (kind_tree o.kind)) }
    ensures refused { IfErr result (λ e. RefusedAs env.old (a_type phrase.now) e) }
    ensures same { OnOk result (env.new ≡ env.old) }
{
    let at = phrase.span;
    match &phrase.what {
        TyWhat::Path(path) => path_type(alloc, env, at, path),
        TyWhat::Int => base_rule(alloc, Base::Int),
        TyWhat::Bool => base_rule(alloc, Base::Bool),
        TyWhat::Text => base_rule(alloc, Base::Text),
        TyWhat::Arrow(from, to) => ty_arrow(alloc, env, from, to),
        TyWhat::Apply(operator, args) => ty_apply(alloc, env, operator, args),
        TyWhat::Fields(fields) => ty_record(alloc, env, at, fields),
        TyWhat::All(name, kind, body) => ty_all(alloc, env, name, kind, body),
        TyWhat::Lam(name, kind, body) => ty_lam(alloc, env, name, kind, body),
        TyWhat::Pack(sig) => pack_type(alloc, env, sig),
        TyWhat::Sum(labels) => ty_sum(alloc, env, at, labels),
        TyWhat::Mu(name, body) => ty_mu(alloc, env, name, body),
    }
}

/// What a type of values means.
#[cycle(elab)]
pub(crate) fn value_ty(alloc: Global, env: &mut Env, phrase: &TyEx) -> Result<Kinded, Refusal>
    requires { OkEnv env.old }
    ensures given { IfOk result (λ o. TyMeans env.old phrase.now o.ty Star) }
    ensures star { IfOk result (λ o. kind_tree o.kind ≡ Star) }
    ensures refused { IfErr result (λ e. NoValueType env.old phrase.now e) }
    ensures same { OnOk result (env.new ≡ env.old) }
{
    let found = ty(alloc, env, phrase)?;
    expect_star(env, phrase.span, &found.kind)?;
    Ok(found)
}

// `T -> U`.
#[cycle(elab)]
#[inline(never)]
fn ty_arrow(alloc: Global, env: &mut Env, from: &TyEx, to: &TyEx) -> Result<Kinded, Refusal>
    requires { OkEnv env.old }
    ensures given { IfOk result (λ o. (at : Place) → TyMeans env.old (TyAt at (TyArrow from.now to.now)) o.ty (kind_tree o.kind)) }
    ensures refused { IfErr result (λ e. (at : Place) → RefusedAs env.old (a_type (TyAt at (TyArrow from.now to.now))) e) }
    ensures same { OnOk result (env.new ≡ env.old) }
{
    let left = value_ty(alloc, env, from)?;
    let right = ty(alloc, env, to)?;
    arrow_rule(alloc, env, to.span, &left, &right)
}

// An operator and its arguments.
#[cycle(elab)]
#[inline(never)]
fn ty_apply(alloc: Global, env: &mut Env, operator: &TyEx, args: &[TyEx]) -> Result<Kinded, Refusal>
    requires { OkEnv env.old }
    ensures given { IfOk result (λ o. (at : Place) → TyMeans env.old (TyAt at (TyApply operator.now (tys args.now))) o.ty (kind_tree o.kind)) }
    ensures refused { IfErr result (λ e. (at : Place) → RefusedAs env.old (a_type (TyAt at (TyApply operator.now (tys args.now)))) e) }
    ensures same { OnOk result (env.new ≡ env.old) }
{
    let found = ty(alloc, env, operator)?;
    ty_args(alloc, env, operator.span, found, args)
}

// An operator, which stands at a place, applied to the arguments that are left.
#[cycle(elab)]
fn ty_args(
    alloc: Global,
    env: &mut Env,
    at: Span,
    operator: Kinded,
    args: &[TyEx],
) -> Result<Kinded, Refusal>
    requires env { OkEnv env.old }
    requires normal { Normal (kinds_in env.old) operator.ty (kind_tree operator.kind) }
    ensures given { IfOk result (λ o. ArgTysMean env.old operator.ty (kind_tree operator.kind) (tys args.now) o.ty (kind_tree o.kind)) }
    ensures refused { IfErr result (λ e. RefusedAs env.old (type_args (place at) operator.ty (kind_tree operator.kind) (tys args.now)) e) }
    ensures same { OnOk result (env.new ≡ env.old) }
{
    match args {
        [] => Ok(operator),
        [first, rest @ ..] => ty_arg(alloc, env, at, operator, first, rest),
    }
}

// An operator, which stands at a place, applied to one argument, and then to those that are left.
#[cycle(elab)]
#[inline(never)]
fn ty_arg(
    alloc: Global,
    env: &mut Env,
    at: Span,
    operator: Kinded,
    first: &TyEx,
    rest: &[TyEx],
) -> Result<Kinded, Refusal>
    requires env { OkEnv env.old }
    requires normal { Normal (kinds_in env.old) operator.ty (kind_tree operator.kind) }
    ensures given { IfOk result (λ o. ArgTysMean env.old operator.ty (kind_tree operator.kind) (MoreTys first.now (tys rest.now)) o.ty (kind_tree o.kind)) }
    ensures refused { IfErr result (λ e. RefusedAs env.old (type_args (place at) operator.ty (kind_tree operator.kind) (MoreTys first.now (tys rest.now))) e) }
    ensures same { OnOk result (env.new ≡ env.old) }
{
    expect_operator(env, at, &operator.kind)?;
    let arg = ty(alloc, env, first)?;
    let applied = apply_rule(alloc, env, first.span, &operator, &arg)?;
    let both = up_to(at, first.span);
    ty_args(alloc, env, both, applied, rest)
}

// A record type.
#[cycle(elab)]
#[inline(never)]
fn ty_record(
    alloc: Global,
    env: &mut Env,
    at: Span,
    fields: &[(SpanName, TyEx)],
) -> Result<Kinded, Refusal>
    requires { OkEnv env.old }
    ensures given { IfOk result (λ o. TyMeans env.old (TyAt (place at) (TyFields (field_tys fields.now))) o.ty (kind_tree o.kind)) }
    ensures refused { IfErr result (λ e. RefusedAs env.old (a_type (TyAt (place at) (TyFields (field_tys fields.now)))) e) }
    ensures same { OnOk result (env.new ≡ env.old) }
{
    let mut parts = Vec::new(alloc);
    ty_fields(alloc, env, &mut parts, fields)?;
    fields_rule(alloc, env, at, parts)
}

// A sum type.
#[cycle(elab)]
#[inline(never)]
fn ty_sum(
    alloc: Global,
    env: &mut Env,
    at: Span,
    labels: &[(SpanName, TyEx)],
) -> Result<Kinded, Refusal>
    requires { OkEnv env.old }
    ensures given { IfOk result (λ o. TyMeans env.old (TyAt (place at) (TySum (field_tys labels.now))) o.ty (kind_tree o.kind)) }
    ensures refused { IfErr result (λ e. RefusedAs env.old (a_type (TyAt (place at) (TySum (field_tys labels.now)))) e) }
    ensures same { OnOk result (env.new ≡ env.old) }
{
    let mut parts = Vec::new(alloc);
    ty_fields(alloc, env, &mut parts, labels)?;
    sum_rule(alloc, env, at, parts)
}

// The fields that are left of a record type, or the labels of a sum type, behind those that are done.
#[cycle(elab)]
fn ty_fields(
    alloc: Global,
    env: &mut Env,
    done: &mut Vec<(Name, Kinded)>,
    fields: &[(SpanName, TyEx)],
) -> Result<(), Refusal>
    requires { OkEnv env.old }
    ensures given { OnOk result ((parts : List FieldTy) × FieldTysMean env.old (names_before done.old.items) (field_tys fields.now) parts × (type_parts done.new.items ≡ type_parts done.old.items ++ parts)) }
    ensures refused { IfErr result (λ e. RefusedAs env.old (type_fields (names_before done.old.items) (field_tys fields.now)) e) }
    ensures same { OnOk result (env.new ≡ env.old) }
{
    match fields {
        [] => Ok(()),
        [first, rest @ ..] => ty_field(alloc, env, done, first, rest),
    }
}

// One field of a record type, or label of a sum type, behind those that are done, and then those that are left.
#[cycle(elab)]
fn ty_field(
    alloc: Global,
    env: &mut Env,
    done: &mut Vec<(Name, Kinded)>,
    first: &(SpanName, TyEx),
    rest: &[(SpanName, TyEx)],
) -> Result<(), Refusal>
    requires { OkEnv env.old }
    ensures given { OnOk result ((parts : List FieldTy) × FieldTysMean env.old (names_before done.old.items) (MoreFieldTys (spelled first.now.0) first.now.1 (field_tys rest.now)) parts × (type_parts done.new.items ≡ type_parts done.old.items ++ parts)) }
    ensures refused { IfErr result (λ e. RefusedAs env.old (type_fields (names_before done.old.items) (MoreFieldTys (spelled first.now.0) first.now.1 (field_tys rest.now))) e) }
    ensures same { OnOk result (env.new ≡ env.old) }
{
    expect_new(env, &first.0, done)?;
    let part = value_ty(alloc, env, &first.1)?;
    add(done, &first.0.name, part)?;
    ty_fields(alloc, env, done, rest)
}

// A type under a type parameter.
#[cycle(elab)]
fn ty_under(
    alloc: Global,
    env: &mut Env,
    name: &Name,
    kind: &Kind,
    body: &TyEx,
) -> Result<Kinded, Refusal>
    requires { OkEnv env.old }
    ensures given { IfOk result (λ o. TyMeans (with_type env.old (kind_tree kind.now) name.now) body.now o.ty (kind_tree o.kind)) }
    ensures refused { IfErr result (λ e. RefusedAs (with_type env.old (kind_tree kind.now) name.now) (a_type body.now) e) }
    ensures same { OnOk result (env.new ≡ env.old) }
{
    push_type(env, name, kind)?;
    let found = ty(alloc, env, body)?;
    leave(env, 2);
    Ok(found)
}

// `[X : K] -> T`.
#[cycle(elab)]
#[inline(never)]
fn ty_all(
    alloc: Global,
    env: &mut Env,
    name: &SpanName,
    kind: &Kind,
    body: &TyEx,
) -> Result<Kinded, Refusal>
    requires { OkEnv env.old }
    ensures given { IfOk result (λ o. (at : Place) → TyMeans env.old (TyAt at (TyAll (spelled name.now) (kind_tree kind.now) body.now)) o.ty (kind_tree o.kind)) }
    ensures refused { IfErr result (λ e. (at : Place) → RefusedAs env.old (a_type (TyAt at (TyAll (spelled name.now) (kind_tree kind.now) body.now))) e) }
    ensures same { OnOk result (env.new ≡ env.old) }
{
    let inner = ty_under(alloc, env, &name.name, kind, body)?;
    all_rule(alloc, env, body.span, kind, &inner)
}

// `fun (X : K) => T`.
#[cycle(elab)]
#[inline(never)]
fn ty_lam(
    alloc: Global,
    env: &mut Env,
    name: &SpanName,
    kind: &Kind,
    body: &TyEx,
) -> Result<Kinded, Refusal>
    requires { OkEnv env.old }
    ensures given { IfOk result (λ o. (at : Place) → TyMeans env.old (TyAt at (TyLam (spelled name.now) (kind_tree kind.now) body.now)) o.ty (kind_tree o.kind)) }
    ensures refused { IfErr result (λ e. (at : Place) → RefusedAs env.old (a_type (TyAt at (TyLam (spelled name.now) (kind_tree kind.now) body.now))) e) }
    ensures same { OnOk result (env.new ≡ env.old) }
{
    let inner = ty_under(alloc, env, &name.name, kind, body)?;
    lam_rule(alloc, kind, &inner)
}

// A recursive type, for which its name stands in the body.
#[cycle(elab)]
#[inline(never)]
fn ty_mu(alloc: Global, env: &mut Env, name: &SpanName, body: &TyEx) -> Result<Kinded, Refusal>
    requires { OkEnv env.old }
    ensures given { IfOk result (λ o. (at : Place) → TyMeans env.old (TyAt at (TyMu (spelled name.now) body.now)) o.ty (kind_tree o.kind)) }
    ensures refused { IfErr result (λ e. (at : Place) → RefusedAs env.old (a_type (TyAt at (TyMu (spelled name.now) body.now))) e) }
    ensures same { OnOk result (env.new ≡ env.old) }
{
    let inner = ty_under(alloc, env, &name.name, &Kind::Star, body)?;
    mu_rule(alloc, env, body.span, &inner)
}
