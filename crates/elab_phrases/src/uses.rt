// Phrases of modules and signatures used as types and values.
ghost use Rattle.std.specs.Prelude.{◌≡◌, IfErr, IfOk, OnOk};
ghost use Rattle.omega_kinds.specs.View.{kind_tree};
ghost use Rattle.sig_laws.specs.Good.{OkEnv};
ghost use Rattle.elab_judgments.specs.Judgments.Meaning.{ExpMeans, TyMeans};
ghost use Rattle.elab_judgments.specs.Refusals.Task.{a_type, an_exp};
ghost use Rattle.fing_syntax.specs.Inner.Leaves.{place, spelled};
ghost use Rattle.fing_syntax.specs.Phrase.{ExpAt, ExpPack, PathExp, PathTy, Span as Place, TyAt, TyPack};
ghost use Rattle.elab_rules.specs.Inner.Answered.{RefusedAs};

use crate::modules::module;
use crate::sigs::sig;
use elab_rules::mod_rules::{match_rule, named_rule};
use elab_rules::path_rules::{type_path_rule, value_path_rule};
use fing_refusals::Refusal;
use fing_syntax::{Mod, SigEx, SpanName};
use fing_text::Span;
use packages::norm;
use semantic_sigs::{Env, Kinded, Typed};
use std::alloc::Global;

/// A path as a type.
#[cycle(elab)]
pub(crate) fn path_type(
    alloc: Global,
    env: &mut Env,
    at: Span,
    path: &Mod,
) -> Result<Kinded, Refusal>
    requires { OkEnv env.old }
    ensures given { IfOk result (λ o. TyMeans env.old (TyAt (place at) (PathTy path.now)) o.ty (kind_tree o.kind)) }
    ensures refused { IfErr result (λ e. RefusedAs env.old (a_type (TyAt (place at) (PathTy path.now))) e) }
    ensures same { OnOk result (env.new ≡ env.old) }
{
    let found = module(alloc, env, path)?;
    type_path_rule(alloc, env, at, found)
}

/// `pack S`.
#[cycle(elab)]
pub(crate) fn pack_type(alloc: Global, env: &mut Env, by: &SigEx) -> Result<Kinded, Refusal>
    requires { OkEnv env.old }
    ensures given { IfOk result (λ o. (at : Place) → TyMeans env.old (TyAt at (TyPack by.now)) o.ty (kind_tree o.kind)) }
    ensures refused { IfErr result (λ e. (at : Place) → RefusedAs env.old (a_type (TyAt at (TyPack by.now))) e) }
    ensures same { OnOk result (env.new ≡ env.old) }
{
    let target = sig(alloc, env, by)?;
    Ok(packages::pack_type(alloc, &target)?)
}

/// A path as a value.
#[cycle(elab)]
pub(crate) fn path_value(
    alloc: Global,
    env: &mut Env,
    at: Span,
    path: &Mod,
) -> Result<Typed, Refusal>
    requires { OkEnv env.old }
    ensures given { IfOk result (λ o. ExpMeans env.old (ExpAt (place at) (PathExp path.now)) o.ty o.term) }
    ensures refused { IfErr result (λ e. RefusedAs env.old (an_exp (ExpAt (place at) (PathExp path.now))) e) }
    ensures same { OnOk result (env.new ≡ env.old) }
{
    let found = module(alloc, env, path)?;
    value_path_rule(alloc, env, at, found)
}

/// `pack X : S`.
#[cycle(elab)]
pub(crate) fn pack_value(
    alloc: Global,
    env: &mut Env,
    name: &SpanName,
    by: &SigEx,
) -> Result<Typed, Refusal>
    requires { OkEnv env.old }
    ensures given { IfOk result (λ o. (at : Place) → ExpMeans env.old (ExpAt at (ExpPack (spelled name.now) by.now)) o.ty o.term) }
    ensures refused { IfErr result (λ e. (at : Place) → RefusedAs env.old (an_exp (ExpAt at (ExpPack (spelled name.now) by.now))) e) }
    ensures same { OnOk result (env.new ≡ env.old) }
{
    let found = named_rule(alloc, env, name)?;
    let target = sig(alloc, env, by)?;
    let ordered = norm(alloc, &target)?;
    let matched = match_rule(alloc, env, by.span, found.sig.body(), &ordered)?;
    let coercion = matched.coercion;
    let types = matched.types.items();
    Ok(packages::pack_value(alloc, found.term, &ordered, types, coercion)?)
}
