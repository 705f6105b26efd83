// Signatures: what each form means in an environment.
ghost use Rattle.std.specs.Prelude.{◌≡◌, IfErr, IfOk, OnOk, map};
ghost use Rattle.sig_definitions.specs.Env.{with_module};
ghost use Rattle.sig_laws.specs.Good.{OkEnv};
ghost use Rattle.semantic_sigs.specs.Inner.View.{body_of, kinds_of};
ghost use Rattle.elab_judgments.specs.Judgments.Meaning.{SigMeans};
ghost use Rattle.elab_judgments.specs.Refusals.Task.{a_sig};
ghost use Rattle.fing_syntax.specs.Inner.Leaves.{place, spelled};
ghost use Rattle.fing_syntax.specs.Phrase.{PathSig, SigAt, SigDecls, SigFun, SigRefine, Span as Place};
ghost use Rattle.fing_syntax.specs.Inner.View.{decls as decls_of};
ghost use Rattle.elab_rules.specs.Inner.Answered.{RefusedAs};

use crate::declarations::decls;
use crate::modules::module;
use crate::types::ty;
use elab_rules::path_rules::sig_path_rule;
use elab_rules::scopes::{leave, push_module};
use elab_rules::sets::NameSet;
use elab_rules::signature_rules::{functor_rule, lift_rule, where_rule};
use fing_refusals::Refusal;
use fing_syntax::{Decl, Mod, SigEx, SigWhat, SpanName, TyEx};
use fing_text::Span;
use omega_kinds::Name;
use semantic_sigs::{Abs, Env};
use std::alloc::Global;

/// What a signature means.
#[cycle(elab)]
pub(crate) fn sig(alloc: Global, env: &mut Env, phrase: &SigEx) -> Result<Abs, Refusal>
    requires { OkEnv env.old }
    ensures given { IfOk result (λ x. SigMeans env.old phrase.now x) }
    ensures refused { IfErr result (λ e. RefusedAs env.old (a_sig phrase.now) e) }
    ensures same { OnOk result (env.new ≡ env.old) }
{
    match &phrase.what {
        SigWhat::Path(path) => path_sig(alloc, env, phrase.span, path),
        SigWhat::Sig(list) => sig_decls(alloc, env, list),
        SigWhat::Fun {
            pure,
            name,
            param,
            result: target,
        } => sig_fun(alloc, env, *pure, name, param, target),
        SigWhat::Refine {
            sig: whole,
            first,
            rest,
            ty: by,
        } => sig_refine(alloc, env, whole, first, rest, by),
    }
}

// A path.
#[cycle(elab)]
#[inline(never)]
fn path_sig(alloc: Global, env: &mut Env, at: Span, path: &Mod) -> Result<Abs, Refusal>
    requires { OkEnv env.old }
    ensures given { IfOk result (λ x. SigMeans env.old (SigAt (place at) (PathSig path.now)) x) }
    ensures refused { IfErr result (λ e. RefusedAs env.old (a_sig (SigAt (place at) (PathSig path.now))) e) }
    ensures same { OnOk result (env.new ≡ env.old) }
{
    let found = module(alloc, env, path)?;
    sig_path_rule(alloc, env, at, found)
}

// Declarations in a row.
#[cycle(elab)]
#[inline(never)]
fn sig_decls(alloc: Global, env: &mut Env, list: &[Decl]) -> Result<Abs, Refusal>
    requires { OkEnv env.old }
    ensures given { IfOk result (λ x. (at : Place) → SigMeans env.old (SigAt at (SigDecls (decls_of list.now))) x) }
    ensures refused { IfErr result (λ e. (at : Place) → RefusedAs env.old (a_sig (SigAt at (SigDecls (decls_of list.now)))) e) }
    ensures same { OnOk result (env.new ≡ env.old) }
{
    let found = decls(alloc, env, NameSet::new(alloc), list)?;
    Ok(found.whole(alloc)?)
}

// A signature under a module of a name and a signature.
#[cycle(elab)]
fn sig_under(
    alloc: Global,
    env: &mut Env,
    name: &Name,
    param: &Abs,
    body: &SigEx,
) -> Result<Abs, Refusal>
    requires { OkEnv (with_module env.old (kinds_of param.now) name.now (body_of param.now)) }
    ensures given { IfOk result (λ x. SigMeans (with_module env.old (kinds_of param.now) name.now (body_of param.now)) body.now x) }
    ensures refused { IfErr result (λ e. RefusedAs (with_module env.old (kinds_of param.now) name.now (body_of param.now)) (a_sig body.now) e) }
    ensures same { OnOk result (env.new ≡ env.old) }
{
    push_module(env, name, param)?;
    let found = sig(alloc, env, body)?;
    leave(env, param.kinds().items().len() + 1);
    Ok(found)
}

// The signature of functors.
#[cycle(elab)]
#[inline(never)]
fn sig_fun(
    alloc: Global,
    env: &mut Env,
    pure: bool,
    name: &SpanName,
    param: &SigEx,
    target: &SigEx,
) -> Result<Abs, Refusal>
    requires { OkEnv env.old }
    ensures given { IfOk result (λ x. (at : Place) → SigMeans env.old (SigAt at (SigFun pure (spelled name.now) param.now target.now)) x) }
    ensures refused { IfErr result (λ e. (at : Place) → RefusedAs env.old (a_sig (SigAt at (SigFun pure (spelled name.now) param.now target.now))) e) }
    ensures same { OnOk result (env.new ≡ env.old) }
{
    let from = sig(alloc, env, param)?;
    let to = sig_under(alloc, env, &name.name, &from, target)?;
    if pure {
        Ok(lift_rule(alloc, &from, &to)?)
    } else {
        functor_rule(alloc, &from, &to)
    }
}

// A signature in which a type is made equal to another.
#[cycle(elab)]
#[inline(never)]
fn sig_refine(
    alloc: Global,
    env: &mut Env,
    whole: &SigEx,
    first: &SpanName,
    rest: &[SpanName],
    by: &TyEx,
) -> Result<Abs, Refusal>
    requires { OkEnv env.old }
    ensures given { IfOk result (λ x. (at : Place) → SigMeans env.old (SigAt at (SigRefine whole.now (spelled first.now) (map spelled rest.now) by.now)) x) }
    ensures refused { IfErr result (λ e. (at : Place) → RefusedAs env.old (a_sig (SigAt at (SigRefine whole.now (spelled first.now) (map spelled rest.now) by.now))) e) }
    ensures same { OnOk result (env.new ≡ env.old) }
{
    let found = sig(alloc, env, whole)?;
    let fixed = ty(alloc, env, by)?;
    where_rule(alloc, env, &found, first, rest, by, &fixed)
}
