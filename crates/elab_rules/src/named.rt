// Modules of names alone: a name, and a name applied to another.
ghost use Rattle.std.specs.Prelude.{IfErr, IfOk};
ghost use Rattle.sig_laws.specs.Good.{OkEnv};
ghost use Rattle.semantic_sigs.specs.Inner.Made.{module_of};
ghost use Rattle.elab_judgments.specs.Judgments.Meaning.{ModMeans};
ghost use Rattle.elab_judgments.specs.Refusals.Task.{a_mod};
ghost use Rattle.fing_syntax.specs.Inner.Leaves.{spelled};
ghost use Rattle.fing_syntax.specs.Phrase.{ModApply, ModAt, ModName, Span as Place};
ghost use Rattle.elab_rules.specs.Inner.Answered.{RefusedAs};

use crate::mod_rules::{apply_rule, match_rule, named_rule, parts_rule};
use fing_refusals::Refusal;
use fing_syntax::SpanName;
use semantic_sigs::{Env, Module};
use std::alloc::Global;

/// What the name of a module means.
#[inline(never)]
pub fn mod_name(alloc: Global, env: &Env, name: &SpanName) -> Result<Module, Refusal>
    requires { OkEnv env.now }
    ensures given { IfOk result (λ m. (at : Place) → ModMeans env.now (ModAt at (ModName (spelled name.now))) (module_of m)) }
    ensures refused { IfErr result (λ e. (at : Place) → RefusedAs env.now (a_mod (ModAt at (ModName (spelled name.now)))) e) }
{
    named_rule(alloc, env, name)
}

/// What a named functor means, applied to a named module: `X1 X2`.
#[inline(never)]
pub fn mod_apply(
    alloc: Global,
    env: &Env,
    function: &SpanName,
    arg: &SpanName,
) -> Result<Module, Refusal>
    requires { OkEnv env.now }
    ensures given { IfOk result (λ m. (at : Place) → ModMeans env.now (ModAt at (ModApply (spelled function.now) (spelled arg.now))) (module_of m)) }
    ensures refused { IfErr result (λ e. (at : Place) → RefusedAs env.now (a_mod (ModAt at (ModApply (spelled function.now) (spelled arg.now)))) e) }
{
    let functor = named_rule(alloc, env, function)?;
    let parts = parts_rule(alloc, env, function.span, functor.sig.body())?;
    let found = named_rule(alloc, env, arg)?;
    let matched = match_rule(alloc, env, arg.span, found.sig.body(), &parts.1)?;
    Ok(apply_rule(alloc, &functor, found.term, matched)?)
}
