// Paths of names: they are followed at the place of their first name, so that only the part to which they lead is shifted.
ghost use Rattle.std.specs.Prelude.{IfErr, IfOk, IfSome};
ghost use Rattle.elab_judgments.specs.Judgments.Meaning.{ModMeans};
ghost use Rattle.elab_judgments.specs.Refusals.Task.{a_mod};
ghost use Rattle.fing_syntax.specs.Inner.Leaves.{spelled};
ghost use Rattle.fing_syntax.specs.Phrase.{ModAt, ModName, ModProject, Span as Place};
ghost use Rattle.semantic_sigs.specs.Inner.Made.{module_of};
ghost use Rattle.semantic_sigs.specs.Inner.Standing.{standing_module};
ghost use Rattle.elab_rules.specs.Inner.Answered.{RefusedAs};

use crate::mod_rules::part_rule;
use fing_refusals::Refusal;
use fing_syntax::{Mod, ModWhat, SpanName};
use module_rules::raised;
use semantic_sigs::{Env, Module, Standing};
use std::alloc::Global;

/// `M.X`, where M is a path of names; `None` where it is another phrase, or where its first name is no module's.
#[inline(never)]
pub fn path_part(
    alloc: Global,
    env: &Env,
    whole: &Mod,
    name: &SpanName,
) -> Result<Option<Module>, Refusal>
    ensures given { IfOk result (λ o. IfSome o (λ m. (at : Place) → ModMeans env.now (ModAt at (ModProject whole.now (spelled name.now))) (module_of m))) }
    ensures refused { IfErr result (λ e. (at : Place) → RefusedAs env.now (a_mod (ModAt at (ModProject whole.now (spelled name.now)))) e) }
{
    match standing_project(alloc, env, whole, name)? {
        Some(found) => Ok(Some(raised(alloc, &found)?)),
        None => Ok(None),
    }
}

// The module of a path of names at the place of its first name; `None` as above.
#[cycle(standing)]
fn standing<'a>(alloc: Global, env: &'a Env, phrase: &Mod) -> Result<Option<Standing<'a>>, Refusal>
    ensures given { IfOk result (λ o. IfSome o (λ m. ModMeans env.now phrase.now (standing_module m))) }
    ensures refused { IfErr result (λ e. RefusedAs env.now (a_mod phrase.now) e) }
{
    match &phrase.what {
        ModWhat::Name(name) => standing_name(alloc, env, name),
        ModWhat::Project(whole, name) => standing_project(alloc, env, whole, name),
        _ => Ok(None),
    }
}

// `X`.
fn standing_name<'a>(
    alloc: Global,
    env: &'a Env,
    name: &SpanName,
) -> Result<Option<Standing<'a>>, Refusal>
    ensures given { IfOk result (λ o. IfSome o (λ m. (at : Place) → ModMeans env.now (ModAt at (ModName (spelled name.now))) (standing_module m))) }
    ensures refused { IfErr result (λ e. (at : Place) → RefusedAs env.now (a_mod (ModAt at (ModName (spelled name.now)))) e) }
{
    Ok(env.standing(alloc, &name.name)?)
}

// `M.X`.
#[cycle(standing)]
fn standing_project<'a>(
    alloc: Global,
    env: &'a Env,
    whole: &Mod,
    name: &SpanName,
) -> Result<Option<Standing<'a>>, Refusal>
    ensures given { IfOk result (λ o. IfSome o (λ m. (at : Place) → ModMeans env.now (ModAt at (ModProject whole.now (spelled name.now))) (standing_module m))) }
    ensures refused { IfErr result (λ e. (at : Place) → RefusedAs env.now (a_mod (ModAt at (ModProject whole.now (spelled name.now)))) e) }
{
    match standing(alloc, env, whole)? {
        Some(found) => Ok(Some(part_rule(alloc, env, name.span, &found, &name.name)?)),
        None => Ok(None),
    }
}
