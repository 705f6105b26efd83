// Bindings: what each form means, and what a structure of them means, in an environment.
ghost use Rattle.std.specs.Prelude.{◌≡◌, IfErr, IfOk, OnOk};
ghost use Rattle.sig_definitions.specs.Env.{named_fields, with_module};
ghost use Rattle.sig_definitions.specs.Signatures.FieldOrder.{with_name as with_name_after, with_names as with_names_after};
ghost use Rattle.sig_laws.specs.Good.{Names as GoodNames, OkEnv};
ghost use Rattle.semantic_sigs.specs.Inner.Fields.{sig_row};
ghost use Rattle.semantic_sigs.specs.Inner.Made.{module_of};
ghost use Rattle.semantic_sigs.specs.Inner.View.{body_of, kinds_of};
ghost use Rattle.elab_judgments.specs.Judgments.Meaning.{BindMeans, BindsMean};
ghost use Rattle.elab_judgments.specs.Operators.{include_name};
ghost use Rattle.elab_judgments.specs.Refusals.Task.{a_bind, binds as binds_task};
ghost use Rattle.fing_syntax.specs.Phrase.{BindAt, BindInclude, MoreBinds, Span as Place};
ghost use Rattle.fing_syntax.specs.Inner.View.{binds as binds_of};
ghost use Rattle.elab_rules.specs.Inner.Answered.{RefusedAs};
ghost use Rattle.elab_rules.specs.Inner.Modules.{IsSingle};
ghost use Rattle.elab_phrases.specs.Inner.Rests.{RestMeans};

use crate::expressions::exp;
use crate::modules::module;
use crate::sigs::sig;
use crate::types::ty;
use elab_rules::mod_rules::{end_rule, include_of, include_rule};
use elab_rules::refusing::refuse;
use elab_rules::scopes::{leave, push_included, push_module};
use elab_rules::sets::{NameSet, with_names};
use fing_refusals::{ElabWhy, Refusal};
use fing_syntax::{Bind, BindWhat, Mod};
use module_rests::Rest;
use module_rules::{bind_sig, bind_type, bind_val};
use omega_kinds::Name;
use semantic_sigs::{Abs, Env, Module, SigFields};
use std::alloc::Global;

/// The rest of a structure, after bindings of the names before, which rise and are bound in the environment, a good one.
/// Ok is the module that the rest means there. `Err` is the refusal of the first condition that fails in the order of the
/// text, or want of memory.
///
/// Rossberg, Russo and Dreyer, "F-ing modules", section 4, Elaboration, Bindings.
pub fn structure(alloc: Global, env: Env, before: NameSet, list: &[Bind]) -> Result<Module, Refusal>
    requires env { OkEnv env }
    requires names { GoodNames env before }
    ensures given { IfOk result (λ m. BindsMean env before (binds_of list.now) (module_of m)) }
    ensures refused { IfErr result (λ e. RefusedAs env (binds_task before (binds_of list.now)) e) }
{
    let mut own = env;
    binds(alloc, &mut own, before, list)
}

/// The same. The environment is as it was where there is an answer; after a refusal it is as far as elaboration went.
#[cycle(elab)]
pub(crate) fn binds(
    alloc: Global,
    env: &mut Env,
    before: NameSet,
    list: &[Bind],
) -> Result<Module, Refusal>
    requires env { OkEnv env.old }
    requires names { GoodNames env.old before }
    ensures given { IfOk result (λ m. BindsMean env.old before (binds_of list.now) (module_of m)) }
    ensures refused { IfErr result (λ e. RefusedAs env.old (binds_task before (binds_of list.now)) e) }
    ensures same { OnOk result (env.new ≡ env.old) }
{
    let rest = gathered(alloc, env, before, list)?;
    let whole = rest.join(alloc)?;
    Ok(whole)
}

// The same, with its pure bindings gathered.
#[cycle(elab)]
fn gathered(alloc: Global, env: &mut Env, before: NameSet, list: &[Bind]) -> Result<Rest, Refusal>
    requires env { OkEnv env.old }
    requires names { GoodNames env.old before }
    ensures given { IfOk result (λ r. RestMeans env.old before (binds_of list.now) r) }
    ensures refused { IfErr result (λ e. RefusedAs env.old (binds_task before (binds_of list.now)) e) }
    ensures same { OnOk result (env.new ≡ env.old) }
{
    match list {
        [] => {
            let end = end_rule(alloc, env, &before)?;
            Ok(Rest::of(alloc, end))
        }
        [first, rest @ ..] => binds_from(alloc, env, before, first, rest),
    }
}

// A binding and the rest of a structure.
#[cycle(elab)]
fn binds_from(
    alloc: Global,
    env: &mut Env,
    before: NameSet,
    first: &Bind,
    rest: &[Bind],
) -> Result<Rest, Refusal>
    requires env { OkEnv env.old }
    requires names { GoodNames env.old before }
    ensures given { IfOk result (λ r. RestMeans env.old before (MoreBinds first.now (binds_of rest.now)) r) }
    ensures refused { IfErr result (λ e. RefusedAs env.old (binds_task before (MoreBinds first.now (binds_of rest.now))) e) }
    ensures same { OnOk result (env.new ≡ env.old) }
{
    let Some(whole) = include_of(first) else {
        return bound(alloc, env, before, first, rest);
    };
    included(alloc, env, before, whole, rest)
}

// A single binding and the rest of a structure.
#[cycle(elab)]
fn bound(
    alloc: Global,
    env: &mut Env,
    before: NameSet,
    first: &Bind,
    rest: &[Bind],
) -> Result<Rest, Refusal>
    requires env { OkEnv env.old }
    requires names { GoodNames env.old before }
    requires single { IsSingle first.now }
    ensures given { IfOk result (λ r. RestMeans env.old before (MoreBinds first.now (binds_of rest.now)) r) }
    ensures refused { IfErr result (λ e. RefusedAs env.old (binds_task before (MoreBinds first.now (binds_of rest.now))) e) }
    ensures same { OnOk result (env.new ≡ env.old) }
{
    let own = bind(alloc, env, first)?;
    let tail = binds_under(alloc, env, before, &own.0, &own.1.sig, rest)?;
    let more = tail.bind(alloc, own.1)?;
    Ok(more)
}

// The rest of a structure, under a binding of a name and a signature before it.
#[cycle(elab)]
fn binds_under(
    alloc: Global,
    env: &mut Env,
    before: NameSet,
    name: &Name,
    head: &Abs,
    rest: &[Bind],
) -> Result<Rest, Refusal>
    requires env { OkEnv (with_module env.old (kinds_of head.now) name.now (body_of head.now)) }
    requires names { GoodNames (with_module env.old (kinds_of head.now) name.now (body_of head.now)) (with_name_after name.now before) }
    ensures given { IfOk result (λ r. RestMeans (with_module env.old (kinds_of head.now) name.now (body_of head.now)) (with_name_after name.now before) (binds_of rest.now) r) }
    ensures refused { IfErr result (λ e. RefusedAs (with_module env.old (kinds_of head.now) name.now (body_of head.now)) (binds_task (with_name_after name.now before) (binds_of rest.now)) e) }
    ensures same { OnOk result (env.new ≡ env.old) }
{
    let names = before.with(name)?;
    push_module(env, name, head)?;
    let found = gathered(alloc, env, names, rest)?;
    leave(env, head.kinds().items().len() + 1);
    Ok(found)
}

// `include M` and the rest of a structure.
#[cycle(elab)]
#[inline(never)]
fn included(
    alloc: Global,
    env: &mut Env,
    before: NameSet,
    whole: &Mod,
    rest: &[Bind],
) -> Result<Rest, Refusal>
    requires env { OkEnv env.old }
    requires names { GoodNames env.old before }
    ensures given { IfOk result (λ r. (at : Place) → RestMeans env.old before (MoreBinds (BindAt at (BindInclude whole.now)) (binds_of rest.now)) r) }
    ensures refused { IfErr result (λ e. (at : Place) → RefusedAs env.old (binds_task before (MoreBinds (BindAt at (BindInclude whole.now)) (binds_of rest.now))) e) }
    ensures same { OnOk result (env.new ≡ env.old) }
{
    let head = module(alloc, env, whole)?;
    let Some(fields) = head.sig.body().as_structure() else {
        return Err(refuse(env, whole.span, ElabWhy::NotStructure));
    };
    let tail = included_under(alloc, env, before, &head.sig, fields, rest)?;
    let last = tail.join(alloc)?;
    let made = include_rule(alloc, head, last)?;
    Ok(Rest::of(alloc, made))
}

// The rest of a structure, under an included module of a signature, which has a hidden name, and then each of its fields.
#[cycle(elab)]
fn included_under(
    alloc: Global,
    env: &mut Env,
    before: NameSet,
    head: &Abs,
    fields: &SigFields,
    rest: &[Bind],
) -> Result<Rest, Refusal>
    requires env { OkEnv (named_fields (with_module env.old (kinds_of head.now) include_name (body_of head.now)) (sig_row fields.now)) }
    requires names { GoodNames (named_fields (with_module env.old (kinds_of head.now) include_name (body_of head.now)) (sig_row fields.now)) (with_names_after (sig_row fields.now) before) }
    ensures given { IfOk result (λ r. RestMeans (named_fields (with_module env.old (kinds_of head.now) include_name (body_of head.now)) (sig_row fields.now)) (with_names_after (sig_row fields.now) before) (binds_of rest.now) r) }
    ensures refused { IfErr result (λ e. RefusedAs (named_fields (with_module env.old (kinds_of head.now) include_name (body_of head.now)) (sig_row fields.now)) (binds_task (with_names_after (sig_row fields.now) before) (binds_of rest.now)) e) }
    ensures same { OnOk result (env.new ≡ env.old) }
{
    let names = with_names(before, fields)?;
    push_included(alloc, env, head, fields)?;
    let found = gathered(alloc, env, names, rest)?;
    leave(env, fields.items().len());
    leave(env, head.kinds().items().len() + 1);
    Ok(found)
}

// A single binding: its name, and what it binds. An include is none: the rest of a structure takes it.
#[cycle(elab)]
#[inline(never)]
fn bind(alloc: Global, env: &mut Env, phrase: &Bind) -> Result<(Name, Module), Refusal>
    requires { OkEnv env.old }
    ensures given { IfOk result (λ o. BindMeans env.old phrase.now o.0 (module_of o.1)) }
    ensures refused { IfErr result (λ e. RefusedAs env.old (a_bind phrase.now) e) }
    ensures same { OnOk result (env.new ≡ env.old) }
{
    match &phrase.what {
        BindWhat::Val(name, value) => {
            let found = exp(alloc, env, value)?;
            let made = bind_val(alloc, found)?;
            let own = name.name.share()?;
            Ok((own, made))
        }
        BindWhat::Ty(name, of) => {
            let found = ty(alloc, env, of)?;
            let made = bind_type(alloc, &found)?;
            let own = name.name.share()?;
            Ok((own, made))
        }
        BindWhat::Module(name, of) => {
            let made = module(alloc, env, of)?;
            let own = name.name.share()?;
            Ok((own, made))
        }
        BindWhat::Signature(name, of) => {
            let found = sig(alloc, env, of)?;
            let made = bind_sig(alloc, &found)?;
            let own = name.name.share()?;
            Ok((own, made))
        }
        BindWhat::Include(_) => Err(refuse(env, phrase.span, ElabWhy::NotStructure)),
    }
}
