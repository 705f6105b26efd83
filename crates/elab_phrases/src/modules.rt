// Modules: what each form means in an environment.
ghost use Rattle.std.specs.Prelude.{◌≡◌, [], IfErr, IfOk, OnOk};
ghost use Rattle.sig_definitions.specs.Env.{with_module};
ghost use Rattle.sig_laws.specs.Good.{OkEnv};
ghost use Rattle.semantic_sigs.specs.Inner.Made.{module_of};
ghost use Rattle.semantic_sigs.specs.Inner.View.{body_of, kinds_of};
ghost use Rattle.elab_judgments.specs.Judgments.Meaning.{ModMeans};
ghost use Rattle.elab_judgments.specs.Refusals.Task.{a_mod};
ghost use Rattle.fing_syntax.specs.Inner.Leaves.{spelled};
ghost use Rattle.fing_syntax.specs.Phrase.{ModAt, ModFunctor, ModProject, ModSeal, ModStruct, ModUnpack, Span as Place};
ghost use Rattle.fing_syntax.specs.Inner.View.{binds as binds_of};
ghost use Rattle.elab_rules.specs.Inner.Answered.{RefusedAs};

use crate::bindings::binds;
use crate::expressions::exp;
use crate::sigs::sig;
use elab_rules::mod_rules::{functor_rule, match_rule, named_rule, project_rule};
use elab_rules::named::{mod_apply, mod_name};
use elab_rules::package_rules::unpack_rule;
use elab_rules::paths::path_part;
use elab_rules::scopes::{leave, push_module};
use elab_rules::sets::NameSet;
use fing_refusals::Refusal;
use fing_syntax::{Bind, Exp, Mod, ModWhat, SigEx, SpanName};
use module_rules::seal;
use omega_kinds::Name;
use packages::norm;
use semantic_sigs::{Abs, Env, Module};
use std::alloc::Global;

/// What a module means: its effect, its signature, the types that it keeps, and its term.
///
/// Rossberg, Russo and Dreyer, "F-ing modules", sections 4 and 7.
#[cycle(elab)]
pub(crate) fn module(alloc: Global, env: &mut Env, phrase: &Mod) -> Result<Module, Refusal>
    requires { OkEnv env.old }
    ensures given { IfOk result (λ m. ModMeans env.old phrase.now (module_of m)) }
    ensures refused { IfErr result (λ e. RefusedAs env.old (a_mod phrase.now) e) }
    ensures same { OnOk result (env.new ≡ env.old) }
{
    match &phrase.what {
        ModWhat::Name(name) => mod_name(alloc, env, name),
        ModWhat::Struct(list) => mod_struct(alloc, env, list),
        ModWhat::Project(whole, name) => mod_project(alloc, env, whole, name),
        ModWhat::Functor {
            generative,
            name,
            param,
            body,
        } => mod_functor(alloc, env, *generative, name, param, body),
        ModWhat::Apply(function, arg) => mod_apply(alloc, env, function, arg),
        ModWhat::Seal(name, by) => mod_seal(alloc, env, name, by),
        ModWhat::Unpack(value, by) => mod_unpack(alloc, env, value, by),
    }
}

// A structure.
#[cycle(elab)]
fn mod_struct(alloc: Global, env: &mut Env, list: &[Bind]) -> Result<Module, Refusal>
    requires { OkEnv env.old }
    ensures given { IfOk result (λ m. (at : Place) → ModMeans env.old (ModAt at (ModStruct (binds_of list.now))) (module_of m)) }
    ensures refused { IfErr result (λ e. (at : Place) → RefusedAs env.old (a_mod (ModAt at (ModStruct (binds_of list.now)))) e) }
    ensures same { OnOk result (env.new ≡ env.old) }
{
    binds(alloc, env, NameSet::new(alloc), list)
}

// `M.X`.
#[cycle(elab)]
#[inline(never)]
fn mod_project(
    alloc: Global,
    env: &mut Env,
    whole: &Mod,
    name: &SpanName,
) -> Result<Module, Refusal>
    requires { OkEnv env.old }
    ensures given { IfOk result (λ m. (at : Place) → ModMeans env.old (ModAt at (ModProject whole.now (spelled name.now))) (module_of m)) }
    ensures refused { IfErr result (λ e. (at : Place) → RefusedAs env.old (a_mod (ModAt at (ModProject whole.now (spelled name.now)))) e) }
    ensures same { OnOk result (env.new ≡ env.old) }
{
    if let Some(part) = path_part(alloc, env, whole, name)? {
        return Ok(part);
    }
    let found = module(alloc, env, whole)?;
    project_rule(alloc, env, name.span, found, &name.name)
}

// A module under one of a name and a signature.
#[cycle(elab)]
fn mod_under(
    alloc: Global,
    env: &mut Env,
    name: &Name,
    param: &Abs,
    body: &Mod,
) -> Result<Module, Refusal>
    requires { OkEnv (with_module env.old (kinds_of param.now) name.now (body_of param.now)) }
    ensures given { IfOk result (λ m. ModMeans (with_module env.old (kinds_of param.now) name.now (body_of param.now)) body.now (module_of m)) }
    ensures refused { IfErr result (λ e. RefusedAs (with_module env.old (kinds_of param.now) name.now (body_of param.now)) (a_mod body.now) e) }
    ensures same { OnOk result (env.new ≡ env.old) }
{
    push_module(env, name, param)?;
    let found = module(alloc, env, body)?;
    leave(env, param.kinds().items().len() + 1);
    Ok(found)
}

// `fun (X : S) => M` and `gen (X : S) => M`.
#[cycle(elab)]
#[inline(never)]
fn mod_functor(
    alloc: Global,
    env: &mut Env,
    generative: bool,
    name: &SpanName,
    param: &SigEx,
    body: &Mod,
) -> Result<Module, Refusal>
    requires { OkEnv env.old }
    ensures given { IfOk result (λ m. (at : Place) → ModMeans env.old (ModAt at (ModFunctor generative (spelled name.now) param.now body.now)) (module_of m)) }
    ensures refused { IfErr result (λ e. (at : Place) → RefusedAs env.old (a_mod (ModAt at (ModFunctor generative (spelled name.now) param.now body.now))) e) }
    ensures same { OnOk result (env.new ≡ env.old) }
{
    let from = sig(alloc, env, param)?;
    let inner = mod_under(alloc, env, &name.name, &from, body)?;
    Ok(functor_rule(alloc, generative, &from, inner)?)
}

// `X :> S`.
#[cycle(elab)]
#[inline(never)]
fn mod_seal(alloc: Global, env: &mut Env, name: &SpanName, by: &SigEx) -> Result<Module, Refusal>
    requires { OkEnv env.old }
    ensures given { IfOk result (λ m. (at : Place) → ModMeans env.old (ModAt at (ModSeal (spelled name.now) by.now)) (module_of m)) }
    ensures refused { IfErr result (λ e. (at : Place) → RefusedAs env.old (a_mod (ModAt at (ModSeal (spelled name.now) by.now))) e) }
    ensures same { OnOk result (env.new ≡ env.old) }
{
    let found = named_rule(alloc, env, name)?;
    let target = sig(alloc, env, by)?;
    let matched = match_rule(alloc, env, by.span, found.sig.body(), &target)?;
    Ok(seal(alloc, found.term, &target, matched.types, matched.coercion)?)
}

// `unpack E : S`.
#[cycle(elab)]
#[inline(never)]
fn mod_unpack(alloc: Global, env: &mut Env, value: &Exp, by: &SigEx) -> Result<Module, Refusal>
    requires { OkEnv env.old }
    ensures given { IfOk result (λ m. (at : Place) → ModMeans env.old (ModAt at (ModUnpack value.now by.now)) (module_of m)) }
    ensures refused { IfErr result (λ e. (at : Place) → RefusedAs env.old (a_mod (ModAt at (ModUnpack value.now by.now))) e) }
    ensures same { OnOk result (env.new ≡ env.old) }
{
    let packed = exp(alloc, env, value)?;
    let target = sig(alloc, env, by)?;
    let order = norm(alloc, &target)?;
    unpack_rule(alloc, env, value.span, packed, &order)
}

/// What `X :> S` means in a good environment, which is borrowed as by `module_in`. A refusal of the name has the name's place.
///
/// Rossberg, Russo and Dreyer, "F-ing modules", section 4, Elaboration, Modules.
pub fn sealed_in(
    alloc: Global,
    env: &mut Env,
    name: &SpanName,
    by: &SigEx,
) -> Result<Module, Refusal>
    requires { OkEnv env.old }
    ensures given { IfOk result (λ m. (at : Place) → ModMeans env.old (ModAt at (ModSeal (spelled name.now) by.now)) (module_of m)) }
    ensures refused { IfErr result (λ e. (at : Place) → RefusedAs env.old (a_mod (ModAt at (ModSeal (spelled name.now) by.now))) e) }
    ensures same { OnOk result (env.new ≡ env.old) }
{
    mod_seal(alloc, env, name, by)
}
