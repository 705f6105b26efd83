// The rules of modules and of bindings, refused at a place in an environment.
ghost use Rattle.std.specs.Prelude.{◌≡◌, [], List, Some, IfErr, IfOk, MatchOption};
ghost use Rattle.omega_kinds.specs.Kind.{Kind as KindTree};
ghost use Rattle.omega_kinds.specs.declared.effect.Effect.{Effect as EffectTree};
ghost use Rattle.omega_kinds.specs.declared.effect.Effect.TheVariants.{Pure};
ghost use Rattle.omega_types.specs.Binders.{extend};
ghost use Rattle.omega_terms.specs.Term.{Fields, TermRow};
ghost use Rattle.sig_definitions.specs.Env.{find, kinds as kinds_in};
ghost use Rattle.sig_definitions.specs.Matching.Subtyping.{Match};
ghost use Rattle.sig_definitions.specs.Signatures.FieldOrder.{in_order};
ghost use Rattle.sig_definitions.specs.Signatures.Sig.{Abs as AbsTree, Sig as SigTree, SigRow, Str, made};
ghost use Rattle.sig_laws.specs.Good.{Bound, KindedModule, OkRight, OkSig};
ghost use Rattle.semantic_sigs.specs.Inner.Made.{module_of};
ghost use Rattle.semantic_sigs.specs.Inner.Standing.{standing_module};
ghost use Rattle.semantic_sigs.specs.Inner.View.{body_of, kinds_of};
ghost use Rattle.module_judgments.specs.ModRules.{ApplyGives, FunctorRefuses, IncludeGives, IncludeRefuses, NamedGives, NamedRefuses, PartsGive, ProjectRefuses};
ghost use Rattle.module_judgments.specs.ModWhy.{ModWhy};
ghost use Rattle.module_judgments.specs.Projection.{Projected};
ghost use Rattle.module_judgments.specs.Sequence.{Collected};
ghost use Rattle.elab_judgments.specs.Refusals.Refusal.{of_mod};
ghost use Rattle.fing_syntax.specs.Inner.Leaves.{place};
ghost use Rattle.fing_syntax.specs.Phrase.{BindAt, BindInclude, Span as Place};
ghost use Rattle.elab_rules.specs.Inner.Answered.{ByMatch, ByRule};
ghost use Rattle.elab_rules.specs.Inner.Modules.{FunctorGives, IsSingle};

use crate::mod_refusing::{match_refusal, mod_refusal};
use crate::sets::NameSet;
use applicative_functors::pure_functor;
use fing_refusals::Refusal;
use fing_syntax::{Bind, BindWhat, Mod, SpanName};
use fing_text::Span;
use module_rules::{
    ModRefusal, apply, end_struct, functor_parts, gen_functor, include_bind, named, project,
    standing_part,
};
use omega_kinds::{Effect, Mem, Name};
use omega_terms::Term;
use semantic_sigs::{Abs, Env, Module, Sig, Standing};
use sig_match::{Matched, match_sig};
use std::alloc::Global;

/// A name's module, which keeps nothing hidden. `Unbound` comes exactly where the name is not bound.
pub fn named_rule(alloc: Global, env: &Env, name: &SpanName) -> Result<Module, Refusal>
    ensures given { IfOk result (λ m. NamedGives env.now name.now.name (module_of m)) }
    ensures found { IfOk result (λ m. find env.now name.now.name ≡ Some (body_of m.sig, m.term)) }
    ensures refused { IfErr result (λ e. ByRule of_mod env.now (place name.now.span) (NamedRefuses env.now name.now.name) e) }
{
    named(alloc, env, &name.name).map_err(|why| mod_refusal(env, name.span, why))
}

/// `M.X`.
pub fn project_rule(
    alloc: Global,
    env: &Env,
    at: Span,
    whole: Module,
    name: &Name,
) -> Result<Module, Refusal>
    ensures given { IfOk result (λ m. (ctx : List KindTree) → KindedModule ctx (module_of whole) → Projected ctx (module_of whole) name.now (module_of m)) }
    ensures refused { IfErr result (λ e. ByRule of_mod env.now (place at) (ProjectRefuses (module_of whole) name.now) e) }
{
    project(alloc, whole, name).map_err(|why| mod_refusal(env, at, why))
}

/// The same at the place of M.
pub(crate) fn part_rule<'a>(
    alloc: Global,
    env: &Env,
    at: Span,
    whole: &Standing<'a>,
    name: &Name,
) -> Result<Standing<'a>, Refusal>
    ensures given { IfOk result (λ m. (ctx : List KindTree) → Projected ctx (standing_module whole.now) name.now (standing_module m)) }
    ensures refused { IfErr result (λ e. ByRule of_mod env.now (place at) (ProjectRefuses (standing_module whole.now) name.now) e) }
{
    standing_part(alloc, whole, name).map_err(|why| mod_refusal(env, at, why))
}

/// A functor over a parameter, with a body under it: applicative where it is not generative and its body is pure. `Err` is
/// want of memory.
pub fn functor_rule(
    alloc: Global,
    generative: bool,
    param: &Abs,
    body: Module,
) -> Result<Module, Mem>
    ensures { IfOk result (λ m. (ctx : List KindTree) → OkRight ctx param.now → KindedModule (extend ctx (kinds_of param.now)) (module_of body) → FunctorGives ctx generative param.now (module_of body) (module_of m)) }
{
    if generative {
        return gen_functor(alloc, param, body);
    }
    match body.effect {
        Effect::Pure => pure_functor(alloc, param, body),
        Effect::Impure => gen_functor(alloc, param, body),
    }
}

/// The parts of a functor's signature. `NotFunctor` comes exactly where it is none.
pub(crate) fn parts_rule(
    alloc: Global,
    env: &Env,
    at: Span,
    sig: &Sig,
) -> Result<(Effect, Abs, Abs), Refusal>
    ensures given { IfOk result (λ o. PartsGive sig.now o.0 o.1 o.2) }
    ensures refused { IfErr result (λ e. ByRule of_mod env.now (place at) (FunctorRefuses sig.now) e) }
{
    functor_parts(alloc, sig).map_err(|why| mod_refusal(env, at, why))
}

/// A match of a signature with one that hides types; both are good in the environment.
pub fn match_rule(
    alloc: Global,
    env: &Env,
    at: Span,
    left: &Sig,
    right: &Abs,
) -> Result<Matched, Refusal>
    requires left { OkSig (kinds_in env.now) left.now }
    requires right { OkRight (kinds_in env.now) right.now }
    ensures given { IfOk result (λ o. Match (kinds_in env.now) left.now right.now o.types o.coercion) }
    ensures refused { IfErr result (λ e. ByMatch env.now (place at) left.now right.now e) }
{
    match_sig(alloc, env, left, right).map_err(|why| match_refusal(env, at, why))
}

/// `X1 X2`, by a match of X2 against the parameter of X1, which is a functor that keeps nothing hidden. `Err` is want of
/// memory.
pub(crate) fn apply_rule(
    alloc: Global,
    functor: &Module,
    arg: Term,
    matched: Matched,
) -> Result<Module, Mem>
    requires { (why : ModWhy) → FunctorRefuses (body_of functor.now.sig) why → ⊥ }
    ensures { IfOk result (λ m. (ctx : List KindTree) (f : EffectTree) (param target : AbsTree) (left : SigTree)
        → OkSig ctx (body_of functor.now.sig) → PartsGive (body_of functor.now.sig) f param target → Match ctx left param matched.types matched.coercion
        → ApplyGives ctx (body_of functor.now.sig) functor.now.term matched.types matched.coercion arg (module_of m)) }
{
    match apply(alloc, functor, arg, matched.types, matched.coercion) {
        Ok(made) => Ok(made),
        Err(ModRefusal::Mem) => Err(Mem),
        Err(_) => unreachable!(),
    }
}

/// `include M` and the rest of a structure under it, where M is a structure. `Err` is want of memory.
pub fn include_rule(alloc: Global, first: Module, rest: Module) -> Result<Module, Mem>
    requires { (why : ModWhy) → IncludeRefuses (module_of first) why → ⊥ }
    ensures { IfOk result (λ m. (ctx : List KindTree) → KindedModule ctx (module_of first) → KindedModule (extend ctx (kinds_of first.sig)) (module_of rest) → IncludeGives ctx (module_of first) (module_of rest) (module_of m)) }
{
    match include_bind(alloc, first, rest) {
        Ok(made) => Ok(made),
        Err(ModRefusal::Mem) => Err(Mem),
        Err(_) => unreachable!(),
    }
}

/// The end of a structure: what the environment has for each of these names, once each, in their order. All of them are
/// bound. `Err` is want of memory.
pub fn end_rule(alloc: Global, env: &Env, names: &NameSet) -> Result<Module, Mem>
    requires { Bound env.now names.now }
    ensures { IfOk result (λ m. (fs : SigRow) × (es : TermRow) × Collected env.now (in_order names.now) fs es × (module_of m ≡ made Pure (AbsTree.Ex [] (Str fs)) [] (Fields es))) }
{
    let list = names.list(alloc)?;
    end_struct(alloc, env, &list)
}

/// The module that a binding includes; `None` exactly for a single binding.
pub fn include_of(phrase: &Bind) -> Option<&Mod>
    ensures { MatchOption result (IsSingle phrase.now) (λ m. (p : Place) × (phrase.now ≡ BindAt p (BindInclude m.now))) }
{
    match &phrase.what {
        BindWhat::Include(whole) => Some(whole),
        _ => None,
    }
}
