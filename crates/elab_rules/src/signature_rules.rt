// The rules of signatures and declarations, refused at a place in an environment.
ghost use Rattle.std.specs.Prelude.{◌≡◌, ◌∷◌, List, IfErr, IfOk, OnOk, map};
ghost use Rattle.std.specs.Option.{option_map};
ghost use Rattle.omega_kinds.specs.Kind.{Kind as KindTree};
ghost use Rattle.omega_kinds.specs.View.{kind_tree};
ghost use Rattle.omega_types.specs.Binders.{extend};
ghost use Rattle.omega_types.specs.Normality.{Normal};
ghost use Rattle.sig_definitions.specs.Env.{kinds as kinds_in};
ghost use Rattle.sig_definitions.specs.Lifting.{Lift};
ghost use Rattle.sig_definitions.specs.Signatures.RecordOrder.{AreNew};
ghost use Rattle.sig_definitions.specs.Signatures.Sig.{Ex, SigRow, Str};
ghost use Rattle.sig_laws.specs.Good.{OkRight};
ghost use Rattle.semantic_sigs.specs.Inner.View.{body_of, kinds_of};
ghost use Rattle.sig_judgments.specs.Refinement.{Refined};
ghost use Rattle.sig_judgments.specs.SigRules.{AbstractGives, DeclarationsGive, DistinctRefuses, GenerativeGives, IncludeGives, IncludeRefuses, ModuleGives, SignatureGives, TypeGives, ValueGives, ValueRefuses};
ghost use Rattle.sig_rules.specs.Inner.Plain.{AreApart, plain_why};
ghost use Rattle.elab_judgments.specs.Operators.{names_of};
ghost use Rattle.elab_judgments.specs.Refusals.Refusal.{of_sig};
ghost use Rattle.fing_syntax.specs.Inner.Leaves.{place, spelled};
ghost use Rattle.fing_refusals.specs.Inner.Plain.{plain_reason, want_of_memory};
ghost use Rattle.elab_rules.specs.Inner.Answered.{ByRule, ByWhere, Placed};
ghost use Rattle.elab_rules.specs.Inner.Fields.{fields_in};

use crate::places::where_place;
use crate::refusing::refuse;
use crate::sets::NameSet;
use applicative_functors::lift;
use fing_refusals::{ElabWhy, Refusal};
use fing_syntax::{SpanName, TyEx};
use fing_text::Span;
use omega_kinds::{Kind, Mem, Name, Names};
use semantic_sigs::{Abs, Env, Kinded};
use sig_rules::{
    Declarations, SigRefusal, decl_is, decl_meta, decl_module, decl_of, decl_val, distinct,
    functor_sig, include, where_type,
};
use std::alloc::Global;

// The reason of a rule of signatures or declarations.
fn sig_reason(why: SigRefusal) -> ElabWhy
    ensures { plain_reason result ≡ option_map of_sig (plain_why why) }
{
    match why {
        SigRefusal::NotAbstract(path) => ElabWhy::NotAbstract(path),
        SigRefusal::NoPart(name) => ElabWhy::NoPart(name),
        SigRefusal::Duplicate(name) => ElabWhy::Duplicate(name),
        SigRefusal::KindDiffer(found, needed) => ElabWhy::KindDiffer(found, needed),
        SigRefusal::NotStructure => ElabWhy::NotStructure,
        SigRefusal::Mem => ElabWhy::Mem,
    }
}

// How a rule of signatures or declarations is refused at a place.
fn sig_refusal(env: &Env, at: Span, why: SigRefusal) -> Refusal
    ensures { Placed env.now (place at) (option_map of_sig (plain_why why)) result }
{
    refuse(env, at, sig_reason(why))
}

/// `val X : T`.
pub fn value_rule(
    alloc: Global,
    env: &Env,
    at: Span,
    name: &Name,
    ty: &Kinded,
) -> Result<Abs, Refusal>
    ensures given { IfOk result (λ x. ValueGives name.now ty.now.ty (kind_tree ty.now.kind) x) }
    ensures refused { IfErr result (λ e. ByRule of_sig env.now (place at) (ValueRefuses ty.now.ty (kind_tree ty.now.kind)) e) }
{
    decl_val(alloc, name, ty).map_err(|why| sig_refusal(env, at, why))
}

/// `type X = T`.
pub fn type_rule(alloc: Global, name: &Name, ty: &Kinded) -> Result<Abs, Refusal>
    ensures given { IfOk result (λ x. TypeGives name.now ty.now.ty (kind_tree ty.now.kind) x) }
    ensures refused { IfErr result (λ e. e ≡ want_of_memory) }
{
    Ok(decl_is(alloc, name, ty)?)
}

/// `type X : K`.
pub fn abstract_rule(alloc: Global, name: &Name, kind: &Kind) -> Result<Abs, Refusal>
    ensures given { IfOk result (λ x. AbstractGives name.now (kind_tree kind.now) x) }
    ensures refused { IfErr result (λ e. e ≡ want_of_memory) }
{
    Ok(decl_of(alloc, name, kind)?)
}

/// `module X : S`.
pub fn module_rule(alloc: Global, name: &Name, sig: &Abs) -> Result<Abs, Refusal>
    ensures given { IfOk result (λ x. ModuleGives name.now sig.now x) }
    ensures refused { IfErr result (λ e. e ≡ want_of_memory) }
{
    Ok(decl_module(alloc, name, sig)?)
}

/// `signature X = S`.
pub fn signature_rule(alloc: Global, name: &Name, sig: &Abs) -> Result<Abs, Refusal>
    ensures given { IfOk result (λ x. SignatureGives name.now sig.now x) }
    ensures refused { IfErr result (λ e. e ≡ want_of_memory) }
{
    Ok(decl_meta(alloc, name, sig)?)
}

/// `include S`.
pub fn include_rule(env: &Env, at: Span, sig: &Abs) -> Result<Abs, Refusal>
    ensures given { IfOk result (λ x. IncludeGives sig.now x) }
    ensures refused { IfErr result (λ e. ByRule of_sig env.now (place at) (IncludeRefuses sig.now) e) }
{
    include(sig).map_err(|why| sig_refusal(env, at, why))
}

/// Whether the labels of a declaration differ from those before it.
pub fn distinct_rule(env: &Env, at: Span, before: &NameSet, next: &Abs) -> Result<(), Refusal>
    ensures given { OnOk result (AreNew (fields_in next.now) before.now) }
    ensures refused { IfErr result (λ e. ByRule of_sig env.now (place at) (DistinctRefuses before.now (fields_in next.now)) e) }
{
    distinct(before, next).map_err(|why| sig_refusal(env, at, why))
}

/// A declaration and those after it, whose labels are apart.
pub fn declarations_rule(
    alloc: Global,
    first: &Abs,
    rest: Declarations,
) -> Result<Declarations, Refusal>
    ensures given { IfOk result (λ x. (ks js : List KindTree) (fs gs : SigRow) → first.now ≡ Ex ks (Str fs) → rest ≡ Ex js (Str gs) → AreApart fs gs → DeclarationsGive first.now rest x) }
    ensures refused { IfErr result (λ e. e ≡ want_of_memory) }
{
    Ok(rest.after(alloc, first)?)
}

/// `fun (X : S1) -> S2`.
pub fn functor_rule(alloc: Global, param: &Abs, target: &Abs) -> Result<Abs, Refusal>
    ensures given { IfOk result (λ x. GenerativeGives param.now target.now x) }
    ensures refused { IfErr result (λ e. e ≡ want_of_memory) }
{
    Ok(functor_sig(alloc, param, target)?)
}

/// `fun (X : S1) => S2`; both are ordered explicit. `Err` is want of memory.
pub fn lift_rule(alloc: Global, param: &Abs, target: &Abs) -> Result<Abs, Mem>
    ensures { IfOk result (λ x. (ctx : List KindTree) → OkRight ctx param.now → OkRight (extend ctx (kinds_of param.now)) target.now → Lift ctx (kinds_of param.now) (body_of param.now) target.now x) }
{
    lift(alloc, param.kinds(), param.body(), target)
}

/// `S where type path = T`; both are good in the environment.
pub fn where_rule(
    alloc: Global,
    env: &Env,
    sig: &Abs,
    first: &SpanName,
    rest: &[SpanName],
    by: &TyEx,
    ty: &Kinded,
) -> Result<Abs, Refusal>
    requires sig { OkRight (kinds_in env.now) sig.now }
    requires ty { Normal (kinds_in env.now) ty.now.ty (kind_tree ty.now.kind) }
    ensures given { IfOk result (λ x. Refined (kinds_in env.now) sig.now (names_of (spelled first.now ∷ map spelled rest.now)) ty.now.ty (kind_tree ty.now.kind) x) }
    ensures refused { IfErr result (λ e. ByWhere env.now (kinds_of sig.now) (body_of sig.now) (spelled first.now) (map spelled rest.now) by.now ty.now.ty (kind_tree ty.now.kind) e) }
{
    let names = path_names(alloc, first, rest)?;
    match where_type(alloc, sig, names.items(), ty) {
        Ok(made) => Ok(made),
        Err(why) => {
            let at = where_place(sig.body(), first, rest, by.span, &why);
            Err(sig_refusal(env, at, why))
        }
    }
}

// The names of a path.
fn path_names(alloc: Global, first: &SpanName, rest: &[SpanName]) -> Result<Names, Mem>
    ensures { IfOk result (λ n. n ≡ names_of (spelled first.now ∷ map spelled rest.now)) }
{
    let mut names = Names::new(alloc);
    names.push(first.name.share()?)?;
    for part in rest {
        names.push(part.name.share()?)?;
    }
    Ok(names)
}
