// Functors: made generative, taken apart and applied; and modules sealed.
ghost use Rattle.std.specs.Prelude.{◌≡◌, List, IfErr, IfOk, IfSome};
ghost use Rattle.omega_kinds.specs.Kind.{Kind as KindTree};
ghost use Rattle.omega_types.specs.Binders.{extend, NormalForms};
ghost use Rattle.omega_kinds.specs.declared.effect.Effect.{Effect as EffectTree};
ghost use Rattle.omega_kinds.specs.declared.effect.Effect.TheVariants.{Impure};
ghost use Rattle.omega_kinds.specs.declared.label.Label.TheVariants as label;
ghost use Rattle.omega_terms.specs.Coercions.{result_label as label_of};
ghost use Rattle.omega_terms.specs.PartTerms.{one_field as one_field_of};
ghost use Rattle.omega_terms.specs.Shorthands.{insts as insts_of, ty_lam_over as ty_lam_over_of};
ghost use Rattle.omega_terms.specs.Term.{Call, Get, Lam, Term as TermTree};
ghost use Rattle.sig_definitions.specs.Packing.{Packed};
ghost use Rattle.sig_definitions.specs.Signatures.Encoding.{enc};
ghost use Rattle.sig_definitions.specs.Signatures.Alike.{NormalSig};
ghost use Rattle.sig_definitions.specs.Signatures.Sig.{Fun, Sig as SigTree, Abs as AbsTree};
ghost use Rattle.sig_laws.specs.Good.{KindedModule};
ghost use Rattle.semantic_sigs.specs.Inner.Made.{module_of};
ghost use Rattle.semantic_sigs.specs.Inner.View.{kinds_of, body_of};
ghost use Rattle.module_judgments.specs.ModRules.{GenerativeGives, PartsGive, FunctorRefuses, ApplyGives, SealGives};
ghost use Rattle.module_rules.specs.Inner.Plain.{plain_why};

use crate::naming::open_module;
use crate::projecting::packed_term;
use crate::refusal::ModRefusal;
use omega_kinds::{Effect, Label, Mem};
use omega_shorthands::{insts, one_field, ty_lam_over};
use omega_terms::{Term, TermNode, result_label};
use semantic_sigs::{Abs, Module, Sig, SigNode, Witnesses, encode_sig, instantiate_abs};
use std::alloc::Global;
use type_normal::NormalTy;

/// `gen (X : S) => M`, and `fun (X : S) => M` where M is impure; M stands under the hidden types of S and X, and its types
/// are normal and have their kinds there. `Err` is out of memory.
pub fn gen_functor(alloc: Global, param: &Abs, body: Module) -> Result<Module, Mem>
    ensures { IfOk result (λ m. (ctx : List KindTree) → KindedModule (extend ctx (kinds_of param.now)) (module_of body) → GenerativeGives ctx (kinds_of param.now) (body_of param.now) (module_of body) (module_of m)) }
{
    let term = generative_term(alloc, param, &body)?;
    let sig = generative_sig(alloc, param, body.sig)?;
    open_module(alloc, sig, term)
}

// The term of a generative functor.
fn generative_term(alloc: Global, param: &Abs, body: &Module) -> Result<Term, Mem>
    ensures { IfOk result (λ e. (d : TermTree) × ((ctx : List KindTree) → KindedModule ctx (module_of body.now) → Packed ctx (module_of body.now) d) × (e ≡ ty_lam_over_of (kinds_of param.now) (Lam (enc (body_of param.now)) (one_field_of label.Gen d)))) }
{
    let packed = packed_term(alloc, body)?;
    let result = one_field(alloc, Label::Gen, packed)?;
    let from = encode_sig(param.body())?;
    let function = Term::make(alloc, TermNode::Lam(from, result))?;
    ty_lam_over(alloc, param.kinds(), function)
}

// The signature of a generative functor.
fn generative_sig(alloc: Global, param: &Abs, target: Abs) -> Result<Sig, Mem>
    ensures { IfOk result (λ s. s ≡ Fun Impure (kinds_of param.now) (body_of param.now) target) }
{
    let kinds = param.kinds().share(alloc)?;
    let from = param.body().share()?;
    let sig = SigNode::Fun {
        effect: Effect::Impure,
        kinds,
        param: from,
        result: target,
    };
    Sig::make(alloc, sig)
}

/// The effect, the parameter and the result of a functor's signature; the result stands under the parameter's hidden
/// types. `NotFunctor` comes exactly where the signature is none of a functor.
pub fn functor_parts(alloc: Global, sig: &Sig) -> Result<(Effect, Abs, Abs), ModRefusal>
    ensures given { IfOk result (λ o. PartsGive sig.now o.0 o.1 o.2) }
    ensures refused { IfErr result (λ e. IfSome (plain_why e) (λ why. FunctorRefuses sig.now why)) }
{
    let SigNode::Fun {
        effect,
        kinds,
        param,
        result,
    } = sig.node()
    else {
        return Err(ModRefusal::NotFunctor);
    };
    let binders = kinds.share(alloc)?;
    let body = param.share()?;
    let from = Abs::make(alloc, binders, body)?;
    let to = result.share()?;
    Ok((*effect, from, to))
}

/// `X :> S`, by a match of X against S: its types, and its coercion. `Err` is out of memory.
pub fn seal(
    alloc: Global,
    found: Term,
    target: &Abs,
    types: Witnesses,
    coercion: Term,
) -> Result<Module, Mem>
    ensures { IfOk result (λ m. SealGives found target.now types coercion (module_of m)) }
{
    let sig = target.share()?;
    let term = Term::make(alloc, TermNode::Call(coercion, found))?;
    Ok(Module {
        effect: Effect::Pure,
        sig,
        types,
        term,
    })
}

/// `X1 X2`, by a match of X2 against the parameter of X1: its types, and its coercion. X1 is pure and hides nothing.
/// `NotFunctor` comes exactly where X1 is no functor.
pub fn apply(
    alloc: Global,
    functor: &Module,
    arg: Term,
    types: Witnesses,
    coercion: Term,
) -> Result<Module, ModRefusal>
    ensures given { IfOk result (λ m. (ctx : List KindTree) → NormalSig ctx (body_of functor.now.sig)
        → ((f : EffectTree) (ks : List KindTree) (s : SigTree) (y : AbsTree) → body_of functor.now.sig ≡ Fun f ks s y → NormalForms ctx types ks types)
        → ApplyGives ctx (body_of functor.now.sig) functor.now.term types coercion arg (module_of m)) }
    ensures refused { IfErr result (λ e. IfSome (plain_why e) (λ why. FunctorRefuses (body_of functor.now.sig) why)) }
{
    let SigNode::Fun { effect, result, .. } = functor.sig.body().node() else {
        return Err(ModRefusal::NotFunctor);
    };
    let sig = instantiate_abs(alloc, result, types.items())?;
    let term = applied(alloc, *effect, &functor.term, arg, types.items(), coercion)?;
    let none = Witnesses::new(alloc);
    Ok(Module {
        effect: *effect,
        sig,
        types: none,
        term,
    })
}

// The term of an application.
fn applied(
    alloc: Global,
    effect: Effect,
    functor: &Term,
    arg: Term,
    types: &[NormalTy],
    coercion: Term,
) -> Result<Term, Mem>
    ensures { IfOk result (λ e. e ≡ Get (Call (insts_of functor.now types.now) (Call coercion arg)) (label_of effect)) }
{
    let shared = functor.share()?;
    let function = insts(alloc, shared, types)?;
    let coerced = Term::make(alloc, TermNode::Call(coercion, arg))?;
    let called = Term::make(alloc, TermNode::Call(function, coerced))?;
    Term::make(alloc, TermNode::Get(called, result_label(effect)))
}
