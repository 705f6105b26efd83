// The rules of single declarations, of included signatures and of generative functors.
ghost use Rattle.std.specs.Prelude.{◌≡◌, ◌≢◌, [], ◌∷◌, IfErr, IfOk, IfSome, OnOk};
ghost use Rattle.omega_kinds.specs.Kind.{Star};
ghost use Rattle.omega_kinds.specs.View.{kind_tree};
ghost use Rattle.sig_definitions.specs.Signatures.Sig.{Ex};
ghost use Rattle.sig_judgments.specs.SigRules.{ValueGives, ValueRefuses, TypeGives, AbstractGives, ModuleGives, SignatureGives, IncludeGives, IncludeRefuses, GenerativeGives, one_part as one_part_of};
ghost use Rattle.sig_judgments.specs.SigWhy.{SigWhy as Why};
ghost use Rattle.sig_rules.specs.Inner.Plain.{plain_why};

use crate::hidden::innermost;
use crate::refusal::SigRefusal;
use omega_kinds::{Effect, Kind, Kinds, Mem, Name};
use semantic_sigs::{Abs, Kinded, Sig, SigFields, SigNode};
use std::alloc::Global;

// A structure of one part, under hidden types.
fn one_part(alloc: Global, kinds: Kinds, name: &Name, part: Sig) -> Result<Abs, Mem>
    ensures { IfOk result (λ x. x ≡ Ex kinds (one_part_of name.now part)) }
{
    let mut fields = SigFields::new(alloc);
    fields.push((name.share()?, part))?;
    Abs::make(alloc, kinds, Sig::make(alloc, SigNode::Str(fields))?)
}

/// `val X : T`. `KindDiffer` comes exactly where T has another kind than `*`: the kind, and `*`.
///
/// Rossberg, Russo and Dreyer, "F-ing modules", section 4, Elaboration of signatures, as for all calls of this crate.
pub fn decl_val(alloc: Global, name: &Name, ty: &Kinded) -> Result<Abs, SigRefusal>
    ensures given { IfOk result (λ x. ValueGives name.now ty.now.ty (kind_tree ty.now.kind) x) }
    ensures refused { IfErr result (λ e. IfSome (plain_why e) (λ why. ValueRefuses ty.now.ty (kind_tree ty.now.kind) why)) }
{
    expect_star(&ty.kind)?;
    let part = Sig::make(alloc, SigNode::Val(ty.ty.share()?))?;
    Ok(one_part(alloc, Kinds::new(alloc), name, part)?)
}

// The kind is `*`.
fn expect_star(kind: &Kind) -> Result<(), SigRefusal>
    ensures ok { OnOk result (kind_tree kind.now ≡ Star) }
    ensures refused { IfErr result (λ e. IfSome (plain_why e) (λ why. (kind_tree kind.now ≢ Star) × (why ≡ Why.KindDiffer (kind_tree kind.now) Star))) }
{
    match kind {
        Kind::Star => Ok(()),
        Kind::Arrow(_, _, _) => Err(SigRefusal::KindDiffer(kind.share()?, Kind::Star)),
    }
}

/// `type X = T`. `Err` is out of memory.
pub fn decl_is(alloc: Global, name: &Name, ty: &Kinded) -> Result<Abs, Mem>
    ensures { IfOk result (λ x. TypeGives name.now ty.now.ty (kind_tree ty.now.kind) x) }
{
    let part = Sig::make(alloc, SigNode::Typ(ty.ty.share()?, ty.kind.share()?))?;
    one_part(alloc, Kinds::new(alloc), name, part)
}

/// `type X : K`, which hides a type. `Err` is out of memory.
pub fn decl_of(alloc: Global, name: &Name, kind: &Kind) -> Result<Abs, Mem>
    ensures { IfOk result (λ x. AbstractGives name.now (kind_tree kind.now) x) }
{
    let variable = innermost(alloc, kind)?;
    let part = Sig::make(alloc, SigNode::Typ(variable, kind.share()?))?;
    one_part(alloc, one_kind(alloc, kind)?, name, part)
}

// One kind.
fn one_kind(alloc: Global, kind: &Kind) -> Result<Kinds, Mem>
    ensures { IfOk result (λ ks. ks ≡ kind_tree kind.now ∷ []) }
{
    let mut kinds = Kinds::new(alloc);
    kinds.push(kind.share()?)?;
    Ok(kinds)
}

/// `module X : S`. `Err` is out of memory.
pub fn decl_module(alloc: Global, name: &Name, sig: &Abs) -> Result<Abs, Mem>
    ensures { IfOk result (λ x. ModuleGives name.now sig.now x) }
{
    let kinds = sig.kinds().share(alloc)?;
    let body = sig.body().share()?;
    one_part(alloc, kinds, name, body)
}

/// `signature X = S`. `Err` is out of memory.
pub fn decl_meta(alloc: Global, name: &Name, sig: &Abs) -> Result<Abs, Mem>
    ensures { IfOk result (λ x. SignatureGives name.now sig.now x) }
{
    let part = Sig::make(alloc, SigNode::Meta(sig.share()?))?;
    one_part(alloc, Kinds::new(alloc), name, part)
}

/// `include S`. `NotStructure` comes exactly where S is the signature of no structure.
pub fn include(sig: &Abs) -> Result<Abs, SigRefusal>
    ensures given { IfOk result (λ x. IncludeGives sig.now x) }
    ensures refused { IfErr result (λ e. IfSome (plain_why e) (λ why. IncludeRefuses sig.now why)) }
{
    match sig.body().node() {
        SigNode::Str(_) => Ok(sig.share()?),
        _ => Err(SigRefusal::NotStructure),
    }
}

/// `fun (X : S1) -> S2`, S2 under the hidden types of S1. `Err` is out of memory.
pub fn functor_sig(alloc: Global, param: &Abs, target: &Abs) -> Result<Abs, Mem>
    ensures { IfOk result (λ x. GenerativeGives param.now target.now x) }
{
    let functor = Sig::make(
        alloc,
        SigNode::Fun {
            effect: Effect::Impure,
            kinds: param.kinds().share(alloc)?,
            param: param.body().share()?,
            result: target.share()?,
        },
    )?;
    Abs::make(alloc, Kinds::new(alloc), functor)
}
