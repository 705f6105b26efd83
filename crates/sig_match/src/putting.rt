// Types put in for variables, and signatures that are raised past further ones.
ghost use Rattle.std.specs.Prelude.{◌≡◌, ◌+◌, IfOk, List, length, slice_get};
ghost use Rattle.omega_kinds.specs.Kind.{Kind as KindTree};
ghost use Rattle.omega_kinds.specs.View.{kind_tree};
ghost use Rattle.omega_types.specs.Binders.{lam_over as lam_over_of};
ghost use Rattle.sig_definitions.specs.Signatures.Sig.{Ex};
ghost use Rattle.sig_definitions.specs.Signatures.SigSize.{size, size_abs};
ghost use Rattle.sig_definitions.specs.Signatures.SigSubst.{raise_abs as raise_abs_of};
ghost use Rattle.semantic_sigs.specs.Inner.View.{body_of, kinds_of};
ghost use Rattle.sig_match.specs.Inner.Looking.{lam_found as lam_found_of};
ghost use Rattle.sig_match.specs.Inner.Put.{EachPut, EachPutUnder, MayPut, MayPutUnder, any_type as any_type_of, filled as filled_of, or_any};

use omega_kinds::{Kind, Kinds, Mem};
use omega_types::{Ty, TyNode};
use semantic_sigs::{Abs, Functor, Sig, SigNode, Witnesses, instantiate, raise_abs};
use std::alloc::Global;
use type_normal::{NormalTy, as_normal, plain};

/// The sum of two counts. `Err` where it would pass the last number: so many variables find no memory.
pub(crate) fn sum(a: u64, b: u64) -> Result<u64, Mem>
    ensures { IfOk result (λ n. n ≡ a + b) }
{
    a.checked_add(b).ok_or(Mem)
}

/// How many variables a list of kinds is for.
pub(crate) fn count(kinds: &Kinds) -> u64
    ensures { result ≡ length kinds.now }
{
    kinds.items().len() as u64
}

/// A type that is found, if there is one, as an operator over these kinds.
pub(crate) fn lam_found(
    alloc: Global,
    kinds: &Kinds,
    found: Option<NormalTy>,
) -> Result<Option<NormalTy>, Mem>
    ensures { IfOk result (λ o. o ≡ lam_found_of kinds.now found) }
{
    match found {
        Some(ty) => Ok(Some(lam_over(alloc, kinds, ty)?)),
        None => Ok(None),
    }
}

// A type as an operator over these kinds, the first outermost.
#[tactic(auto, using(crate::proofs::PutSteps::lam_steps))]
fn lam_over(alloc: Global, kinds: &Kinds, body: NormalTy) -> Result<NormalTy, Mem>
    ensures { IfOk result (λ t. t ≡ lam_over_of kinds.now body) }
{
    let mut ty = plain(&body).share()?;
    for kind in kinds.items().iter().rev() {
        ty = Ty::make(alloc, TyNode::Lam(kind.share()?, ty))?;
    }
    Ok(as_normal(ty))
}

// A closed normal type of a kind.
fn any_type(alloc: Global, kind: &Kind) -> Result<Ty, Mem>
    ensures { IfOk result (λ t. t ≡ any_type_of (kind_tree kind.now)) }
{
    match kind {
        Kind::Star => Ty::make(alloc, TyNode::Int),
        Kind::Arrow(from, to, _) => {
            let body = any_type(alloc, to)?;
            Ty::make(alloc, TyNode::Lam(from.share()?, body))
        }
    }
}

// For each kind the type that is found, and any type after the last one.
fn filled(alloc: Global, kinds: &Kinds, found: &[NormalTy]) -> Result<Witnesses, Mem>
    ensures { IfOk result (λ w. w ≡ filled_of kinds.now found.now) }
{
    let kinds = kinds.items();
    let mut types = Witnesses::new(alloc);
    for i in 0..kinds.len() {
        types.push(type_at(alloc, &kinds[i], found, i)?)?;
    }
    Ok(types)
}

// The type at a place, and any type of the kind past the end.
fn type_at(alloc: Global, kind: &Kind, found: &[NormalTy], i: usize) -> Result<NormalTy, Mem>
    ensures { IfOk result (λ t. t ≡ or_any (kind_tree kind.now) (slice_get found.now i)) }
{
    match found.get(i) {
        Some(ty) => ty.share(),
        None => Ok(as_normal(any_type(alloc, kind)?)),
    }
}

/// The body of an abstract signature at types for its hidden ones.
pub(crate) fn at_types(alloc: Global, abs: &Abs, types: &Witnesses) -> Result<Sig, Mem>
    requires { MayPut (kinds_of abs.now) (body_of abs.now) types.now }
    ensures at { IfOk result (λ s. EachPut (kinds_of abs.now) (body_of abs.now) types.now s) }
    ensures size { IfOk result (λ s. size s ≡ size (body_of abs.now)) }
{
    instantiate(alloc, abs, types.items())
}

/// A signature under hidden types of these kinds, at those that are found and any types for the rest.
pub(crate) fn at_found(
    alloc: Global,
    kinds: &Kinds,
    sig: &Sig,
    found: &Witnesses,
) -> Result<Sig, Mem>
    requires { MayPut kinds.now sig.now (filled_of kinds.now found.now) }
    ensures at { IfOk result (λ s. EachPut kinds.now sig.now (filled_of kinds.now found.now) s) }
    ensures size { IfOk result (λ s. size s ≡ size sig.now) }
{
    if kinds.items().is_empty() {
        return sig.share();
    }
    let types = filled(alloc, kinds, found.items())?;
    let abs = Abs::make(alloc, kinds.share(alloc)?, sig.share()?)?;
    at_types(alloc, &abs, &types)
}

/// The parameter of a functor with its variables hidden, under so many further variables.
pub(crate) fn raised_param(alloc: Global, functor: &Functor<'_>, by: u64) -> Result<Abs, Mem>
    ensures { IfOk result (λ x. (js : List KindTree) → length js ≡ by → x ≡ raise_abs_of js (Ex functor.now.kinds.now functor.now.param.now)) }
{
    let abs = Abs::make(alloc, functor.kinds.share(alloc)?, functor.param.share()?)?;
    raise_abs(alloc, &abs, by, 0)
}

/// The result of a functor at types for its variables, which stand under so many further ones.
pub(crate) fn result_at(
    alloc: Global,
    functor: &Functor<'_>,
    by: u64,
    types: &Witnesses,
) -> Result<Abs, Mem>
    requires { MayPutUnder by functor.now.kinds.now functor.now.target.now types.now }
    ensures at { IfOk result (λ y. EachPutUnder by functor.now.kinds.now functor.now.target.now types.now y) }
    ensures size { IfOk result (λ y. size_abs y ≡ size_abs functor.now.target.now) }
{
    let held = Sig::make(alloc, SigNode::Meta(functor.target.share()?))?;
    let abs = Abs::make(alloc, functor.kinds.share(alloc)?, held)?;
    let raised = raise_abs(alloc, &abs, by, 0)?;
    let at = instantiate(alloc, &raised, types.items())?;
    match at.node() {
        SigNode::Meta(target) => target.share(),
        _ => unreachable!(),
    }
}
