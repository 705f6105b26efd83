// The rule of a signature with one of its hidden types fixed.
ghost use Rattle.std.specs.Prelude.{◌≡◌, ◌-◌, ◌<◌, ◌↔◌, IfErr, IfOk, IfSome, IsTrue, List, MatchOption, MatchResult, length, map};
ghost use Rattle.omega_kinds.specs.Kind.{Kind as KindTree};
ghost use Rattle.omega_kinds.specs.View.{kind_tree};
ghost use Rattle.omega_types.specs.EtaLong.{eta as eta_of};
ghost use Rattle.omega_types.specs.Index.{bump, shift};
ghost use Rattle.omega_types.specs.Normality.{Normal};
ghost use Rattle.omega_types.specs.Ty.{Var};
ghost use Rattle.sig_definitions.specs.Explicit.SigPath.{Part};
ghost use Rattle.sig_definitions.specs.Signatures.Alike.{NormalAbs};
ghost use Rattle.sig_definitions.specs.Signatures.Sig.{Ex, Typ};
ghost use Rattle.sig_definitions.specs.Signatures.SigSubst.{rename_sig};
ghost use Rattle.semantic_sigs.specs.Inner.View.{kinds_of};
ghost use Rattle.sig_judgments.specs.Refinement.{Leads, LeavesAt, Refined};
ghost use Rattle.sig_judgments.specs.SigRules.{WhereRefuses};
ghost use Rattle.sig_rules.specs.Inner.Plain.{plain_why};
ghost use Rattle.sig_rules.specs.Inner.Hidden.{Fixed, IsOwn, NotOwn, PutFirst};

use crate::hidden::{copied, joined, variable, with_own};
use crate::refusal::SigRefusal;
use omega_kinds::{Kind, Mem, Name, same_kind};
use semantic_sigs::{Abs, Item, Kinded, Path, Sig, SigNode, field, instantiate, raise_sig};
use std::alloc::Global;
use type_normal::{NormalTy, raise, same};

/// `S where type path = T`: S with T for the hidden type that its part at the path shows, which is hidden no longer. T
/// stands outside the hidden types of S. Both are normal in one context.
/// `NoPart` comes exactly where the path leaves the structures, with the first name that leads nowhere; else
/// `NotAbstract` exactly where the part at the path is no hidden type of S's own, with the path; else `KindDiffer` exactly
/// where T has another kind than the hidden type: the kind of T, and that of the hidden type.
pub fn where_type(alloc: Global, sig: &Abs, path: &[Name], ty: &Kinded) -> Result<Abs, SigRefusal>
    ensures given { IfOk result (λ x. (ctx : List KindTree) → NormalAbs ctx sig.now
        → Normal ctx ty.now.ty (kind_tree ty.now.kind)
        → Refined ctx sig.now path.now ty.now.ty (kind_tree ty.now.kind) x) }
    ensures refused { IfErr result (λ e. IfSome (plain_why e) (λ why. WhereRefuses sig.now path.now ty.now.ty (kind_tree ty.now.kind) why)) }
{
    let shown = match follow(sig.body(), path) {
        Ok(shown) => shown,
        Err(name) => return Err(SigRefusal::NoPart(name.share()?)),
    };
    let kinds = sig.kinds().items();
    let Some(place) = own_place(alloc, kinds, shown)? else {
        return Err(SigRefusal::NotAbstract(parts(alloc, path)?));
    };
    let own = &kinds[place];
    if !same_kind(&ty.kind, own) {
        return Err(SigRefusal::KindDiffer(ty.kind.share()?, own.share()?));
    }
    Ok(fixed(alloc, sig, place, &ty.ty)?)
}

// The part at a path, or the first name that leads nowhere.
fn follow<'a>(sig: &'a Sig, path: &'a [Name]) -> Result<&'a Sig, &'a Name>
    ensures { MatchResult result (λ q. Leads sig.now path.now q.now) (λ l. LeavesAt (λ m. m) sig.now path.now l.now) }
{
    let mut here = sig;
    for name in path {
        match field(here, name) {
            Some(inner) => here = inner,
            None => return Err(name),
        }
    }
    Ok(here)
}

// The path of these names.
fn parts(alloc: Global, names: &[Name]) -> Result<Path, Mem>
    ensures { IfOk result (λ p. p ≡ map Part names.now) }
{
    let mut path = Path::new(alloc);
    for name in names {
        path.push(Item::Part(name.share()?))?;
    }
    Ok(path)
}

// The place, among hidden types of these kinds, of the one that a part shows.
fn own_place(alloc: Global, kinds: &[Kind], shown: &Sig) -> Result<Option<usize>, Mem>
    ensures { IfOk result (λ o. MatchOption o (NotOwn (map kind_tree kinds.now) shown.now) (λ place. (place < length kinds.now) × IsOwn (map kind_tree kinds.now) place shown.now)) }
{
    let SigNode::Typ(ty, kind) = shown.node() else {
        return Ok(None);
    };
    for place in 0..kinds.len() {
        let own = &kinds[place];
        let index = (kinds.len() - 1 - place) as u64;
        let found = shows(alloc, ty, kind, own, index)?;
        if found {
            return Ok(Some(place));
        }
    }
    Ok(None)
}

// Whether a type of a kind is this variable, of that kind.
fn shows(alloc: Global, ty: &NormalTy, kind: &Kind, own: &Kind, index: u64) -> Result<bool, Mem>
    ensures { IfOk result (λ b. IsTrue b ↔ (Typ ty.now (kind_tree kind.now) ≡ Typ (eta_of (kind_tree own.now) (Var index)) (kind_tree own.now))) }
{
    if !same_kind(kind, own) {
        return Ok(false);
    }
    Ok(same(ty, &variable(alloc, own, index)?))
}

// The signature with a type put in for the hidden type at a place, which is hidden no longer.
fn fixed(alloc: Global, sig: &Abs, place: usize, ty: &NormalTy) -> Result<Abs, Mem>
    requires { place < length (kinds_of sig.now) }
    ensures { IfOk result (λ x. Fixed sig.now place ty.now x) }
{
    let kinds = sig.kinds().items();
    let later = &kinds[place + 1..];
    let body = put_first(
        alloc,
        sig.body(),
        &kinds[place..],
        ty,
        kinds.len() as u64 - 1,
    )?;
    let left = joined(alloc, &kinds[..place], later)?;
    Abs::make(alloc, left, body)
}

// What stands under hidden types of these kinds, with a type put in for the first of them, and for each later one its own
// variable; the type stands outside of `others` hidden types that are left.
fn put_first(
    alloc: Global,
    body: &Sig,
    kinds: &[Kind],
    ty: &NormalTy,
    others: u64,
) -> Result<Sig, Mem>
    requires { 0 < length kinds.now }
    ensures { IfOk result (λ s. PutFirst (map kind_tree kinds.now) body.now (shift others 0 ty.now) s) }
{
    let raised = raise(alloc, ty, others, 0)?;
    let types = with_own(alloc, raised, &kinds[1..])?;
    let whole = over_again(alloc, kinds, body)?;
    instantiate(alloc, &whole, types.items())
}

// What stands under hidden types of these kinds, hiding them, as it is written under those after the first.
fn over_again(alloc: Global, kinds: &[Kind], body: &Sig) -> Result<Abs, Mem>
    requires { 0 < length kinds.now }
    ensures { IfOk result (λ x. x ≡ Ex (map kind_tree kinds.now) (rename_sig (bump (length kinds.now - 1) (length kinds.now)) body.now)) }
{
    let count = kinds.len() as u64;
    let raised = raise_sig(alloc, body, count - 1, count)?;
    Abs::make(alloc, copied(alloc, kinds)?, raised)
}
