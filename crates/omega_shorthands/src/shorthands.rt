// The shorthands, as terms.
ghost use Rattle.std.specs.Prelude.{◌≡◌, ◌∷◌, List, length, IfOk};
ghost use Rattle.omega_kinds.specs.Kind.{Kind as KindTree};
ghost use Rattle.omega_terms.specs.PartTerms.{one_field as one_field_of};
ghost use Rattle.omega_terms.specs.Shorthands.{insts as insts_of, ty_lam_over as ty_lam_over_of, let_in as let_in_of, opens as opens_of, Packs};
ghost use Rattle.omega_terms.specs.Term.{Var};
ghost use Rattle.omega_shorthands.specs.Inner.Packed.{opened, opened_times, pack_up as pack_up_of, Fills};

use omega_kinds::{Extent, Kinds, Label, Mem, NOTHING};
use omega_terms::{Term, TermFields, TermNode};
use omega_types::{Ty, TyNode};
use std::alloc::Global;
use type_normal::{NormalTy, as_normal, hsubst, plain};

/// A term variable. `Err` is out of memory, as for all calls of this crate.
pub fn variable(alloc: Global, index: u64) -> Result<Term, Mem>
    ensures { IfOk result (λ e. e ≡ Var index) }
{
    Term::make(alloc, TermNode::Var(index))
}

/// A record of one field.
pub fn one_field(alloc: Global, label: Label, term: Term) -> Result<Term, Mem>
    ensures { IfOk result (λ e. e ≡ one_field_of label term) }
{
    let mut fields = TermFields::with_capacity(alloc, 1)?;
    fields.push((label, term))?;
    Term::make(alloc, TermNode::Fields(fields))
}

/// The innermost term variable of a body, let be a term of this type.
pub fn let_in(alloc: Global, ty: &Ty, term: Term, body: Term) -> Result<Term, Mem>
    ensures { IfOk result (λ e. e ≡ let_in_of ty.now term body) }
{
    let function = Term::make(alloc, TermNode::Lam(ty.share()?, body))?;
    Term::make(alloc, TermNode::Call(function, term))
}

/// A term at types, the first one innermost.
pub fn insts(alloc: Global, term: Term, types: &[NormalTy]) -> Result<Term, Mem>
    ensures { IfOk result (λ e. e ≡ insts_of term types.now) }
{
    let mut applied = term;
    for ty in types {
        applied = Term::make(alloc, TermNode::Inst(applied, plain(ty).share()?))?;
    }
    Ok(applied)
}

/// A type function for each kind, the first outermost.
pub fn ty_lam_over(alloc: Global, kinds: &Kinds, body: Term) -> Result<Term, Mem>
    ensures { IfOk result (λ e. e ≡ ty_lam_over_of kinds.now body) }
{
    let kinds = kinds.items();
    let mut term = body;
    let mut left = kinds.len();
    while left > 0 {
        left -= 1;
        term = Term::make(alloc, TermNode::TyLam(kinds[left].share()?, term))?;
    }
    Ok(term)
}

/// A term with types hidden, one for each `some` in front of a type, the outermost first. Each inner pack has the rest
/// of the type with the type before put in, in normal form. A type that begins with fewer is packed no further.
#[tactic(auto, using(crate::proofs::PackSteps::packs_filled))]
pub fn pack_up(alloc: Global, types: &[NormalTy], term: &Term, to: &Ty) -> Result<Term, Mem>
    ensures value { IfOk result (λ e. e ≡ pack_up_of types.now term.now to.now) }
    ensures packs { IfOk result (λ e. (ctx : List KindTree) → Fills ctx types.now to.now → Packs ctx types.now term.now to.now e) }
{
    pack_all(alloc, types, term, to, NOTHING)
}

// All the types hidden. `around` is the extent of the types of the packs around it: memory is refused as soon as these
// alone would be too large.
#[cycle(pack)]
fn pack_all(
    alloc: Global,
    types: &[NormalTy],
    term: &Term,
    to: &Ty,
    around: Extent,
) -> Result<Term, Mem>
    ensures { IfOk result (λ e. e ≡ pack_up_of types.now term.now to.now) }
{
    match types {
        [] => term.share(),
        [hidden, rest @ ..] => pack_one(alloc, hidden, rest, term, to, around),
    }
}

// The first type hidden, and then the rest.
#[cycle(pack)]
fn pack_one(
    alloc: Global,
    hidden: &NormalTy,
    rest: &[NormalTy],
    term: &Term,
    to: &Ty,
    around: Extent,
) -> Result<Term, Mem>
    ensures { IfOk result (λ e. e ≡ pack_up_of (hidden.now ∷ rest.now) term.now to.now) }
{
    match to.node() {
        TyNode::Ex(kind, body) => {
            let packed = if rest.is_empty() {
                term.share()?
            } else {
                let around = around.beside(to.extent()).over(0)?;
                let body = as_normal(body.share()?);
                let inner = hsubst(alloc, &body, 0, hidden, kind)?;
                pack_all(alloc, rest, term, plain(&inner), around)?
            };
            Term::make(
                alloc,
                TermNode::Pack(plain(hidden).share()?, packed, to.share()?),
            )
        }
        _ => term.share(),
    }
}

/// All hidden types of a term, so many, opened in a body, whose innermost term variable is what is left. For none of them
/// the variable is let be the term, at the type `from`; for more, `from` is not used.
#[tactic(auto, using(crate::proofs::PackSteps::opens_opened))]
pub fn opens(alloc: Global, count: u64, term: Term, from: &Ty, body: Term) -> Result<Term, Mem>
    ensures value { IfOk result (λ e. e ≡ opened count term from.now body) }
    ensures opens { IfOk result (λ e. (ks : List KindTree) → length ks ≡ count → e ≡ opens_of ks term from.now body) }
{
    if count == 0 {
        let_in(alloc, from, term, body)
    } else {
        let inner = opens_after(alloc, count - 1, body)?;
        Term::make(alloc, TermNode::Unpack(term, inner))
    }
}

// So many further types opened, each of the variable of the open before.
fn opens_after(alloc: Global, count: u64, body: Term) -> Result<Term, Mem>
    ensures { IfOk result (λ e. e ≡ opened_times count body) }
{
    let mut term = body;
    let mut left = count;
    while left > 0 {
        left -= 1;
        term = Term::make(alloc, TermNode::Unpack(variable(alloc, 0)?, term))?;
    }
    Ok(term)
}
