// The walk: a dispatcher, and a function of its own for each form with parts, so that no frame holds the parts of all forms.
// Each answers `None` where the term stays as it is, so what stays is shared and not built anew. What a form of several
// parts becomes is a call of its own, made when no further part is walked, so that no frame of the walk has room for it.
ghost use Rattle.std.specs.Prelude.{◌≡◌, unwrap_or, IfOk};
ghost use Rattle.omega_kinds.specs.View.{kind_tree};
ghost use Rattle.omega_terms.specs.Fields.{term_row};
ghost use Rattle.omega_terms.specs.Term.{Term as TermTree};
ghost use Rattle.omega_simplify_laws.specs.Simplified.{call_of, simplified, simplified_row};

use crate::flatness::is_flat;
use omega_kinds::{Kind, Label, Mem};
use omega_terms::{Op, Term, TermFields, TermNode};
use omega_types::Ty;
use std::alloc::Global;

/// The term without the calls of flat functions: from the innermost outwards, each such call is replaced by its argument.
/// A function is flat where its body is its own variable, or where its variable is written at a record type and its body
/// is the record of the variable's parts at exactly the labels of that type. Types stay as they are, and so do the indexes
/// of variables: the result stands in the context of the term. `Err` is out of memory.
///
/// Such a call is a coercion that does nothing: an identity, or one expanded at a record type. Dropping it is a reduction
/// of functions (Pierce, "Types and Programming Languages", figure 9-1, E-AppAbs) with the law of records `{l = e.l, ..} = e`.
pub fn simplify(alloc: Global, term: &Term) -> Result<Term, Mem>
    ensures { IfOk result (λ e. e ≡ simplified term.now) }
{
    let new = simpler(alloc, term)?;
    new_or_shared(new, term)
}

// The new term, or else the old one.
#[inline(never)]
fn new_or_shared(new: Option<Term>, old: &Term) -> Result<Term, Mem>
    ensures { IfOk result (λ e. e ≡ unwrap_or new old.now) }
{
    match new {
        Some(term) => Ok(term),
        None => old.share(),
    }
}

// The simplified term, if it is another one.
#[cycle(simpler)]
fn simpler(alloc: Global, term: &Term) -> Result<Option<Term>, Mem>
    ensures { IfOk result (λ new. unwrap_or new term.now ≡ simplified term.now) }
{
    match term.node() {
        TermNode::Var(_) | TermNode::Int(_) | TermNode::Bool(_) | TermNode::Text(_) => Ok(None),
        TermNode::Lam(t, e) => simpler_function(alloc, t, e),
        TermNode::Call(f, a) => simpler_call(alloc, f, a),
        TermNode::TyLam(k, e) => simpler_type_function(alloc, k, e),
        TermNode::Inst(e, t) => simpler_inst(alloc, e, t),
        TermNode::Fields(fields) => simpler_record(alloc, fields),
        TermNode::Get(e, l) => simpler_get(alloc, e, l),
        TermNode::Pack(t, e, u) => simpler_package(alloc, t, e, u),
        TermNode::Unpack(p, e) => simpler_opened(alloc, p, e),
        TermNode::If(a, b, c) => simpler_choice(alloc, a, b, c),
        TermNode::Arith(op, a, b) => simpler_arith(alloc, *op, a, b),
        TermNode::Fix(t, u, e) => simpler_fix(alloc, t, u, e),
        TermNode::Inj(l, e, t) => simpler_injected(alloc, l, e, t),
        TermNode::Case(e, t, branches) => simpler_case(alloc, e, t, branches),
        TermNode::Roll(e, t) => simpler_rolled(alloc, e, t),
        TermNode::Unroll(e) => simpler_unrolled(alloc, e),
    }
}

// A function.
#[cycle(simpler)]
#[inline(never)]
fn simpler_function(alloc: Global, t: &Ty, e: &Term) -> Result<Option<Term>, Mem>
    ensures { IfOk result (λ new. unwrap_or new (TermTree.Lam t.now e.now) ≡ simplified (TermTree.Lam t.now e.now)) }
{
    let Some(e) = simpler(alloc, e)? else {
        return Ok(None);
    };
    Ok(Some(Term::make(alloc, TermNode::Lam(t.share()?, e))?))
}

// A call.
#[cycle(simpler)]
#[inline(never)]
fn simpler_call(alloc: Global, f: &Term, a: &Term) -> Result<Option<Term>, Mem>
    ensures { IfOk result (λ new. unwrap_or new (TermTree.Call f.now a.now) ≡ simplified (TermTree.Call f.now a.now)) }
{
    let function = simpler(alloc, f)?;
    let arg = simpler(alloc, a)?;
    call_of(alloc, f, a, function, arg)
}

// What becomes of a call whose parts become these.
#[inline(never)]
#[tactic(auto, using(crate::proofs::PartSteps::parts))]
fn call_of(
    alloc: Global,
    f: &Term,
    a: &Term,
    function: Option<Term>,
    arg: Option<Term>,
) -> Result<Option<Term>, Mem>
    ensures { IfOk result (λ new. unwrap_or new (TermTree.Call f.now a.now) ≡ call_of (unwrap_or function f.now) (unwrap_or arg a.now)) }
{
    if is_flat(new_or_old(&function, f)) {
        return Ok(Some(new_or_shared(arg, a)?));
    }
    if function.is_none() && arg.is_none() {
        return Ok(None);
    }
    let function = new_or_shared(function, f)?;
    let arg = new_or_shared(arg, a)?;
    Ok(Some(Term::make(alloc, TermNode::Call(function, arg))?))
}

// The new term, or else the old one.
fn new_or_old<'a>(new: &'a Option<Term>, old: &'a Term) -> &'a Term
    ensures { result.now ≡ unwrap_or new.now old.now }
{
    match new {
        Some(term) => term,
        None => old,
    }
}

// A function of types.
#[cycle(simpler)]
#[inline(never)]
fn simpler_type_function(alloc: Global, k: &Kind, e: &Term) -> Result<Option<Term>, Mem>
    ensures { IfOk result (λ new. unwrap_or new (TermTree.TyLam (kind_tree k.now) e.now) ≡ simplified (TermTree.TyLam (kind_tree k.now) e.now)) }
{
    let Some(e) = simpler(alloc, e)? else {
        return Ok(None);
    };
    Ok(Some(Term::make(alloc, TermNode::TyLam(k.share()?, e))?))
}

// A term at a type.
#[cycle(simpler)]
#[inline(never)]
fn simpler_inst(alloc: Global, e: &Term, t: &Ty) -> Result<Option<Term>, Mem>
    ensures { IfOk result (λ new. unwrap_or new (TermTree.Inst e.now t.now) ≡ simplified (TermTree.Inst e.now t.now)) }
{
    let Some(e) = simpler(alloc, e)? else {
        return Ok(None);
    };
    Ok(Some(Term::make(alloc, TermNode::Inst(e, t.share()?))?))
}

// A record.
#[cycle(simpler)]
#[inline(never)]
fn simpler_record(alloc: Global, fields: &TermFields) -> Result<Option<Term>, Mem>
    ensures { IfOk result (λ new. unwrap_or new (TermTree.Fields (term_row fields.now)) ≡ simplified (TermTree.Fields (term_row fields.now))) }
{
    let Some(fields) = simpler_row(alloc, fields)? else {
        return Ok(None);
    };
    Ok(Some(Term::make(alloc, TermNode::Fields(fields))?))
}

// A field of a record.
#[cycle(simpler)]
#[inline(never)]
fn simpler_get(alloc: Global, e: &Term, l: &Label) -> Result<Option<Term>, Mem>
    ensures { IfOk result (λ new. unwrap_or new (TermTree.Get e.now l.now) ≡ simplified (TermTree.Get e.now l.now)) }
{
    let Some(e) = simpler(alloc, e)? else {
        return Ok(None);
    };
    Ok(Some(Term::make(alloc, TermNode::Get(e, l.share()?))?))
}

// A package.
#[cycle(simpler)]
#[inline(never)]
fn simpler_package(alloc: Global, t: &Ty, e: &Term, u: &Ty) -> Result<Option<Term>, Mem>
    ensures { IfOk result (λ new. unwrap_or new (TermTree.Pack t.now e.now u.now) ≡ simplified (TermTree.Pack t.now e.now u.now)) }
{
    let Some(e) = simpler(alloc, e)? else {
        return Ok(None);
    };
    Ok(Some(Term::make(alloc, TermNode::Pack(t.share()?, e, u.share()?))?))
}

// An opened package.
#[cycle(simpler)]
#[inline(never)]
fn simpler_opened(alloc: Global, p: &Term, e: &Term) -> Result<Option<Term>, Mem>
    ensures { IfOk result (λ new. unwrap_or new (TermTree.Unpack p.now e.now) ≡ simplified (TermTree.Unpack p.now e.now)) }
{
    let packed = simpler(alloc, p)?;
    let body = simpler(alloc, e)?;
    opened_of(alloc, p, e, packed, body)
}

// What becomes of an opened package whose parts become these.
#[inline(never)]
#[tactic(auto, using(crate::proofs::PartSteps::parts))]
fn opened_of(
    alloc: Global,
    p: &Term,
    e: &Term,
    packed: Option<Term>,
    body: Option<Term>,
) -> Result<Option<Term>, Mem>
    ensures { IfOk result (λ new. unwrap_or new (TermTree.Unpack p.now e.now) ≡ TermTree.Unpack (unwrap_or packed p.now) (unwrap_or body e.now)) }
{
    if packed.is_none() && body.is_none() {
        return Ok(None);
    }
    let packed = new_or_shared(packed, p)?;
    let body = new_or_shared(body, e)?;
    Ok(Some(Term::make(alloc, TermNode::Unpack(packed, body))?))
}

// A choice.
#[cycle(simpler)]
#[inline(never)]
fn simpler_choice(alloc: Global, a: &Term, b: &Term, c: &Term) -> Result<Option<Term>, Mem>
    ensures { IfOk result (λ new. unwrap_or new (TermTree.If a.now b.now c.now) ≡ simplified (TermTree.If a.now b.now c.now)) }
{
    let test = simpler(alloc, a)?;
    let yes = simpler(alloc, b)?;
    let no = simpler(alloc, c)?;
    choice_of(alloc, a, b, c, test, yes, no)
}

// What becomes of a choice whose parts become these.
#[inline(never)]
#[tactic(auto, using(crate::proofs::PartSteps::parts))]
fn choice_of(
    alloc: Global,
    a: &Term,
    b: &Term,
    c: &Term,
    test: Option<Term>,
    yes: Option<Term>,
    no: Option<Term>,
) -> Result<Option<Term>, Mem>
    ensures { IfOk result (λ new. unwrap_or new (TermTree.If a.now b.now c.now) ≡ TermTree.If (unwrap_or test a.now) (unwrap_or yes b.now) (unwrap_or no c.now)) }
{
    if test.is_none() && yes.is_none() && no.is_none() {
        return Ok(None);
    }
    let test = new_or_shared(test, a)?;
    let yes = new_or_shared(yes, b)?;
    let no = new_or_shared(no, c)?;
    Ok(Some(Term::make(alloc, TermNode::If(test, yes, no))?))
}

// A computation.
#[cycle(simpler)]
#[inline(never)]
fn simpler_arith(alloc: Global, op: Op, a: &Term, b: &Term) -> Result<Option<Term>, Mem>
    ensures { IfOk result (λ new. unwrap_or new (TermTree.Arith op a.now b.now) ≡ simplified (TermTree.Arith op a.now b.now)) }
{
    let left = simpler(alloc, a)?;
    let right = simpler(alloc, b)?;
    arith_of(alloc, op, a, b, left, right)
}

// What becomes of a computation whose parts become these.
#[inline(never)]
#[tactic(auto, using(crate::proofs::PartSteps::parts))]
fn arith_of(
    alloc: Global,
    op: Op,
    a: &Term,
    b: &Term,
    left: Option<Term>,
    right: Option<Term>,
) -> Result<Option<Term>, Mem>
    ensures { IfOk result (λ new. unwrap_or new (TermTree.Arith op a.now b.now) ≡ TermTree.Arith op (unwrap_or left a.now) (unwrap_or right b.now)) }
{
    if left.is_none() && right.is_none() {
        return Ok(None);
    }
    let left = new_or_shared(left, a)?;
    let right = new_or_shared(right, b)?;
    Ok(Some(Term::make(alloc, TermNode::Arith(op, left, right))?))
}

// A function that calls itself.
#[cycle(simpler)]
#[inline(never)]
fn simpler_fix(alloc: Global, t: &Ty, u: &Ty, e: &Term) -> Result<Option<Term>, Mem>
    ensures { IfOk result (λ new. unwrap_or new (TermTree.Fix t.now u.now e.now) ≡ simplified (TermTree.Fix t.now u.now e.now)) }
{
    let Some(e) = simpler(alloc, e)? else {
        return Ok(None);
    };
    Ok(Some(Term::make(alloc, TermNode::Fix(t.share()?, u.share()?, e))?))
}

// A term injected into a sum.
#[cycle(simpler)]
#[inline(never)]
fn simpler_injected(alloc: Global, l: &Label, e: &Term, t: &Ty) -> Result<Option<Term>, Mem>
    ensures { IfOk result (λ new. unwrap_or new (TermTree.Inj l.now e.now t.now) ≡ simplified (TermTree.Inj l.now e.now t.now)) }
{
    let Some(e) = simpler(alloc, e)? else {
        return Ok(None);
    };
    Ok(Some(Term::make(alloc, TermNode::Inj(l.share()?, e, t.share()?))?))
}

// A case of a sum.
#[cycle(simpler)]
#[inline(never)]
fn simpler_case(alloc: Global, e: &Term, t: &Ty, branches: &TermFields) -> Result<Option<Term>, Mem>
    ensures { IfOk result (λ new. unwrap_or new (TermTree.Case e.now t.now (term_row branches.now)) ≡ simplified (TermTree.Case e.now t.now (term_row branches.now))) }
{
    let whole = simpler(alloc, e)?;
    let row = simpler_row(alloc, branches)?;
    case_of(alloc, e, t, branches, whole, row)
}

// What becomes of a case whose parts become these.
#[inline(never)]
#[tactic(auto, using(crate::proofs::PartSteps::parts))]
fn case_of(
    alloc: Global,
    e: &Term,
    t: &Ty,
    branches: &TermFields,
    whole: Option<Term>,
    row: Option<TermFields>,
) -> Result<Option<Term>, Mem>
    ensures { IfOk result (λ new. unwrap_or new (TermTree.Case e.now t.now (term_row branches.now)) ≡ TermTree.Case (unwrap_or whole e.now) t.now (term_row (unwrap_or row branches.now))) }
{
    if whole.is_none() && row.is_none() {
        return Ok(None);
    }
    let whole = new_or_shared(whole, e)?;
    let row = new_or_shared_row(alloc, row, branches)?;
    Ok(Some(Term::make(alloc, TermNode::Case(whole, t.share()?, row))?))
}

// The new branches, or else the old ones.
fn new_or_shared_row(
    alloc: Global,
    new: Option<TermFields>,
    old: &TermFields,
) -> Result<TermFields, Mem>
    ensures { IfOk result (λ row. term_row row ≡ term_row (unwrap_or new old.now)) }
{
    match new {
        Some(row) => Ok(row),
        None => shared_row(alloc, old),
    }
}

// The same branches, with their terms shared.
#[inline(never)]
#[tactic(auto, using(crate::proofs::RowSteps::rows))]
fn shared_row(alloc: Global, branches: &TermFields) -> Result<TermFields, Mem>
    ensures { IfOk result (λ row. term_row row ≡ term_row branches.now) }
{
    let mut row = TermFields::with_capacity(alloc, branches.items().len())?;
    for branch in branches.items() {
        row.push((branch.0.share()?, branch.1.share()?))?;
    }
    Ok(row)
}

// A rolled term.
#[cycle(simpler)]
#[inline(never)]
fn simpler_rolled(alloc: Global, e: &Term, t: &Ty) -> Result<Option<Term>, Mem>
    ensures { IfOk result (λ new. unwrap_or new (TermTree.Roll e.now t.now) ≡ simplified (TermTree.Roll e.now t.now)) }
{
    let Some(e) = simpler(alloc, e)? else {
        return Ok(None);
    };
    Ok(Some(Term::make(alloc, TermNode::Roll(e, t.share()?))?))
}

// An unrolled term.
#[cycle(simpler)]
#[inline(never)]
fn simpler_unrolled(alloc: Global, e: &Term) -> Result<Option<Term>, Mem>
    ensures { IfOk result (λ new. unwrap_or new (TermTree.Unroll e.now) ≡ simplified (TermTree.Unroll e.now)) }
{
    let Some(e) = simpler(alloc, e)? else {
        return Ok(None);
    };
    Ok(Some(Term::make(alloc, TermNode::Unroll(e))?))
}

// The fields of a record, or the branches of a case, if one of them becomes another.
#[cycle(simpler)]
#[tactic(auto, using(crate::proofs::RowSteps::rows))]
fn simpler_row(alloc: Global, fields: &TermFields) -> Result<Option<TermFields>, Mem>
    ensures { IfOk result (λ new. term_row (unwrap_or new fields.now) ≡ simplified_row (term_row fields.now)) }
{
    let mut row = TermFields::with_capacity(alloc, fields.items().len())?;
    let mut stays = true;
    for field in fields.items() {
        let part = simpler(alloc, &field.1)?;
        stays = stays && part.is_none();
        row.push((field.0.share()?, new_or_shared(part, &field.1)?))?;
    }
    if stays {
        return Ok(None);
    }
    Ok(Some(row))
}
