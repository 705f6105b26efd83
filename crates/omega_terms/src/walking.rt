// The walk: a dispatcher, and a function of its own for each form with parts, so that no frame holds the parts of all forms.
ghost use Rattle.std.specs.Prelude.{◌≡◌, ℕ, IfOk, IsTrue};
ghost use Rattle.omega_kinds.specs.View.{kind_tree};
ghost use Rattle.omega_types.specs.Ty.{Ty as TyTree};
ghost use Rattle.omega_terms.specs.Fields.{term_row};
ghost use Rattle.omega_terms.specs.Term.{Term as TermTree};
ghost use Rattle.omega_terms.specs.Inner.Walk.{walked, walked_row};

use crate::inner::Inner;
use crate::op::Op;
use crate::tree::{Term, TermFields, TermNode};
use omega_kinds::{Kind, Label, Mem};
use omega_types::Ty;
use std::alloc::Global;

/// What becomes of the types and of the variables in a term.
pub trait Change {
    // What becomes of a type below so many binders of types.
    ghost type_at: { Self → ℕ → TyTree → TyTree };

    // What becomes of a variable below so many binders of types, and so many of terms.
    ghost variable_at: { Self → ℕ → ℕ → ℕ → TermTree };

    /// Whether a term below these binders surely stays as it is.
    fn is_unchanged(&self, term: &Term, inner: Inner) -> bool
        ensures { IsTrue result → walked (type_at self.now) (variable_at self.now) inner.types inner.terms term.now ≡ term.now };

    /// What becomes of a type. `Err` is out of memory.
    fn change_type(&self, alloc: Global, ty: &Ty, inner: Inner) -> Result<Ty, Mem>
        ensures { IfOk result (λ t. t ≡ type_at self.now inner.types ty.now) };

    /// What becomes of a variable. `Err` is out of memory.
    fn change_variable(&self, alloc: Global, index: u64, inner: Inner) -> Result<Term, Mem>
        ensures { IfOk result (λ e. e ≡ variable_at self.now inner.types inner.terms index) };
}

/// The term below these binders with the change made in it. `Err` is out of memory, also where a number of binders would
/// pass the last one.
///
/// Pierce, "Types and Programming Languages", section 6.2, Shifting and substitution, of which the walk is the common part.
#[cycle(walk)]
pub fn walk<C: Change>(alloc: Global, term: &Term, change: &C, inner: Inner) -> Result<Term, Mem>
    ensures { IfOk result (λ made. made ≡ walked (C.type_at change.now) (C.variable_at change.now) inner.types inner.terms term.now) }
{
    if change.is_unchanged(term, inner) {
        return term.share();
    }
    match term.node() {
        TermNode::Var(index) => walked_variable(alloc, *index, change, inner),
        TermNode::Int(_) | TermNode::Bool(_) | TermNode::Text(_) => term.share(),
        TermNode::Lam(t, e) => walk_function(alloc, t, e, change, inner),
        TermNode::Call(f, a) => walk_call(alloc, f, a, change, inner),
        TermNode::TyLam(k, e) => walk_type_function(alloc, k, e, change, inner),
        TermNode::Inst(e, t) => walk_inst(alloc, e, t, change, inner),
        TermNode::Fields(fields) => walk_record(alloc, fields, change, inner),
        TermNode::Get(e, l) => walk_get(alloc, e, l, change, inner),
        TermNode::Pack(t, e, u) => walk_package(alloc, t, e, u, change, inner),
        TermNode::Unpack(p, e) => walk_opened(alloc, p, e, change, inner),
        TermNode::If(a, b, c) => walk_choice(alloc, a, b, c, change, inner),
        TermNode::Arith(op, a, b) => walk_arith(alloc, *op, a, b, change, inner),
        TermNode::Fix(t, u, e) => walk_fix(alloc, t, u, e, change, inner),
        TermNode::Inj(l, e, t) => walk_injected(alloc, l, e, t, change, inner),
        TermNode::Case(e, t, branches) => walk_case(alloc, e, t, branches, change, inner),
        TermNode::Roll(e, t) => walk_rolled(alloc, e, t, change, inner),
        TermNode::Unroll(e) => walk_unrolled(alloc, e, change, inner),
    }
}

// A variable. What becomes of it is a call of its own, so that a frame of the walk has no room for the locals of the change.
#[inline(never)]
fn walked_variable<C: Change>(
    alloc: Global,
    index: u64,
    change: &C,
    inner: Inner,
) -> Result<Term, Mem>
    ensures { IfOk result (λ made. made ≡ C.variable_at change.now inner.types inner.terms index) }
{
    change.change_variable(alloc, index, inner)
}

// A type, by a call of its own for the same reason.
#[inline(never)]
fn walked_type<C: Change>(alloc: Global, t: &Ty, change: &C, inner: Inner) -> Result<Ty, Mem>
    ensures { IfOk result (λ made. made ≡ C.type_at change.now inner.types t.now) }
{
    change.change_type(alloc, t, inner)
}

// A function.
#[cycle(walk)]
#[inline(never)]
fn walk_function<C: Change>(
    alloc: Global,
    t: &Ty,
    e: &Term,
    change: &C,
    inner: Inner,
) -> Result<Term, Mem>
    ensures { IfOk result (λ made. made ≡ walked (C.type_at change.now) (C.variable_at change.now) inner.types inner.terms (TermTree.Lam t.now e.now)) }
{
    let t = walked_type(alloc, t, change, inner)?;
    let e = walk(alloc, e, change, inner.under_term()?)?;
    Term::make(alloc, TermNode::Lam(t, e))
}

// A call.
#[cycle(walk)]
#[inline(never)]
fn walk_call<C: Change>(
    alloc: Global,
    f: &Term,
    a: &Term,
    change: &C,
    inner: Inner,
) -> Result<Term, Mem>
    ensures { IfOk result (λ made. made ≡ walked (C.type_at change.now) (C.variable_at change.now) inner.types inner.terms (TermTree.Call f.now a.now)) }
{
    let f = walk(alloc, f, change, inner)?;
    let a = walk(alloc, a, change, inner)?;
    Term::make(alloc, TermNode::Call(f, a))
}

// A function of types.
#[cycle(walk)]
#[inline(never)]
fn walk_type_function<C: Change>(
    alloc: Global,
    k: &Kind,
    e: &Term,
    change: &C,
    inner: Inner,
) -> Result<Term, Mem>
    ensures { IfOk result (λ made. made ≡ walked (C.type_at change.now) (C.variable_at change.now) inner.types inner.terms (TermTree.TyLam (kind_tree k.now) e.now)) }
{
    let e = walk(alloc, e, change, inner.under_type()?)?;
    Term::make(alloc, TermNode::TyLam(k.share()?, e))
}

// A term at a type.
#[cycle(walk)]
#[inline(never)]
fn walk_inst<C: Change>(
    alloc: Global,
    e: &Term,
    t: &Ty,
    change: &C,
    inner: Inner,
) -> Result<Term, Mem>
    ensures { IfOk result (λ made. made ≡ walked (C.type_at change.now) (C.variable_at change.now) inner.types inner.terms (TermTree.Inst e.now t.now)) }
{
    let e = walk(alloc, e, change, inner)?;
    let t = walked_type(alloc, t, change, inner)?;
    Term::make(alloc, TermNode::Inst(e, t))
}

// A record.
#[cycle(walk)]
#[inline(never)]
fn walk_record<C: Change>(
    alloc: Global,
    fields: &TermFields,
    change: &C,
    inner: Inner,
) -> Result<Term, Mem>
    ensures { IfOk result (λ made. made ≡ walked (C.type_at change.now) (C.variable_at change.now) inner.types inner.terms (TermTree.Fields (term_row fields.now))) }
{
    let fields = walk_row(alloc, fields, change, inner)?;
    Term::make(alloc, TermNode::Fields(fields))
}

// A field of a record.
#[cycle(walk)]
#[inline(never)]
fn walk_get<C: Change>(
    alloc: Global,
    e: &Term,
    l: &Label,
    change: &C,
    inner: Inner,
) -> Result<Term, Mem>
    ensures { IfOk result (λ made. made ≡ walked (C.type_at change.now) (C.variable_at change.now) inner.types inner.terms (TermTree.Get e.now l.now)) }
{
    let e = walk(alloc, e, change, inner)?;
    Term::make(alloc, TermNode::Get(e, l.share()?))
}

// A package.
#[cycle(walk)]
#[inline(never)]
fn walk_package<C: Change>(
    alloc: Global,
    t: &Ty,
    e: &Term,
    u: &Ty,
    change: &C,
    inner: Inner,
) -> Result<Term, Mem>
    ensures { IfOk result (λ made. made ≡ walked (C.type_at change.now) (C.variable_at change.now) inner.types inner.terms (TermTree.Pack t.now e.now u.now)) }
{
    let t = walked_type(alloc, t, change, inner)?;
    let e = walk(alloc, e, change, inner)?;
    let u = walked_type(alloc, u, change, inner)?;
    Term::make(alloc, TermNode::Pack(t, e, u))
}

// An opened package.
#[cycle(walk)]
#[inline(never)]
fn walk_opened<C: Change>(
    alloc: Global,
    p: &Term,
    e: &Term,
    change: &C,
    inner: Inner,
) -> Result<Term, Mem>
    ensures { IfOk result (λ made. made ≡ walked (C.type_at change.now) (C.variable_at change.now) inner.types inner.terms (TermTree.Unpack p.now e.now)) }
{
    let p = walk(alloc, p, change, inner)?;
    let e = walk(alloc, e, change, inner.under_type()?.under_term()?)?;
    Term::make(alloc, TermNode::Unpack(p, e))
}

// A choice.
#[cycle(walk)]
#[inline(never)]
fn walk_choice<C: Change>(
    alloc: Global,
    a: &Term,
    b: &Term,
    c: &Term,
    change: &C,
    inner: Inner,
) -> Result<Term, Mem>
    ensures { IfOk result (λ made. made ≡ walked (C.type_at change.now) (C.variable_at change.now) inner.types inner.terms (TermTree.If a.now b.now c.now)) }
{
    let a = walk(alloc, a, change, inner)?;
    let b = walk(alloc, b, change, inner)?;
    let c = walk(alloc, c, change, inner)?;
    Term::make(alloc, TermNode::If(a, b, c))
}

// A computation.
#[cycle(walk)]
#[inline(never)]
fn walk_arith<C: Change>(
    alloc: Global,
    op: Op,
    a: &Term,
    b: &Term,
    change: &C,
    inner: Inner,
) -> Result<Term, Mem>
    ensures { IfOk result (λ made. made ≡ walked (C.type_at change.now) (C.variable_at change.now) inner.types inner.terms (TermTree.Arith op a.now b.now)) }
{
    let a = walk(alloc, a, change, inner)?;
    let b = walk(alloc, b, change, inner)?;
    Term::make(alloc, TermNode::Arith(op, a, b))
}

// A function that calls itself.
#[cycle(walk)]
#[inline(never)]
fn walk_fix<C: Change>(
    alloc: Global,
    t: &Ty,
    u: &Ty,
    e: &Term,
    change: &C,
    inner: Inner,
) -> Result<Term, Mem>
    ensures { IfOk result (λ made. made ≡ walked (C.type_at change.now) (C.variable_at change.now) inner.types inner.terms (TermTree.Fix t.now u.now e.now)) }
{
    let t = walked_type(alloc, t, change, inner)?;
    let u = walked_type(alloc, u, change, inner)?;
    let e = walk(alloc, e, change, inner.under_term()?.under_term()?)?;
    Term::make(alloc, TermNode::Fix(t, u, e))
}

// A term injected into a sum.
#[cycle(walk)]
#[inline(never)]
fn walk_injected<C: Change>(
    alloc: Global,
    l: &Label,
    e: &Term,
    t: &Ty,
    change: &C,
    inner: Inner,
) -> Result<Term, Mem>
    ensures { IfOk result (λ made. made ≡ walked (C.type_at change.now) (C.variable_at change.now) inner.types inner.terms (TermTree.Inj l.now e.now t.now)) }
{
    let e = walk(alloc, e, change, inner)?;
    let t = walked_type(alloc, t, change, inner)?;
    Term::make(alloc, TermNode::Inj(l.share()?, e, t))
}

// A case of a sum.
#[cycle(walk)]
#[inline(never)]
fn walk_case<C: Change>(
    alloc: Global,
    e: &Term,
    t: &Ty,
    branches: &TermFields,
    change: &C,
    inner: Inner,
) -> Result<Term, Mem>
    ensures { IfOk result (λ made. made ≡ walked (C.type_at change.now) (C.variable_at change.now) inner.types inner.terms (TermTree.Case e.now t.now (term_row branches.now))) }
{
    let e = walk(alloc, e, change, inner)?;
    let t = walked_type(alloc, t, change, inner)?;
    let branches = walk_row(alloc, branches, change, inner.under_term()?)?;
    Term::make(alloc, TermNode::Case(e, t, branches))
}

// A rolled term.
#[cycle(walk)]
#[inline(never)]
fn walk_rolled<C: Change>(
    alloc: Global,
    e: &Term,
    t: &Ty,
    change: &C,
    inner: Inner,
) -> Result<Term, Mem>
    ensures { IfOk result (λ made. made ≡ walked (C.type_at change.now) (C.variable_at change.now) inner.types inner.terms (TermTree.Roll e.now t.now)) }
{
    let e = walk(alloc, e, change, inner)?;
    let t = walked_type(alloc, t, change, inner)?;
    Term::make(alloc, TermNode::Roll(e, t))
}

// An unrolled term.
#[cycle(walk)]
#[inline(never)]
fn walk_unrolled<C: Change>(alloc: Global, e: &Term, change: &C, inner: Inner) -> Result<Term, Mem>
    ensures { IfOk result (λ made. made ≡ walked (C.type_at change.now) (C.variable_at change.now) inner.types inner.terms (TermTree.Unroll e.now)) }
{
    let e = walk(alloc, e, change, inner)?;
    Term::make(alloc, TermNode::Unroll(e))
}

// The terms of a row, each with the change made in it.
#[cycle(walk)]
#[tactic(auto, using(crate::proofs::WalkSteps::rows))]
fn walk_row<C: Change>(
    alloc: Global,
    fields: &TermFields,
    change: &C,
    inner: Inner,
) -> Result<TermFields, Mem>
    ensures { IfOk result (λ f. term_row f ≡ walked_row (C.type_at change.now) (C.variable_at change.now) inner.types inner.terms (term_row fields.now)) }
{
    let mut walked = TermFields::with_capacity(alloc, fields.items().len())?;
    for field in fields.items() {
        let part = walk(alloc, &field.1, change, inner)?;
        walked.push((field.0.share()?, part))?;
    }
    Ok(walked)
}
