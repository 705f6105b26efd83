// Walks over types and terms that look at each variable.
ghost use Rattle.std.specs.Prelude.{◌≡◌, ◌+◌, ◌^◌, ◌<◌, ◌&&◌, IsTrue};
ghost use Rattle.omega_types.specs.Fields.{row};
ghost use Rattle.omega_terms.specs.Fields.{term_row};
ghost use Rattle.omega_terms.specs.InScope.{TyInScope, TermInScope};
ghost use Rattle.omega_scopes.specs.Inner.Depth.{ty_depth, type_depth, term_depth};
ghost use Rattle.omega_scopes.specs.Inner.Scoped.{fits, ty_scoped, row_scoped, term_scoped, term_row_scoped};

use omega_terms::{Term, TermFields, TermNode};
use omega_types::{Ty, TyFields, TyNode};

/// Whether each variable of the type is among so many type variables in scope, and has a level below 2^64. It may be
/// false also where 2^64 variables or more are in scope below a binder of the type. Takes no memory.
pub fn ty_in_scope(types: u64, ty: &Ty) -> bool
    ensures test { result ≡ ty_scoped types ty.now }
    ensures sound { IsTrue result → TyInScope types ty.now }
    ensures complete { TyInScope types ty.now → types + ty_depth ty.now < 2 ^ 64 → IsTrue result }
{
    fits_ty(types, ty)
}

/// Whether each variable of the term is among so many type variables and so many term variables in scope, and has a
/// level below 2^64. It may be false also where 2^64 variables of a sort or more are in scope below a binder of the
/// term. Takes no memory.
pub fn term_in_scope(types: u64, terms: u64, term: &Term) -> bool
    ensures test { result ≡ term_scoped types terms term.now }
    ensures sound { IsTrue result → TermInScope types terms term.now }
    ensures complete { TermInScope types terms term.now → types + type_depth term.now < 2 ^ 64 → terms + term_depth term.now < 2 ^ 64 → IsTrue result }
{
    fits_term(types, terms, term)
}

// Whether each variable of the type is in scope. One part of an arrow is enough where the two are known to be one tree.
#[cycle(types)]
fn fits_ty(types: u64, ty: &Ty) -> bool
    ensures { result ≡ ty_scoped types ty.now }
{
    match ty.node() {
        TyNode::Var(index) => *index < types,
        TyNode::Int | TyNode::Bool | TyNode::Text => true,
        TyNode::Arrow(a, b) => {
            fits_ty(types, a) && (ty.both_sides().is_some() || fits_ty(types, b))
        }
        TyNode::Fields(fields) | TyNode::Sum(fields) => fits_ty_fields(types, fields),
        TyNode::All(_, b) => fits_ty_body(types, b),
        TyNode::Ex(_, b) => fits_ty_body(types, b),
        TyNode::Mu(b) => fits_ty_body(types, b),
        TyNode::Lam(_, b) => fits_ty_body(types, b),
        TyNode::Apply(f, a) => fits_ty(types, f) && fits_ty(types, a),
    }
}

// Whether each variable of the body of a binder is in scope.
#[cycle(types)]
fn fits_ty_body(types: u64, body: &Ty) -> bool
    ensures { result ≡ (fits (types + 1) && ty_scoped (types + 1) body.now) }
{
    match types.checked_add(1) {
        Some(types) => fits_ty(types, body),
        None => false,
    }
}

// Whether each variable of the fields is in scope.
#[cycle(types)]
fn fits_ty_fields(types: u64, fields: &TyFields) -> bool
    ensures { result ≡ row_scoped types (row fields.now) }
{
    for field in fields.items() {
        if !fits_ty(types, &field.1) {
            return false;
        }
    }
    true
}

// Whether each variable of the term is in scope.
#[cycle(terms)]
fn fits_term(types: u64, terms: u64, term: &Term) -> bool
    ensures { result ≡ term_scoped types terms term.now }
{
    match term.node() {
        TermNode::Var(index) => *index < terms,
        TermNode::Int(_) | TermNode::Bool(_) | TermNode::Text(_) => true,
        TermNode::Lam(t, e) => fits_ty(types, t) && fits_under_term(types, terms, e),
        TermNode::Call(f, a) => fits_term(types, terms, f) && fits_term(types, terms, a),
        TermNode::TyLam(_, e) => fits_under_type(types, terms, e),
        TermNode::Inst(e, t) => fits_term(types, terms, e) && fits_ty(types, t),
        TermNode::Fields(fields) => fits_term_fields(types, terms, fields),
        TermNode::Get(e, _) => fits_term(types, terms, e),
        TermNode::Pack(t, e, u) => {
            fits_ty(types, t) && fits_term(types, terms, e) && fits_ty(types, u)
        }
        TermNode::Unpack(p, e) => fits_term(types, terms, p) && fits_under_both(types, terms, e),
        TermNode::If(a, b, c) => {
            fits_term(types, terms, a) && fits_term(types, terms, b) && fits_term(types, terms, c)
        }
        TermNode::Arith(_, a, b) => fits_term(types, terms, a) && fits_term(types, terms, b),
        TermNode::Fix(t, u, e) => {
            fits_ty(types, t) && fits_ty(types, u) && fits_under_two(types, terms, e)
        }
        TermNode::Inj(_, e, t) => fits_term(types, terms, e) && fits_ty(types, t),
        TermNode::Case(e, t, branches) => {
            fits_term(types, terms, e) && fits_ty(types, t) && fits_branches(types, terms, branches)
        }
        TermNode::Roll(e, t) => fits_term(types, terms, e) && fits_ty(types, t),
        TermNode::Unroll(e) => fits_term(types, terms, e),
    }
}

// Whether each variable of the body of a binder of a term variable is in scope.
#[cycle(terms)]
fn fits_under_term(types: u64, terms: u64, body: &Term) -> bool
    ensures { result ≡ (fits (terms + 1) && term_scoped types (terms + 1) body.now) }
{
    match terms.checked_add(1) {
        Some(terms) => fits_term(types, terms, body),
        None => false,
    }
}

// Whether each variable of the body of a binder of two term variables is in scope.
#[cycle(terms)]
fn fits_under_two(types: u64, terms: u64, body: &Term) -> bool
    ensures { result ≡ (fits (terms + 2) && term_scoped types (terms + 2) body.now) }
{
    match terms.checked_add(2) {
        Some(terms) => fits_term(types, terms, body),
        None => false,
    }
}

// Whether each variable of the body of a binder of a type variable is in scope.
#[cycle(terms)]
fn fits_under_type(types: u64, terms: u64, body: &Term) -> bool
    ensures { result ≡ (fits (types + 1) && term_scoped (types + 1) terms body.now) }
{
    match types.checked_add(1) {
        Some(types) => fits_term(types, terms, body),
        None => false,
    }
}

// Whether each variable of the body of a binder of a variable of each sort is in scope.
#[cycle(terms)]
fn fits_under_both(types: u64, terms: u64, body: &Term) -> bool
    ensures { result ≡ (fits (types + 1) && (fits (terms + 1) && term_scoped (types + 1) (terms + 1) body.now)) }
{
    match types.checked_add(1) {
        Some(types) => fits_under_term(types, terms, body),
        None => false,
    }
}

// Whether each variable of the branches is in scope, each of which binds a term variable.
#[cycle(terms)]
fn fits_branches(types: u64, terms: u64, branches: &TermFields) -> bool
    ensures { result ≡ (fits (terms + 1) && term_row_scoped types (terms + 1) (term_row branches.now)) }
{
    match terms.checked_add(1) {
        Some(terms) => fits_term_fields(types, terms, branches),
        None => false,
    }
}

// Whether each variable of the fields is in scope.
#[cycle(terms)]
fn fits_term_fields(types: u64, terms: u64, fields: &TermFields) -> bool
    ensures { result ≡ term_row_scoped types terms (term_row fields.now) }
{
    for field in fields.items() {
        if !fits_term(types, terms, &field.1) {
            return false;
        }
    }
    true
}
