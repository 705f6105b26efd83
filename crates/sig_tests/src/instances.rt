// Terms at types.
use crate::literals::closed;
use crate::term_texts::{below, has_text, term};
use omega_kinds::{Kind, Mem};
use omega_terms::{Term, TermNode};
use sig_instances::instance;
use std::alloc::Global;
use std::test::Fail;
use type_normal::{NormalTy, as_normal};

// in one type variable outside, two variables that get types
const OPEN: &str =
    "(tfn * (tfn * (tfn (> * *) (fn (-> (@ a2 a1) a0) (tfn * (fn (-> a1 a3) x1))))))";

// int, and then (lam * (-> a0 a0))
fn types(alloc: Global) -> Result<[NormalTy; 2], Fail> {
    let int = as_normal(closed(alloc, "int")?);
    Ok([int, as_normal(closed(alloc, "(lam * (-> a0 a0))")?)])
}

fn filled(alloc: Global, open: &Term) -> Result<Term, Fail> {
    let types = types(alloc)?;
    Ok(instance(alloc, open, &types)?)
}

// (tfn * body)
fn outside(alloc: Global, body: Term) -> Result<Term, Mem> {
    Term::make(alloc, TermNode::TyLam(Kind::Star, body))
}

// an operator takes its argument, the variable outside moves down by two, and the types move up below the binder
#[test]
fn instances(rt: HostRuntime) -> Result<(), Fail> {
    let whole = term(rt.alloc(), OPEN)?;
    let found = outside(rt.alloc(), filled(rt.alloc(), below(3, &whole))?)?;
    let expected = "(tfn * (fn (-> (-> int int) a0) (tfn * (fn (-> int a1) x1))))";
    assert!(rt; has_text(rt.alloc(), &found, expected)?);
    Ok(())
}
