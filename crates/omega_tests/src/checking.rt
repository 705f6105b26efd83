// A variable out of scope, a large term, deep ones, a deep type that is normal, and the rules of sums and recursive types
// by texts. Other worked examples, as texts, are in fing_tests.
use crate::texts::{nested, term, ty};
use omega_checker::check;
use omega_kinds::{Kind, Label, Mem, arrow};
use omega_terms::{Op, Term, TermFields, TermNode};
use omega_types::{Ty, TyNode};
use std::alloc::Global;
use std::test::Fail;

fn var(alloc: Global, index: u64) -> Result<Ty, Mem> {
    Ty::make(alloc, TyNode::Var(index))
}

fn int(alloc: Global) -> Result<Ty, Mem> {
    Ty::make(alloc, TyNode::Int)
}

fn number(alloc: Global) -> Result<Term, Mem> {
    Term::make(alloc, TermNode::Int(1))
}

fn says(alloc: Global, term: Term, ty: Ty) -> Result<bool, Mem> {
    Ok(check(alloc, term, ty)?.is_some())
}

fn is_int(alloc: Global, term: Term) -> Result<bool, Mem> {
    says(alloc, term, int(alloc)?)
}

#[test]
fn a_variable_out_of_scope_has_no_type(rt: HostRuntime) -> Result<(), Fail> {
    let term = Term::make(rt.alloc(), TermNode::Var(0))?;
    assert!(rt; !is_int(rt.alloc(), term)?);
    let ty = var(rt.alloc(), 0)?;
    assert!(rt; !says(rt.alloc(), number(rt.alloc())?, ty)?);
    Ok(())
}

// 65,536 numbers added in a balanced tree, whose halves are shared
fn large(alloc: Global) -> Result<Term, Mem> {
    let mut term = number(alloc)?;
    for _ in 0..16 {
        term = Term::make(alloc, TermNode::Arith(Op::Add, term.share()?, term))?;
    }
    Ok(term)
}

#[test]
fn a_large_term(rt: HostRuntime) -> Result<(), Fail> {
    assert!(rt; is_int(rt.alloc(), large(rt.alloc())?)?);
    Ok(())
}

// 4,000 functions inside one another
fn functions(alloc: Global) -> Result<Term, Mem> {
    let mut term = number(alloc)?;
    for _ in 0..4000 {
        term = Term::make(alloc, TermNode::Lam(int(alloc)?, term))?;
    }
    Ok(term)
}

// the type of 4,000 functions inside one another
fn arrows(alloc: Global) -> Result<Ty, Mem> {
    let mut ty = int(alloc)?;
    for _ in 0..4000 {
        ty = Ty::make(alloc, TyNode::Arrow(int(alloc)?, ty))?;
    }
    Ok(ty)
}

#[test]
fn a_deep_term(rt: HostRuntime) -> Result<(), Fail> {
    let term = functions(rt.alloc())?;
    assert!(rt; says(rt.alloc(), term, arrows(rt.alloc())?)?);
    Ok(())
}

// (@ v int), v being the variable of this index
fn at_int(alloc: Global, index: u64) -> Result<Ty, Mem> {
    let operator = var(alloc, index)?;
    Ty::make(alloc, TyNode::Apply(operator, int(alloc)?))
}

// (@ v int) below 4,000 binders, v being bound outside them
fn binders(alloc: Global) -> Result<Ty, Mem> {
    let mut ty = at_int(alloc, 4000)?;
    for _ in 0..4000 {
        ty = Ty::make(alloc, TyNode::All(Kind::Star, ty))?;
    }
    let operators = arrow(alloc, Kind::Star, Kind::Star)?;
    Ty::make(alloc, TyNode::All(operators, ty))
}

// (fn ty x0)
fn identity(alloc: Global, ty: Ty) -> Result<Term, Mem> {
    let own = Term::make(alloc, TermNode::Var(0))?;
    Term::make(alloc, TermNode::Lam(ty, own))
}

// (-> ty ty)
fn to_itself(alloc: Global, ty: &Ty) -> Result<Ty, Mem> {
    let from = ty.share()?;
    Ty::make(alloc, TyNode::Arrow(from, ty.share()?))
}

#[test]
fn a_deep_normal_type(rt: HostRuntime) -> Result<(), Fail> {
    let ty = binders(rt.alloc())?;
    let own = to_itself(rt.alloc(), &ty)?;
    let term = identity(rt.alloc(), ty)?;
    assert!(rt; says(rt.alloc(), term, own)?);
    Ok(())
}

// A term, a type, and whether the one has the other. The branch of a case names what was injected `x0`, or `x1` below a
// function.
const RULES: [(&str, &str, bool); 22] = [
    // an injection has the type that it names, where that is a sum with the part's type at the label
    (
        "(inj a 1 (sum (a int) (b bool)))",
        "(sum (a int) (b bool))",
        true,
    ),
    (
        "(inj b 1 (sum (a int) (b bool)))",
        "(sum (a int) (b bool))",
        false,
    ),
    (
        "(inj c 1 (sum (a int) (b bool)))",
        "(sum (a int) (b bool))",
        false,
    ),
    ("(inj a 1 (rec (a int)))", "(rec (a int))", false),
    ("(inj a 1 (sum (a int)))", "int", false),
    // a name for the sum by an operator: the types are one after computing
    (
        "(inj a 1 (@ (lam * (sum (a a0))) int))",
        "(sum (a int))",
        true,
    ),
    // a case has one branch for each label, and they have one type
    (
        "(case (inj a 1 (sum (a int) (b bool))) int (a x0) (b (if x0 1 2)))",
        "int",
        true,
    ),
    (
        "(case (inj a 1 (sum (a int) (b bool))) int (a x0) (b x0))",
        "int",
        false,
    ),
    ("(case (inj a 1 (sum (a int))) int (b 2))", "int", false),
    (
        "(case (inj a 1 (sum (a int))) int (a x0) (b 2))",
        "int",
        false,
    ),
    (
        "(case (inj a 1 (sum (a int) (b bool))) int (a x0))",
        "int",
        false,
    ),
    ("(case (rec (a 1)) int (a x0))", "int", false),
    ("(case (inj a 1 (sum (a int))) bool (a x0))", "bool", false),
    // a case without branches
    ("(fn (sum) (case x0 int))", "(-> (sum) int)", true),
    ("(fn int (case x0 int))", "(-> int int)", false),
    (
        "(fn (sum (a int)) (case x0 int))",
        "(-> (sum (a int)) int)",
        false,
    ),
    // a function that is given to itself
    (
        "(fn (mu (-> a0 int)) (call (unroll x0) x0))",
        "(-> (mu (-> a0 int)) int)",
        true,
    ),
    (
        "(fn (mu (-> a0 int)) (call x0 x0))",
        "(-> (mu (-> a0 int)) int)",
        false,
    ),
    // what is rolled has the type that the recursive type unfolds to
    (
        "(roll (fn (mu (-> a0 int)) 1) (mu (-> a0 int)))",
        "(mu (-> a0 int))",
        true,
    ),
    (
        "(fn (mu (-> a0 int)) (roll x0 (mu (-> a0 int))))",
        "(-> (mu (-> a0 int)) (mu (-> a0 int)))",
        false,
    ),
    // a recursive type is not the type that it unfolds to
    (
        "(roll (fn (mu (-> a0 int)) 1) (mu (-> a0 int)))",
        "(-> (mu (-> a0 int)) int)",
        false,
    ),
    // a number is none, or one more than another: whether it is above zero
    (
        "(fn (mu (sum (more a0) (none (rec)))) (case (unroll x0) bool (more true) (none false)))",
        "(-> (mu (sum (more a0) (none (rec)))) bool)",
        true,
    ),
];

#[test]
fn sums_and_recursive_types(rt: HostRuntime) -> Result<(), Fail> {
    for (text, wanted, is_typed) in &RULES {
        let given = term(rt.alloc(), text)?;
        let wanted = ty(rt.alloc(), wanted)?;
        assert_eq!(rt; says(rt.alloc(), given, wanted)?, *is_typed, "at {text}");
    }
    Ok(())
}

// (case whole int (.val body))
fn case_of(alloc: Global, whole: &Term, body: Term) -> Result<Term, Mem> {
    let mut branches = TermFields::new(alloc);
    branches.push((Label::Val, body))?;
    Term::make(alloc, TermNode::Case(whole.share()?, int(alloc)?, branches))
}

// 4,000 cases, each in the branch of the one outside it
fn cases(alloc: Global) -> Result<Term, Fail> {
    let whole = term(alloc, "(inj .val 1 (sum (.val int)))")?;
    let mut inner = number(alloc)?;
    for _ in 0..4000 {
        inner = case_of(alloc, &whole, inner)?;
    }
    Ok(inner)
}

#[test]
fn deep_branches(rt: HostRuntime) -> Result<(), Fail> {
    assert!(rt; is_int(rt.alloc(), cases(rt.alloc())?)?);
    Ok(())
}

// 1,900 cases of injections, each injecting the case inside it
#[test]
fn deep_injections(rt: HostRuntime) -> Result<(), Fail> {
    let text = nested(
        rt.alloc(),
        1900,
        "(case (inj a ",
        "1",
        " (sum (a int))) int (a x0))",
    )?;
    assert!(rt; is_int(rt.alloc(), term(rt.alloc(), &text)?)?);
    Ok(())
}
