// Worked terms that are shared, raised and filled.
use crate::texts::{below_functions, term};
use omega_kinds::{Label, Mem};
use omega_terms::{Term, TermNode, is_value, nodes, put_term, put_type, shift_term};
use omega_types::{Ty, TyNode};
use std::alloc::Global;
use std::test::Fail;

// The indexes in a term (fn aT (call xF xA)), with none for the type where it is no variable.
fn indexes(term: &Term) -> Option<(Option<u64>, u64, u64)> {
    let TermNode::Lam(from, body) = term.node() else {
        return None;
    };
    let TermNode::Call(function, arg) = body.node() else {
        return None;
    };
    let ty = match from.node() {
        TyNode::Var(index) => Some(*index),
        _ => None,
    };
    match (function.node(), arg.node()) {
        (TermNode::Var(i), TermNode::Var(j)) => Some((ty, *i, *j)),
        _ => None,
    }
}

#[test]
fn a_record_is_shared(rt: HostRuntime) -> Result<(), Fail> {
    let shared = term(rt.alloc(), "(rec (.val -1) (x true))")?.share()?;
    assert!(rt; is_value(&shared));
    assert_eq!(rt; nodes(&shared), 3);
    Ok(())
}

// Terms of sums and recursive types, whether each is a value, and its nodes.
const SUMS: [(&str, bool, u64); 7] = [
    ("(inj a 1 (sum (a int)))", true, 2),
    ("(inj a (+ 1 2) (sum (a int)))", false, 4),
    ("(inj a (fn int x0) (sum (a (-> int int))))", true, 3),
    (
        "(case (inj a 1 (sum (a int) (b int))) int (a x0) (b 2))",
        false,
        5,
    ),
    ("(roll 0 (mu int))", true, 2),
    ("(roll (unroll (roll 0 (mu int))) (mu int))", false, 4),
    ("(unroll (roll 0 (mu int)))", false, 3),
];

#[test]
fn values_and_nodes_of_sums(rt: HostRuntime) -> Result<(), Fail> {
    for (text, value, count) in &SUMS {
        let term = term(rt.alloc(), text)?;
        assert!(rt; is_value(&term) == *value, "at {text}");
        assert!(rt; nodes(&term) == *count, "at {text}");
    }
    Ok(())
}

// Each label finds the number of its own field, and no other label finds any.
#[test]
fn a_field_by_its_label(rt: HostRuntime) -> Result<(), Fail> {
    let record = term(rt.alloc(), "(rec (.val 0) (.typ 1) (a 2) (b 3) (bb 4))")?;
    let TermNode::Fields(fields) = record.node() else {
        return Err("no record")?;
    };
    for (at, (label, _)) in fields.items().iter().enumerate() {
        let found = fields.find(label).ok_or("no field")?;
        assert!(rt;
            matches!(found.node(), TermNode::Int(number) if *number == at as i64),
            "at {at}"
        );
    }
    for absent in [Label::Sig, Label::Gen] {
        assert!(rt; fields.find(&absent).is_none());
    }
    Ok(())
}

fn filled(alloc: Global, term: &Term) -> Result<Term, Mem> {
    let arg = Term::make(alloc, TermNode::Var(7))?;
    put_term(alloc, term, 0, &arg)
}

fn typed(alloc: Global, term: &Term) -> Result<Term, Mem> {
    let int = Ty::make(alloc, TyNode::Int)?;
    put_type(alloc, term, 0, &int)
}

// (fn a0 (call x1 x2)), by index
const CALLER: &str = "(tfn * (fn int (fn int (fn a0 (call x1 x0)))))";

#[test]
fn indexes_are_raised_and_filled(rt: HostRuntime) -> Result<(), Fail> {
    let whole = term(rt.alloc(), CALLER)?;
    let caller = below_functions(3, &whole);
    assert_eq!(rt; indexes(caller), Some((Some(0), 1, 2)));
    assert_eq!(rt;
        indexes(&shift_term(rt.alloc(), caller, 2, 3)?),
        Some((Some(2), 4, 5))
    );
    assert_eq!(rt;
        indexes(&filled(rt.alloc(), caller)?),
        Some((Some(0), 8, 1))
    );
    assert_eq!(rt; indexes(&typed(rt.alloc(), caller)?), Some((None, 1, 2)));
    Ok(())
}

// The indexes in a term (case xE aT (l (call xF xA)) ..), with none for the type where it is no variable.
fn case_indexes(term: &Term) -> Option<(u64, Option<u64>, u64, u64)> {
    let TermNode::Case(whole, ty, branches) = term.node() else {
        return None;
    };
    let TermNode::Var(from) = whole.node() else {
        return None;
    };
    let Some((_, branch)) = branches.items().first() else {
        return None;
    };
    let TermNode::Call(function, arg) = branch.node() else {
        return None;
    };
    let ty = match ty.node() {
        TyNode::Var(index) => Some(*index),
        _ => None,
    };
    match (function.node(), arg.node()) {
        (TermNode::Var(i), TermNode::Var(j)) => Some((*from, ty, *i, *j)),
        _ => None,
    }
}

// (case x1 a0 (a (call x1 x0))), by index
const CASE: &str = "(tfn * (fn int (fn int (case x0 a0 (a (call x1 x2))))))";

// What is injected is variable 0 of a branch, which no change from outside reaches.
#[test]
fn branches_are_raised_and_filled(rt: HostRuntime) -> Result<(), Fail> {
    let whole = term(rt.alloc(), CASE)?;
    let case = below_functions(3, &whole);
    assert_eq!(rt; case_indexes(case), Some((1, Some(0), 1, 0)));
    assert_eq!(rt;
        case_indexes(&shift_term(rt.alloc(), case, 2, 3)?),
        Some((4, Some(2), 4, 0))
    );
    assert_eq!(rt;
        case_indexes(&filled(rt.alloc(), case)?),
        Some((0, Some(0), 8, 0))
    );
    assert_eq!(rt;
        case_indexes(&typed(rt.alloc(), case)?),
        Some((1, None, 1, 0))
    );
    Ok(())
}
