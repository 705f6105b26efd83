// Texts of each form in both versions, texts that are refused, and texts as deep as they may be.
use crate::texts::{below_functions, first_version, nested, term, whole};
use omega_read::{ReadRefusal, read};
use omega_terms::{Term, TermNode};
use std::alloc::Global;
use std::process::Abort;
use std::test::Fail;

const TYPES: [&str; 12] = [
    "int",
    "bool",
    "text",
    "(-> int text)",
    "(rec)",
    "(rec (.val int) (.typ int) (.sig int) (.app int) (.gen int) (%0 int) (Val int) (_ int) (x' int))",
    "(all * a0)",
    "(some (> * (> * *)) (some * (@ (@ a0 a1) int)))",
    "(lam * (-> a0 a0))",
    "(@ (lam * a0) int)",
    "(all * (all * (all * (-> a0 (-> a1 a2)))))",
    "(rec (a (rec (b (rec)) (c text))))",
];

// Types that have a text in the second version only.
const SECOND_TYPES: [&str; 8] = [
    "(sum)",
    "(sum (a int))",
    "(sum (.val int) (%0 text) (a (sum)) (b (rec)))",
    "(mu a0)",
    "(mu (-> a0 int))",
    "(mu (sum (more (rec (head int) (tail a0))) (none (rec))))",
    "(all * (-> (sum (a int) (b a0)) (mu (-> a1 int))))",
    "(rec (mu (mu (mu (-> a0 a1)))) (sum (sum (mu int))))",
];

const TERMS: [&str; 17] = [
    "9223372036854775807",
    "-9223372036854775808",
    "0",
    "true",
    "false",
    "\"\"",
    "\"a(\\\"b)\\\\ \\n ~\"",
    "(fn int (fn int (call x0 x1)))",
    "(tfn (> * *) (fn (@ a0 int) x0))",
    "(inst 1 (-> int int))",
    "(rec (.val 1) (x -1))",
    "(get (rec) %9)",
    "(pack int 1 (some * a0))",
    "(open 1 (fn a0 (call x0 x1)))",
    "(if true 1 2)",
    "(+ (- (* (/ 1 2) 3) (% 4 5)) (if (< 6 7) 8 (== 9 10)))",
    "(fix int bool (call x0 x1))",
];

// Terms that have a text in the second version only. None of the types in the last ten is a sum or recursive, so that the form of
// the term alone is none of the first version.
const SECOND_TERMS: [&str; 16] = [
    "(inj a 1 (sum (a int)))",
    "(inj .val true (sum (.val bool) (%0 text)))",
    "(roll 1 (mu int))",
    "(unroll (roll 1 (mu int)))",
    "(fn (sum) (case x0 int))",
    "(case (unroll (roll (inj b 2 (sum (a int) (b int))) (mu (sum (a int) (b int))))) int (a x0) (b (+ x0 1)))",
    "(inj a 0 int)",
    "(case 0 int)",
    "(case 0 int (a x0))",
    "(case 0 int (.val 1) (%0 2) (A x0) (_ x0) (a' (fn int x1)) (b 3))",
    "(case (case 0 int (a x0)) text (a (case x0 text (b x1) (c x0))))",
    "(tfn * (fn a0 (case x0 (all * a1) (a x1) (b (tfn * (fn a1 x2))))))",
    "(roll 0 int)",
    "(unroll 0)",
    "(tfn * (fn a0 (roll (inj a x0 a0) a0)))",
    "(rec (a (unroll 0)) (case' (roll 0 int)))",
];

#[test]
fn each_form_is_read(rt: HostRuntime) -> Result<(), Fail> {
    for ty in &TYPES {
        let text = whole(rt.alloc(), ty, "0")?;
        assert!(rt; read(rt.alloc(), text.as_bytes()).is_ok(), "at {ty}");
        let first = first_version(rt.alloc(), ty, "0")?;
        assert!(rt; read(rt.alloc(), first.as_bytes()).is_ok(), "at {ty}");
    }
    for term in &TERMS {
        let text = whole(rt.alloc(), "int", term)?;
        assert!(rt; read(rt.alloc(), text.as_bytes()).is_ok(), "at {term}");
        let first = first_version(rt.alloc(), "int", term)?;
        assert!(rt; read(rt.alloc(), first.as_bytes()).is_ok(), "at {term}");
    }
    Ok(())
}

// The lines are a text in the second version, and none in the first.
fn is_second(rt: &impl Abort, alloc: Global, ty: &str, term: &str) -> Result<(), Fail> {
    let text = whole(alloc, ty, term)?;
    assert!(rt; read(alloc, text.as_bytes()).is_ok(), "at {text}");
    let first = first_version(alloc, ty, term)?;
    assert_eq!(rt;
        read(alloc, first.as_bytes()).err(),
        Some(ReadRefusal::NotOmega),
        "at {text}"
    );
    Ok(())
}

#[test]
fn types_of_the_second_version(rt: HostRuntime) -> Result<(), Fail> {
    for ty in &SECOND_TYPES {
        is_second(&rt, rt.alloc(), ty, "0")?;
        let term = format!(in rt.alloc(); "(fn {ty} x0)")?;
        is_second(&rt, rt.alloc(), "int", &term)?;
    }
    Ok(())
}

#[test]
fn terms_of_the_second_version(rt: HostRuntime) -> Result<(), Fail> {
    for text in &SECOND_TERMS {
        is_second(&rt, rt.alloc(), "int", text)?;
    }
    Ok(())
}

// The index that a branch of a case is, where it is a variable.
fn branch_index(term: &Term, at: usize) -> Option<u64> {
    let TermNode::Case(_, _, branches) = term.node() else {
        return None;
    };
    let branch = branches.items().get(at)?;
    match branch.1.node() {
        TermNode::Var(index) => Some(*index),
        _ => None,
    }
}

// The variable that a branch binds is the last in scope there, and none in the term before the branches.
#[test]
fn a_branch_binds_one_variable(rt: HostRuntime) -> Result<(), Fail> {
    let outer = term(rt.alloc(), "(fn int (case x0 int (a x1) (b x0)))")?;
    let below = below_functions(1, &outer);
    assert_eq!(rt; branch_index(below, 0), Some(0));
    assert_eq!(rt; branch_index(below, 1), Some(1));
    assert_eq!(rt; branch_index(below, 2), None);
    let TermNode::Case(whole, _, _) = below.node() else {
        return Err("no case")?;
    };
    assert!(rt; matches!(whole.node(), TermNode::Var(0)));
    Ok(())
}

const REFUSED: [(&str, ReadRefusal); 44] = [
    ("omega 7\n", ReadRefusal::Version),
    ("omega 3\n(sum)\n0\n", ReadRefusal::Version),
    ("omega 12\nint\n0\n", ReadRefusal::Version),
    ("omega 02\nint\n0\n", ReadRefusal::Version),
    ("omega 01\n9223372036854775808\n", ReadRefusal::Version),
    (
        "omega 1\n(rec (x (rec (.val int))))\n(call (fn (rec (.val int)) (rec (x x1))) (rec (.val (+ 1 2))))\n",
        ReadRefusal::NotOmega,
    ),
    (
        "omega 1\n(rec (x (rec (.val int))))\n(call (fn (rec (.val int)) (rec (x x0))) (rec (.val (+ 9223372036854775808 2))))\n",
        ReadRefusal::Wide,
    ),
    ("omega 1\nint\n-9223372036854775809\n", ReadRefusal::Wide),
    ("omega 1\nint\n9223372036854775808", ReadRefusal::NotOmega),
    ("omega 1\nint\n-0\n", ReadRefusal::NotOmega),
    ("omega 1\n(rec (y int) (x int))\n0\n", ReadRefusal::NotOmega),
    ("omega 1\n(rec (val int))\n0\n", ReadRefusal::NotOmega),
    ("omega 2\n(sum (b int) (a int))\n0\n", ReadRefusal::NotOmega),
    ("omega 2\n(sum (a int) (a int))\n0\n", ReadRefusal::NotOmega),
    ("omega 2\n(sum )\n0\n", ReadRefusal::NotOmega),
    ("omega 2\n(sum int)\n0\n", ReadRefusal::NotOmega),
    ("omega 2\n(mu a1)\n0\n", ReadRefusal::NotOmega),
    ("omega 2\n(-> (mu a0) a0)\n0\n", ReadRefusal::NotOmega),
    ("omega 2\n(mu * a0)\n0\n", ReadRefusal::NotOmega),
    ("omega 2\n(mu)\n0\n", ReadRefusal::NotOmega),
    (
        "omega 1\n(sum)\n9223372036854775808\n",
        ReadRefusal::NotOmega,
    ),
    ("omega 2\n(sum)\n9223372036854775808\n", ReadRefusal::Wide),
    (
        "omega 2\nint\n(case 0 int (b 1) (a 2))\n",
        ReadRefusal::NotOmega,
    ),
    (
        "omega 2\nint\n(case 0 int (a 1) (a 2))\n",
        ReadRefusal::NotOmega,
    ),
    (
        "omega 2\nint\n(case 0 int (a 1) (.val 2))\n",
        ReadRefusal::NotOmega,
    ),
    ("omega 2\nint\n(case 0 int (a x1))\n", ReadRefusal::NotOmega),
    ("omega 2\nint\n(case x0 int (a 1))\n", ReadRefusal::NotOmega),
    (
        "omega 2\nint\n(+ (case 0 int (a x0)) x0)\n",
        ReadRefusal::NotOmega,
    ),
    ("omega 2\nint\n(case 0 int (a a0))\n", ReadRefusal::NotOmega),
    ("omega 2\nint\n(case 0 int (of 1))\n", ReadRefusal::NotOmega),
    ("omega 2\nint\n(case 0 int )\n", ReadRefusal::NotOmega),
    ("omega 2\nint\n(case 0 (a 1))\n", ReadRefusal::NotOmega),
    ("omega 2\nint\n(case)\n", ReadRefusal::NotOmega),
    ("omega 2\nint\n(inj 0 a int)\n", ReadRefusal::NotOmega),
    ("omega 2\nint\n(inj val 0 int)\n", ReadRefusal::NotOmega),
    ("omega 2\nint\n(inj a 0)\n", ReadRefusal::NotOmega),
    ("omega 2\nint\n(roll 0)\n", ReadRefusal::NotOmega),
    ("omega 2\nint\n(roll 0 a0)\n", ReadRefusal::NotOmega),
    ("omega 2\nint\n(unroll 0 int)\n", ReadRefusal::NotOmega),
    ("omega 2\nint\n(unroll)\n", ReadRefusal::NotOmega),
    (
        "omega 1\nint\n(inj a 9223372036854775808 int)\n",
        ReadRefusal::NotOmega,
    ),
    (
        "omega 2\nint\n(inj a 9223372036854775808 int)\n",
        ReadRefusal::Wide,
    ),
    (
        "omega 2\nint\n(case 0 int (a -9223372036854775809))\n",
        ReadRefusal::Wide,
    ),
    (
        "omega 2\nint\n(case 0 int (b 9223372036854775808) (a 1))\n",
        ReadRefusal::NotOmega,
    ),
];

const WHOLE: [&[u8]; 3] = [
    b"omega 1\n(rec (x (rec (.val int))))\n(call (fn (rec (.val int)) (rec (x x0))) (rec (.val (+ 1 2))))\n",
    b"omega 2\n(mu (sum (a a0) (b int)))\n(fn (sum (a (mu a0)) (b int)) x0)\n",
    b"omega 2\nint\n(case (unroll (roll (inj b 1 (sum (a int) (b int))) (mu (sum (a int) (b int))))) int (a x0) (b 2))\n",
];

#[test]
fn other_bytes_are_refused(rt: HostRuntime) -> Result<(), Fail> {
    for (text, refusal) in &REFUSED {
        assert_eq!(rt;
            read(rt.alloc(), text.as_bytes()).err(),
            Some(*refusal),
            "at {text}"
        );
    }
    for text in &WHOLE {
        for n in 0..text.len() {
            assert_eq!(rt;
                read(rt.alloc(), &text[..n]).err(),
                Some(ReadRefusal::NotOmega),
                "at {n}"
            );
        }
        assert!(rt; read(rt.alloc(), text).is_ok());
    }
    Ok(())
}

// Why 2,000 records inside one another, with so many projections, are refused.
fn refusal_of(alloc: Global, projections: usize) -> Result<Option<ReadRefusal>, Fail> {
    let ty = nested(alloc, 2000, "(rec (x ", "int", "))")?;
    let term = nested(alloc, projections, "(get ", "0", " x)")?;
    let text = whole(alloc, &ty, &term)?;
    Ok(read(alloc, text.as_bytes()).err())
}

// Why a recursive type, so many times in itself, is refused.
fn refusal_of_recursive(alloc: Global, levels: usize) -> Result<Option<ReadRefusal>, Fail> {
    let ty = nested(alloc, levels, "(mu ", "a0", ")")?;
    let text = whole(alloc, &ty, "0")?;
    Ok(read(alloc, text.as_bytes()).err())
}

// Why so many terms of a form inside one another are refused.
fn refusal_of_terms(
    alloc: Global,
    levels: usize,
    front: &str,
    end: &str,
) -> Result<Option<ReadRefusal>, Fail> {
    let term = nested(alloc, levels, front, "0", end)?;
    let text = whole(alloc, "int", &term)?;
    Ok(read(alloc, text.as_bytes()).err())
}

// The begin and the end of each form of a term of the second version, with one part, and how many of them open 4,000 parentheses.
const DEEP_TERMS: [(&str, &str, usize); 5] = [
    ("(inj a ", " int)", 4000),
    ("(roll ", " int)", 4000),
    ("(unroll ", ")", 4000),
    ("(case ", " int)", 4000),
    ("(case 0 int (a ", "))", 2000),
];

#[test]
fn terms_of_the_second_version_are_read_up_to_4000_parentheses(
    rt: HostRuntime,
) -> Result<(), Fail> {
    for (front, end, levels) in &DEEP_TERMS {
        assert_eq!(rt;
            refusal_of_terms(rt.alloc(), *levels, front, end)?,
            None,
            "at {front}"
        );
        assert_eq!(rt;
            refusal_of_terms(rt.alloc(), levels.saturating_add(1), front, end)?,
            Some(ReadRefusal::TooDeep),
            "at {front}"
        );
    }
    Ok(())
}

#[test]
fn recursive_types_are_read_up_to_4000_parentheses(rt: HostRuntime) -> Result<(), Fail> {
    assert_eq!(rt; refusal_of_recursive(rt.alloc(), 4000)?, None);
    assert_eq!(rt;
        refusal_of_recursive(rt.alloc(), 4001)?,
        Some(ReadRefusal::TooDeep)
    );
    Ok(())
}

#[test]
fn texts_are_read_up_to_4000_parentheses(rt: HostRuntime) -> Result<(), Fail> {
    assert_eq!(rt; refusal_of(rt.alloc(), 4000)?, None);
    assert_eq!(rt; refusal_of(rt.alloc(), 4001)?, Some(ReadRefusal::TooDeep));
    let text = format!(in rt.alloc(); "omega 1\n{}\n\n", "(".repeat(rt.alloc(), 4001)?)?;
    assert_eq!(rt;
        read(rt.alloc(), text.as_bytes()).err(),
        Some(ReadRefusal::TooDeep)
    );
    Ok(())
}
