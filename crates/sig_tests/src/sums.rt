// Sums, injections and cases: types and terms by hand from the rules.
use crate::term_texts::{exp, has_text, normal, type_has_text, values};
use core_rules::{CoreRefusal, case_exp, case_part, inj_exp, is_sum, sum_ty};
use omega_kinds::{Name, name_of};
use omega_terms::{Term, TermNode};
use semantic_sigs::{Kinded, Typed};
use std::alloc::Global;
use std::test::Fail;
use type_normal::{NormalTy, plain};

const OPTION: &str = "(sum (none (rec)) (some int))";

// The name that a refusal tells, behind its word.
fn named<'a>(why: &'a CoreRefusal) -> (&'static str, &'a [u8]) {
    match why {
        CoreRefusal::NoBranch(name) => ("NoBranch", name.bytes()),
        CoreRefusal::NoField(name) => ("NoField", name.bytes()),
        CoreRefusal::DuplicateField(name) => ("DuplicateField", name.bytes()),
        _ => ("", b"".as_slice()),
    }
}

// Whether the refusal has the word, and tells this type or this name: the type that is no sum, or that was found.
fn says(alloc: Global, why: &CoreRefusal, word: &str, of: &str) -> Result<bool, Fail> {
    match why {
        CoreRefusal::NotSum(found) => {
            Ok(word == "NotSum" && type_has_text(alloc, plain(found), of)?)
        }
        CoreRefusal::Differ(found, _) => {
            Ok(word == "Differ" && type_has_text(alloc, plain(found), of)?)
        }
        _ => {
            let (found, name) = named(why);
            Ok(word == found && of.as_bytes() == name)
        }
    }
}

// Whether this is the term and the type, or what the refusal says.
fn tells(
    alloc: Global,
    made: &Result<Typed, CoreRefusal>,
    text: &str,
    of: &str,
) -> Result<bool, Fail> {
    match made {
        Ok(made) => {
            Ok(has_text(alloc, &made.term, text)? && type_has_text(alloc, plain(&made.ty), of)?)
        }
        Err(why) => says(alloc, why, text, of),
    }
}

// A branch: its label, its type, and a number, or `None` for the value that it takes.
type BranchLit<'a> = (&'a str, &'a str, Option<&'a str>);

// Branches of a case on an option, and what the case of them tells.
const CASES: [(&[BranchLit<'static>], &str, &str); 6] = [
    // in the order of labels
    (
        &[("some", "int", None), ("none", "int", Some("7"))],
        "(case 0 int (none 7) (some x0))",
        "int",
    ),
    (&[("none", "int", Some("7"))], "NoBranch", "some"),
    (&[], "NoBranch", "none"),
    // a name again comes before another type
    (
        &[("none", "int", Some("7")), ("none", "bool", Some("true"))],
        "DuplicateField",
        "none",
    ),
    // another label comes before another type
    (&[("other", "bool", Some("true"))], "NoField", "other"),
    (&[("none", "bool", Some("true"))], "Differ", "bool"),
];

// the value that a branch takes
fn taken(alloc: Global, ty: &str) -> Result<Typed, Fail> {
    let ty = normal(alloc, ty)?;
    Ok(Typed {
        ty,
        term: Term::make(alloc, TermNode::Var(0))?,
    })
}

fn body(alloc: Global, literal: &BranchLit<'_>) -> Result<Typed, Fail> {
    match literal.2 {
        Some(text) => exp(alloc, literal.1, text),
        None => taken(alloc, literal.1),
    }
}

fn branch(alloc: Global, literal: &BranchLit<'_>) -> Result<(Name, Typed), Fail> {
    let name = name_of(alloc, literal.0.as_bytes())?;
    Ok((name, body(alloc, literal)?))
}

fn branches(alloc: Global, literals: &[BranchLit<'_>]) -> Result<Vec<(Name, Typed)>, Fail> {
    let mut made = Vec::new(alloc);
    for literal in literals {
        made.push(branch(alloc, literal)?)?;
    }
    Ok(made)
}

// the case of the branches on an option, whose term is 0
fn case_of(
    alloc: Global,
    branches: Vec<(Name, Typed)>,
) -> Result<Result<Typed, CoreRefusal>, Fail> {
    let whole = exp(alloc, OPTION, "0")?;
    let target = values(alloc, "int")?;
    Ok(case_exp(alloc, whole, &target, branches))
}

fn is_case(alloc: Global, literals: &[BranchLit<'_>], text: &str, of: &str) -> Result<bool, Fail> {
    let made = case_of(alloc, branches(alloc, literals)?)?;
    tells(alloc, &made, text, of)
}

#[test]
fn cases(rt: HostRuntime) -> Result<(), Fail> {
    for (literals, text, of) in &CASES {
        assert!(rt; is_case(rt.alloc(), literals, text, of)?, "at {text}");
    }
    Ok(())
}

// Names of two fields, of which the types are these, and the sum type, or the name that is there again.
const SUMS: [([(&str, &str); 2], &str); 3] = [
    ([("some", "int"), ("none", "(rec)")], OPTION),
    ([("a", "int"), ("b", "(rec)")], "(sum (a int) (b (rec)))"),
    ([("a", "int"), ("a", "(rec)")], "a"),
];

fn field(alloc: Global, name: &str, ty: &str) -> Result<(Name, Kinded), Fail> {
    let name = name_of(alloc, name.as_bytes())?;
    Ok((name, values(alloc, ty)?))
}

fn fields(alloc: Global, literals: &[(&str, &str)]) -> Result<Vec<(Name, Kinded)>, Fail> {
    let mut made = Vec::new(alloc);
    for (name, ty) in literals {
        made.push(field(alloc, name, ty)?)?;
    }
    Ok(made)
}

fn tells_sum(alloc: Global, made: &Result<Kinded, CoreRefusal>, text: &str) -> Result<bool, Fail> {
    match made {
        Ok(sum) => type_has_text(alloc, plain(&sum.ty), text),
        Err(why) => says(alloc, why, "DuplicateField", text),
    }
}

fn is_sum_of(alloc: Global, literals: &[(&str, &str)], text: &str) -> Result<bool, Fail> {
    let made = sum_ty(alloc, fields(alloc, literals)?);
    tells_sum(alloc, &made, text)
}

#[test]
fn sum_types(rt: HostRuntime) -> Result<(), Fail> {
    for (literals, text) in &SUMS {
        assert!(rt; is_sum_of(rt.alloc(), literals, text)?, "at {text}");
    }
    Ok(())
}

// A label, the types of a value and of a target, and what the injection tells.
type InjectionLit<'a> = (&'a str, &'a str, &'a str, &'a str, &'a str);

const INJECTIONS: [InjectionLit<'static>; 4] = [
    (
        "some",
        "int",
        OPTION,
        "(inj some 3 (sum (none (rec)) (some int)))",
        OPTION,
    ),
    ("other", "int", OPTION, "NoField", "other"),
    ("none", "int", OPTION, "Differ", "int"),
    ("a", "int", "int", "NotSum", "int"),
];

// the injection of a value whose term is 3
fn injection(
    alloc: Global,
    label: &str,
    ty: &str,
    target: &str,
) -> Result<Result<Typed, CoreRefusal>, Fail> {
    let label = name_of(alloc, label.as_bytes())?;
    let value = exp(alloc, ty, "3")?;
    Ok(inj_exp(alloc, &label, value, &values(alloc, target)?))
}

fn is_injection(alloc: Global, literal: &InjectionLit<'_>) -> Result<bool, Fail> {
    let (label, ty, target, text, of) = literal;
    let made = injection(alloc, label, ty, target)?;
    tells(alloc, &made, text, of)
}

#[test]
fn injections(rt: HostRuntime) -> Result<(), Fail> {
    for literal in &INJECTIONS {
        assert!(rt; is_injection(rt.alloc(), literal)?, "at {}", literal.3);
    }
    Ok(())
}

// Types after `case`, labels of branches, and the type of the value that the branch takes, or what the refusal says.
const PARTS: [(&str, &str, &str, &str); 4] = [
    (OPTION, "none", "", "(rec)"),
    (OPTION, "some", "", "int"),
    (OPTION, "other", "NoField", "other"),
    ("int", "some", "NotSum", "int"),
];

fn part(alloc: Global, ty: &str, label: &str) -> Result<Result<NormalTy, CoreRefusal>, Fail> {
    let label = name_of(alloc, label.as_bytes())?;
    Ok(case_part(&exp(alloc, ty, "0")?, &label))
}

fn tells_part(
    alloc: Global,
    made: &Result<NormalTy, CoreRefusal>,
    word: &str,
    of: &str,
) -> Result<bool, Fail> {
    match made {
        Ok(ty) => type_has_text(alloc, plain(ty), of),
        Err(why) => says(alloc, why, word, of),
    }
}

fn is_part(alloc: Global, ty: &str, label: &str, word: &str, of: &str) -> Result<bool, Fail> {
    let made = part(alloc, ty, label)?;
    tells_part(alloc, &made, word, of)
}

#[test]
fn parts(rt: HostRuntime) -> Result<(), Fail> {
    for (ty, label, word, of) in &PARTS {
        assert!(rt; is_part(rt.alloc(), ty, label, word, of)?, "at {label}");
    }
    Ok(())
}

// Types of what is after `case`, and whether they are sums.
const WHOLES: [(&str, &str); 2] = [(OPTION, "is a sum"), ("int", "NotSum")];

fn verdict(found: &Result<(), CoreRefusal>) -> &'static str {
    match found {
        Ok(()) => "is a sum",
        Err(CoreRefusal::NotSum(_)) => "NotSum",
        Err(_) => "another refusal",
    }
}

fn is_verdict(alloc: Global, ty: &str, expected: &str) -> Result<bool, Fail> {
    let found = is_sum(&exp(alloc, ty, "0")?);
    Ok(verdict(&found) == expected)
}

#[test]
fn what_a_case_is_of(rt: HostRuntime) -> Result<(), Fail> {
    for (ty, expected) in &WHOLES {
        assert!(rt; is_verdict(rt.alloc(), ty, expected)?, "at {ty}");
    }
    Ok(())
}
