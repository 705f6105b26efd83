// Normal forms, kinds and substitutions of types that are written beside them, and of deep types. A text with binders
// `some` outermost stands for the type below them, and the first of them gives the variable its kind.
use crate::texts::{below_somes, nested, ty};
use omega_kinds::{Kind, Mem};
use omega_types::{Ty, TyNode, kind_of, substitute};
use std::alloc::Global;
use std::test::Fail;
use type_normal::{NormalTy, as_normal, hsubst, lower, mentions, normal, raise, same};

// What is made of a type: its normal form, or a type with another one in place of its variable, hereditarily or not, or
// with its variables raised or lowered.
#[derive(Clone, Copy)]
enum Change {
    Normal,
    Filled(&'static str),
    Replaced(&'static str),
    Raised(u64),
    Lowered(u64),
}

// The type below the binders.
fn open(ty: &Ty) -> Result<NormalTy, Mem> {
    Ok(as_normal(below_somes(ty).share()?))
}

fn normal_of(alloc: Global, ty: &Ty) -> Result<NormalTy, Mem> {
    match ty.node() {
        TyNode::Ex(kind, body) => normal(alloc, &[kind.share()?], body, kind),
        _ => normal(alloc, &[], ty, &Kind::Star),
    }
}

fn filled(alloc: Global, ty: &Ty, arg: &NormalTy) -> Result<NormalTy, Mem> {
    match ty.node() {
        TyNode::Ex(kind, _) => hsubst(alloc, &open(ty)?, 0, arg, kind),
        _ => open(ty),
    }
}

fn changed(alloc: Global, whole: &Ty, change: Change) -> Result<NormalTy, Fail> {
    match change {
        Change::Normal => Ok(normal_of(alloc, whole)?),
        Change::Filled(arg) => Ok(filled(alloc, whole, &as_normal(ty(alloc, arg)?))?),
        Change::Replaced(arg) => Ok(as_normal(substitute(
            alloc,
            below_somes(whole),
            0,
            &ty(alloc, arg)?,
        )?)),
        Change::Raised(by) => Ok(raise(alloc, &open(whole)?, by, 0)?),
        Change::Lowered(by) => Ok(lower(alloc, &open(whole)?, by)?),
    }
}

// Whether the change makes the one type of the other.
fn makes(alloc: Global, given: &str, change: Change, expected: &str) -> Result<bool, Fail> {
    let found = changed(alloc, &ty(alloc, given)?, change)?;
    Ok(same(&found, &open(&ty(alloc, expected)?)?))
}

const CHANGES: [(&str, Change, &str); 8] = [
    ("(@ (lam * (-> a0 a0)) int)", Change::Normal, "(-> int int)"),
    (
        "(some (> * *) a0)",
        Change::Normal,
        "(some (> * *) (lam * (@ a0 a1)))",
    ),
    ("(some * (@ (lam * int) a0))", Change::Normal, "int"),
    (
        "(some (> * *) (@ a0 int))",
        Change::Filled("(lam * a0)"),
        "int",
    ),
    (
        "(some (> * *) (@ a0 int))",
        Change::Replaced("(lam * a0)"),
        "(@ (lam * a0) int)",
    ),
    ("int", Change::Lowered(1), "int"),
    (
        "(some * (rec (.val int) (.typ a0)))",
        Change::Raised(2),
        "(some * (some * (some * (rec (.val int) (.typ a0)))))",
    ),
    (
        "(some * (some * (some * (rec (.val int) (.typ a0)))))",
        Change::Lowered(2),
        "(some * (rec (.val int) (.typ a0)))",
    ),
];

#[test]
fn changes(rt: HostRuntime) -> Result<(), Fail> {
    for (given, change, expected) in &CHANGES {
        assert!(rt; makes(rt.alloc(), given, *change, expected)?, "at {given}");
    }
    Ok(())
}

// Whether the type mentions the variable of this index.
const MENTIONS: [(&str, u64, bool); 3] = [
    ("(some * (@ (lam * int) a0))", 0, true),
    ("int", 0, false),
    (
        "(some * (some * (some * (rec (.val int) (.typ a0)))))",
        2,
        true,
    ),
];

#[test]
fn variables_are_mentioned(rt: HostRuntime) -> Result<(), Fail> {
    for (text, index, is_there) in &MENTIONS {
        let found = open(&ty(rt.alloc(), text)?)?;
        assert_eq!(rt; mentions(&found, *index), *is_there, "at {text}");
    }
    Ok(())
}

// Whether the type has kind `*`.
const KINDS: [(&str, bool); 2] = [
    ("(@ int int)", false),
    ("(some * (rec (.val int) (.typ a0)))", true),
];

fn has_kind_star(alloc: Global, text: &str) -> Result<bool, Fail> {
    let whole = ty(alloc, text)?;
    let kind = match whole.node() {
        TyNode::Ex(kind, body) => kind_of(alloc, &[kind.share()?], body)?,
        _ => kind_of(alloc, &[], &whole)?,
    };
    Ok(matches!(kind, Some(Kind::Star)))
}

#[test]
fn kinds(rt: HostRuntime) -> Result<(), Fail> {
    for (text, is_star) in &KINDS {
        assert_eq!(rt; has_kind_star(rt.alloc(), text)?, *is_star, "at {text}");
    }
    Ok(())
}

// The inner type below 3,990 binders `all`, and they between a front and an end.
fn deep(alloc: Global, front: &str, inner: &str, end: &str) -> Result<String, Fail> {
    let binders = nested(alloc, 3990, "(all * ", inner, ")")?;
    Ok(format!(in alloc; "{front}{binders}{end}")?)
}

// What becomes of the variable that is bound outside.
const DEEP: [(Change, &str, &str, &str); 3] = [
    (Change::Normal, "(some * ", "a0", ")"),
    (Change::Filled("int"), "", "int", ""),
    (Change::Raised(1), "(some * (some * ", "a0", "))"),
];

#[test]
fn deep_types(rt: HostRuntime) -> Result<(), Fail> {
    let given = deep(rt.alloc(), "(some * ", "a0", ")")?;
    assert!(rt; has_kind_star(rt.alloc(), &given)?);
    for (change, front, inner, end) in &DEEP {
        let expected = deep(rt.alloc(), front, inner, end)?;
        assert!(rt;
            makes(rt.alloc(), &given, *change, &expected)?,
            "at {inner}"
        );
    }
    Ok(())
}
