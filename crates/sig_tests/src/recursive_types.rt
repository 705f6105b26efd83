// Recursive types, rolled values and unrolled ones: types and terms by hand from the rules.
use crate::literals::KindLit::{self, Op, Star};
use crate::literals::kind;
use crate::term_texts::{exp, has_text, type_has_text, values};
use data_types::{DataRefusal, mu_ty, roll_exp, unroll_exp};
use omega_kinds::Kind;
use omega_types::{Ty, TyNode};
use semantic_sigs::{Kinded, Typed};
use std::alloc::Global;
use std::test::Fail;
use type_normal::{as_normal, plain};

// functions from themselves to numbers, and what the type unfolds to
const SELF: &str = "(mu (-> a0 int))";

const UNFOLDED: &str = "(-> (mu (-> a0 int)) int)";

// Kinds of the body that is type variable 0, and the recursive type, or the refusal's word.
const MADE: [(KindLit, &str); 2] = [(Star, "(mu a0)"), (Op, "KindDiffer")];

// the value of type variable 0, of the kind
fn own(alloc: Global, literal: KindLit) -> Result<Kinded, Fail> {
    let kind = kind(alloc, literal)?;
    Ok(Kinded {
        ty: as_normal(Ty::make(alloc, TyNode::Var(0))?),
        kind,
    })
}

fn tells_type(alloc: Global, made: &Result<Kinded, DataRefusal>, text: &str) -> Result<bool, Fail> {
    match made {
        Ok(made) => type_has_text(alloc, plain(&made.ty), text),
        Err(DataRefusal::KindDiffer(_, Kind::Star)) => Ok(text == "KindDiffer"),
        Err(_) => Ok(false),
    }
}

fn is_made(alloc: Global, literal: KindLit, text: &str) -> Result<bool, Fail> {
    let made = mu_ty(alloc, &own(alloc, literal)?);
    tells_type(alloc, &made, text)
}

#[test]
fn recursive_types(rt: HostRuntime) -> Result<(), Fail> {
    for (literal, text) in &MADE {
        assert!(rt; is_made(rt.alloc(), *literal, text)?, "at {text}");
    }
    Ok(())
}

// Whether this is the term and the type, or the refusal's word and the type that is no recursive one, or that was needed.
fn tells(
    alloc: Global,
    made: &Result<Typed, DataRefusal>,
    text: &str,
    ty: &str,
) -> Result<bool, Fail> {
    match made {
        Ok(made) => {
            Ok(has_text(alloc, &made.term, text)? && type_has_text(alloc, plain(&made.ty), ty)?)
        }
        Err(DataRefusal::NotData(found)) => {
            Ok(text == "NotData" && type_has_text(alloc, plain(found), ty)?)
        }
        Err(DataRefusal::Differ(_, needed)) => {
            Ok(text == "Differ" && type_has_text(alloc, plain(needed), ty)?)
        }
        Err(_) => Ok(false),
    }
}

// Types of values, the types that they are rolled to, and what that tells.
const ROLLED: [(&str, &str, &str, &str); 3] = [
    (UNFOLDED, SELF, "(roll 0 (mu (-> a0 int)))", SELF),
    (SELF, SELF, "Differ", UNFOLDED),
    ("int", "int", "NotData", "int"),
];

fn is_rolled(alloc: Global, value: &str, target: &str, text: &str, ty: &str) -> Result<bool, Fail> {
    let value = exp(alloc, value, "0")?;
    let made = roll_exp(alloc, value, &values(alloc, target)?);
    tells(alloc, &made, text, ty)
}

#[test]
fn rolled(rt: HostRuntime) -> Result<(), Fail> {
    for (value, target, text, ty) in &ROLLED {
        assert!(rt;
            is_rolled(rt.alloc(), value, target, text, ty)?,
            "at {text}"
        );
    }
    Ok(())
}

// Types of what is unrolled, and what that tells.
const UNROLLED: [(&str, &str, &str); 2] = [
    (SELF, "(unroll 0)", UNFOLDED),
    ("int", "NotData", "int"),
];

fn is_unrolled(alloc: Global, whole: &str, text: &str, ty: &str) -> Result<bool, Fail> {
    let made = unroll_exp(alloc, exp(alloc, whole, "0")?);
    tells(alloc, &made, text, ty)
}

#[test]
fn unrolled(rt: HostRuntime) -> Result<(), Fail> {
    for (whole, text, ty) in &UNROLLED {
        assert!(rt; is_unrolled(rt.alloc(), whole, text, ty)?, "at {text}");
    }
    Ok(())
}
