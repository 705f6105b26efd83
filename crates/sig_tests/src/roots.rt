// Root paths of worked signatures.
use crate::literals::KindLit::{Op, Star};
use crate::literals::SigLit::{Fun, Str, Typ};
use crate::literals::TyLit::{Apply, Closed, Var};
use crate::literals::{Ex, abs};
use omega_kinds::Effect::Pure;
use semantic_sigs::{Item, Path};
use sig_roots::roots;
use std::test::Fail;

fn goes(item: &Item, step: u8) -> bool {
    match item {
        Item::Part(name) => matches!(name.bytes(), [only] if *only == step),
        Item::Res => step == b'-',
        Item::Arg | Item::Meta => false,
    }
}

// Whether a path goes through these fields, `-` standing for a functor's result.
fn leads(path: &Path, steps: &[u8]) -> bool {
    path.items().len() == steps.len()
        && path
            .items()
            .iter()
            .zip(steps)
            .all(|(item, step)| goes(item, *step))
}

// Whether the path is the one that is expected, or neither is there.
fn is(found: &Option<Path>, expected: &Option<&[u8]>) -> bool {
    match (found, expected) {
        (Some(path), Some(steps)) => leads(path, steps),
        (None, None) => true,
        _ => false,
    }
}

fn are(found: &[Option<Path>], expected: &[Option<&[u8]>]) -> bool {
    found.len() == expected.len()
        && found
            .iter()
            .zip(expected)
            .all(|(one, other)| is(one, other))
}

// Abstract signatures, and the least root paths of the types that they hide.
const ROOTS: [(Ex<'static>, &[Option<&[u8]>]); 4] = [
    // through the result of the functor
    (
        Ex(
            &[Op],
            Str(&[(
                "F",
                Fun(
                    Pure,
                    &[Star],
                    &Str(&[("t", Typ(Var(0)))]),
                    &Ex(&[], Str(&[("v", Typ(Apply(&Var(1), &Var(0))))])),
                ),
            )]),
        ),
        &[Some(b"F-v")],
    ),
    // the functor's parameter bars the type
    (
        Ex(
            &[Star],
            Str(&[(
                "F",
                Fun(
                    Pure,
                    &[],
                    &Str(&[("t", Typ(Var(0)))]),
                    &Ex(&[], Str(&[("v", Typ(Var(0)))])),
                ),
            )]),
        ),
        &[None],
    ),
    // the first type is barred, the second is not
    (
        Ex(
            &[Star, Star],
            Str(&[(
                "F",
                Fun(
                    Pure,
                    &[],
                    &Str(&[("t", Typ(Var(1)))]),
                    &Ex(&[], Str(&[("u", Typ(Var(0))), ("v", Typ(Var(1)))])),
                ),
            )]),
        ),
        &[None, Some(b"F-u")],
    ),
    // no root path
    (Ex(&[Star], Str(&[("t", Typ(Closed("int")))])), &[None]),
];

#[test]
fn least_root_paths(rt: HostRuntime) -> Result<(), Fail> {
    for (row, (literal, expected)) in ROOTS.iter().enumerate() {
        let found = roots(rt.alloc(), &abs(rt.alloc(), literal)?)?;
        assert!(rt; are(&found, expected), "at {row}");
    }
    Ok(())
}
