// Small signatures and refusals, in scope and not.
use crate::literals::KindLit::Star;
use crate::literals::SigLit::{Fun, Str, Typ};
use crate::literals::TyLit::Var;
use crate::literals::{ClashLit, Ex, WhyLit, abs, why};
use fing_refusals::Refusal;
use fing_text::Span;
use omega_kinds::Effect::Pure;
use sig_scopes::{abs_in_scope, refusal_in_scope};
use std::test::Fail;

// Abstract signatures, and whether each is in scope with so many type variables.
const SIGNATURES: [(u64, Ex<'static>, bool); 8] = [
    (0, Ex(&[Star], Str(&[("t", Typ(Var(0)))])), true),
    (0, Ex(&[Star], Str(&[("t", Typ(Var(1)))])), false),
    (1, Ex(&[Star], Str(&[("t", Typ(Var(1)))])), true),
    // functors over one type
    (
        0,
        Ex(
            &[],
            Fun(
                Pure,
                &[Star],
                &Typ(Var(0)),
                &Ex(&[Star], Str(&[("t", Typ(Var(1)))])),
            ),
        ),
        true,
    ),
    (
        0,
        Ex(
            &[],
            Fun(
                Pure,
                &[Star],
                &Typ(Var(1)),
                &Ex(&[Star], Str(&[("t", Typ(Var(1)))])),
            ),
        ),
        false,
    ),
    (
        0,
        Ex(
            &[],
            Fun(
                Pure,
                &[Star],
                &Typ(Var(0)),
                &Ex(&[Star], Str(&[("t", Typ(Var(2)))])),
            ),
        ),
        false,
    ),
    // no more than the last number below binders
    (u64::MAX - 1, Ex(&[Star], Str(&[("t", Typ(Var(0)))])), true),
    (u64::MAX, Ex(&[Star], Str(&[("t", Typ(Var(0)))])), false),
];

#[test]
fn signatures(rt: HostRuntime) -> Result<(), Fail> {
    for (row, (types, literal, is_within)) in SIGNATURES.iter().enumerate() {
        let found = abs(rt.alloc(), literal)?;
        assert_eq!(rt; abs_in_scope(*types, &found), *is_within, "at {row}");
    }
    Ok(())
}

// Reasons of refusals, and whether each is in scope with so many type variables.
const REASONS: [(u64, WhyLit<'static>, bool); 6] = [
    (1, WhyLit::NotArrow(Var(0)), true),
    (1, WhyLit::NotAll(Var(1)), false),
    (3, WhyLit::Clash(&[], ClashLit::Types(Var(1), Var(2))), true),
    (
        2,
        WhyLit::Clash(&[], ClashLit::Types(Var(1), Var(2))),
        false,
    ),
    (0, WhyLit::Escapes, true),
    (0, WhyLit::Mem, false),
];

#[test]
fn refusals(rt: HostRuntime) -> Result<(), Fail> {
    for (row, (types, literal, is_within)) in REASONS.iter().enumerate() {
        let refusal = Refusal {
            at: Span { from: 8, to: 57 },
            types: *types,
            why: why(rt.alloc(), literal)?,
        };
        assert_eq!(rt; refusal_in_scope(&refusal), *is_within, "at {row}");
    }
    Ok(())
}
