// Small types and terms, each with the least number of variables in scope that it needs.
use crate::texts::{below_functions, below_somes, term, ty};
use omega_scopes::{term_in_scope, ty_in_scope};
use omega_terms::Term;
use omega_types::Ty;
use std::test::Fail;

// Whether the type needs exactly so many variables.
fn needs(types: u64, ty: &Ty) -> bool {
    ty_in_scope(types, ty) && (types == 0 || !ty_in_scope(types - 1, ty))
}

// Whether the term needs exactly so many type variables and so many term variables.
fn needs_both(types: u64, terms: u64, term: &Term) -> bool {
    term_in_scope(types, terms, term)
        && (types == 0 || !term_in_scope(types - 1, terms, term))
        && (terms == 0 || !term_in_scope(types, terms - 1, term))
}

// How many variables the type below the binders `some` needs.
const TYPES: [(u64, &str); 5] = [
    (3, "(some * (some * (some * a0)))"),
    (2, "(some * (some * (all * a0)))"),
    (4, "(some * (some * (some * (some * (rec (.val a0))))))"),
    (0, "int"),
    (0, "(all * a0)"),
];

#[test]
fn types_need_their_variables(rt: HostRuntime) -> Result<(), Fail> {
    for (types, text) in &TYPES {
        let whole = ty(rt.alloc(), text)?;
        assert!(rt; needs(*types, below_somes(&whole)), "at {text}");
    }
    Ok(())
}

#[test]
fn no_more_than_the_last_number_below_a_binder(rt: HostRuntime) -> Result<(), Fail> {
    let ty = ty(rt.alloc(), "(all * a0)")?;
    assert!(rt; ty_in_scope(u64::MAX - 1, &ty));
    assert!(rt; !ty_in_scope(u64::MAX, &ty));
    Ok(())
}

// How many variables of each sort the term below as many binders needs.
const TERMS: [(u64, u64, &str); 14] = [
    (0, 3, "(fn int (fn int (fn int x0)))"),
    (0, 1, "(fn int (fn int x0))"),
    (0, 1, "(fn int (fix int int x0))"),
    (0, 2, "(fn int (fn int (rec (.val x0))))"),
    (1, 1, "(tfn * (fn int (tfn * (inst x0 (all * a0)))))"),
    (0, 2, "(fn int (fn int (open x0 x0)))"),
    (0, 1, "(fn int (open x0 x1))"),
    (1, 0, "(tfn * (inj a 0 a0))"),
    (0, 1, "(fn int (case x0 int))"),
    (0, 0, "(case 0 int (a x0) (b x0))"),
    (0, 2, "(fn int (fn int (case 0 int (a x2) (b x0))))"),
    (1, 1, "(tfn * (fn int (case x0 a0 (a x1))))"),
    (1, 0, "(tfn * (roll 0 (mu a0)))"),
    (0, 1, "(fn int (unroll x0))"),
];

#[test]
fn terms_need_their_variables(rt: HostRuntime) -> Result<(), Fail> {
    for (types, terms, text) in &TERMS {
        let whole = term(rt.alloc(), text)?;
        let below = below_functions(types.saturating_add(*terms), &whole);
        assert!(rt; needs_both(*types, *terms, below), "at {text}");
    }
    Ok(())
}

#[test]
fn no_more_than_the_last_number_in_a_branch(rt: HostRuntime) -> Result<(), Fail> {
    let term = term(rt.alloc(), "(case 0 int (a x0))")?;
    assert!(rt; term_in_scope(0, u64::MAX - 1, &term));
    assert!(rt; !term_in_scope(0, u64::MAX, &term));
    Ok(())
}
