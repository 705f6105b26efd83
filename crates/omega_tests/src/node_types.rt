// The types of a checked term's nodes, which its store has. Such a type is put there without a new number.
use crate::texts::{below_somes, term, ty};
use omega_checker::check;
use omega_kinds::Kind;
use omega_types::Ty;
use std::alloc::Global;
use std::test::Fail;
use type_normal::normal;

// A term, its type, another type, and whether the store of the term's types has it. Each term is in a row with `true`.
const ROWS: [(&str, &str, &str, bool); 18] = [
    // a function and its body
    ("(fn int x0)", "(-> int int)", "(-> int int)", true),
    ("(fn int x0)", "(-> int int)", "int", true),
    ("(fn int x0)", "(-> int int)", "(-> int bool)", false),
    // the function of a let, also where its argument's type computes
    ("(call (fn int x0) 1)", "int", "(-> int int)", true),
    ("(call (fn int x0) 1)", "int", "(-> bool int)", false),
    (
        "(call (fn (@ (lam * a0) int) x0) 1)",
        "int",
        "(-> int int)",
        true,
    ),
    // a package inside, and what is packed
    (
        "(call (fn (some * a0) 1) (pack bool true (some * a0)))",
        "int",
        "(some * a0)",
        true,
    ),
    (
        "(call (fn (some * a0) 1) (pack bool true (some * a0)))",
        "int",
        "bool",
        true,
    ),
    (
        "(open (pack bool true (some * a0)) 1)",
        "int",
        "(some * a0)",
        true,
    ),
    // a record of which one field is taken
    ("(get (rec (a 1) (b true)) a)", "int", "bool", true),
    (
        "(get (rec (a 1) (b true)) a)",
        "int",
        "(rec (a int) (b bool))",
        true,
    ),
    (
        "(get (rec (a 1) (b true)) a)",
        "int",
        "(rec (a int))",
        false,
    ),
    // a function from types that is used at one
    (
        "(inst (tfn * (fn a0 x0)) int)",
        "(-> int int)",
        "(all * (-> a0 a0))",
        true,
    ),
    // sums and recursive types
    (
        "(inj a 1 (@ (lam * (sum (a a0))) int))",
        "(sum (a int))",
        "(sum (a int))",
        true,
    ),
    (
        "(case (inj a 1 (sum (a int) (b bool))) int (a x0) (b 2))",
        "int",
        "(sum (a int) (b bool))",
        true,
    ),
    ("(unroll (roll 1 (mu int)))", "int", "(mu int)", true),
    ("(unroll (roll 1 (mu int)))", "int", "int", true),
    ("(unroll (roll 1 (mu int)))", "int", "(mu a0)", false),
];

// Whether the store of a term's types has the normal form of a type, whose type variables have these kinds. It has none
// where the term has not the type.
fn has(alloc: Global, given: &str, own: &str, ctx: &[Kind], node: &Ty) -> Result<bool, Fail> {
    let Some(checked) = check(alloc, term(alloc, given)?, ty(alloc, own)?)? else {
        return Ok(false);
    };
    let mut store = checked.into_store();
    let before = store.len();
    let _number = store.put(&normal(alloc, ctx, node, &Kind::Star)?)?;
    Ok(store.len() == before)
}

#[test]
fn types_of_nodes(rt: HostRuntime) -> Result<(), Fail> {
    for (given, own, node, is_there) in &ROWS {
        let node = ty(rt.alloc(), node)?;
        assert_eq!(rt;
            has(rt.alloc(), given, own, &[], &node)?,
            *is_there,
            "at {given}"
        );
    }
    Ok(())
}

// A type below a binder of a type variable, in the node's own context: the function and its argument, and no function
// from functions.
const BELOW: [(&str, bool); 3] = [
    ("(some * (-> a0 a0))", true),
    ("(some * a0)", true),
    ("(some * (-> (-> a0 a0) a0))", false),
];

#[test]
fn types_below_a_type_variable(rt: HostRuntime) -> Result<(), Fail> {
    for (text, is_there) in &BELOW {
        let whole = ty(rt.alloc(), text)?;
        let node = below_somes(&whole);
        let found = has(
            rt.alloc(),
            "(tfn * (fn a0 x0))",
            "(all * (-> a0 a0))",
            &[Kind::Star],
            node,
        )?;
        assert_eq!(rt; found, *is_there, "at {text}");
    }
    Ok(())
}
