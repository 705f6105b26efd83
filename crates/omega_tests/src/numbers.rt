// One number for each type.
use crate::texts::ty;
use omega_kinds::Kind;
use std::alloc::Global;
use std::test::Fail;
use type_normal::normal;
use type_store::Store;

// Two types that are put into one store, whether they have one number, and how many types the store has then: these two
// and their parts.
const PAIRS: [(&str, &str, bool, usize); 6] = [
    // a type, and one that computes to it
    ("(-> int int)", "(@ (lam * (-> a0 a0)) int)", true, 2),
    ("int", "bool", false, 2),
    ("(all * a0)", "(all * a0)", true, 2),
    // types that differ in a kind
    ("(all * int)", "(all (> * *) int)", false, 3),
    // a sum is no record
    ("(rec (a int))", "(sum (a int))", false, 3),
    // a type that is a part of the other
    ("(-> int int)", "(-> (-> int int) bool)", false, 4),
];

// The number of the normal form of the type of this text.
fn number(alloc: Global, store: &mut Store, text: &str) -> Result<u64, Fail> {
    let given = ty(alloc, text)?;
    let found = normal(alloc, &[], &given, &Kind::Star)?;
    Ok(store.put(&found)?)
}

#[test]
fn pairs_of_types(rt: HostRuntime) -> Result<(), Fail> {
    for (left, right, is_one, length) in &PAIRS {
        let mut store = Store::new(rt.alloc());
        let first = number(rt.alloc(), &mut store, left)?;
        let second = number(rt.alloc(), &mut store, right)?;
        assert_eq!(rt; first == second, *is_one, "at {left} and {right}");
        assert_eq!(rt; store.len(), *length, "at {left} and {right}");
    }
    Ok(())
}
