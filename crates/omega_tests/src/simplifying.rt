// Terms and their simplified ones, by their texts, and what both come to.
use crate::machine::{Ending, SEALED, is};
use crate::texts::whole;
use fing_text::MemSink;
use omega_checker::check;
use omega_machine::run;
use omega_read::read;
use omega_scopes::{term_in_scope, ty_in_scope};
use omega_simplify::simplify;
use omega_terms::Term;
use omega_types::Ty;
use omega_write::write_omega;
use std::alloc::Global;
use std::test::Fail;

// Terms with calls that go, and what is left of each.
const SIMPLER: [(&str, &str); 25] = [
    // the body is the argument, or the argument's record made anew
    ("(call (fn int x0) 5)", "5"),
    (
        "(call (fn (rec (a int) (b bool)) (rec (a (get x0 a)) (b (get x0 b)))) (rec (a 1) (b true)))",
        "(rec (a 1) (b true))",
    ),
    ("(call (fn (rec) (rec)) (rec))", "(rec)"),
    // a function becomes flat by its own parts, and by a call
    (
        "(call (fn (rec (a int)) (rec (a (call (fn int x1) (get x0 a))))) (rec (a 1)))",
        "(rec (a 1))",
    ),
    ("(call (call (fn (-> int int) x0) (fn int x0)) 3)", "3"),
    // one call in another
    ("(call (fn int x0) (call (fn int x0) 3))", "3"),
    (
        "(call (fn int 7) (call (fn int x0) 1))",
        "(call (fn int 7) 1)",
    ),
    // the parts of each form
    ("(fn int (call (fn int x1) x0))", "(fn int x0)"),
    ("(tfn * (call (fn int x0) 1))", "(tfn * 1)"),
    (
        "(inst (tfn * (call (fn int x0) 1)) int)",
        "(inst (tfn * 1) int)",
    ),
    ("(rec (a (call (fn int x0) 1)) (b 2))", "(rec (a 1) (b 2))"),
    ("(rec (a 1) (b (call (fn int x0) 2)))", "(rec (a 1) (b 2))"),
    (
        "(get (call (fn (rec (a int)) x0) (rec (a 1))) a)",
        "(get (rec (a 1)) a)",
    ),
    (
        "(pack int (call (fn int x0) 1) (some * a0))",
        "(pack int 1 (some * a0))",
    ),
    (
        "(open (call (fn (some * a0) x0) (pack int 1 (some * a0))) (call (fn int x1) 2))",
        "(open (pack int 1 (some * a0)) 2)",
    ),
    (
        "(if (call (fn bool x0) true) (call (fn int x0) 1) (call (fn int x0) 2))",
        "(if true 1 2)",
    ),
    ("(+ (call (fn int x0) 1) (call (fn int x0) 2))", "(+ 1 2)"),
    ("(fix int int (call (fn int x2) x1))", "(fix int int x1)"),
    (
        "(inj a (call (fn int x0) 1) (sum (a int) (b bool)))",
        "(inj a 1 (sum (a int) (b bool)))",
    ),
    // what is looked at, and the branches, each under a variable of its own
    (
        "(case (call (fn (sum (a int)) x0) (inj a 1 (sum (a int)))) int (a x0))",
        "(case (inj a 1 (sum (a int))) int (a x0))",
    ),
    (
        "(case (inj a 1 (sum (a int) (b int))) int (a (+ x0 1)) (b (call (fn int x1) x0)))",
        "(case (inj a 1 (sum (a int) (b int))) int (a (+ x0 1)) (b x0))",
    ),
    (
        "(fn (sum (a int) (b int)) (case x0 int (a (call (fn int x2) x1)) (b (call (fn int x1) x1))))",
        "(fn (sum (a int) (b int)) (case x0 int (a x1) (b (call (fn int x1) x1))))",
    ),
    ("(roll (call (fn int x0) 1) (mu int))", "(roll 1 (mu int))"),
    (
        "(unroll (call (fn (mu int) x0) (roll 1 (mu int))))",
        "(unroll (roll 1 (mu int)))",
    ),
    (
        "(unroll (roll (inj a (call (fn int x0) 1) (sum (a int))) (mu (sum (a int)))))",
        "(unroll (roll (inj a 1 (sum (a int))) (mu (sum (a int)))))",
    ),
];

// Terms that stay as they are.
const SIMPLE: [&str; 17] = [
    "7",
    // a record with a field less or a field more, and one in which parts change places
    "(call (fn (rec (a int) (b int)) (rec (a (get x0 a)))) (rec (a 1) (b 2)))",
    "(call (fn (rec (a int)) (rec (a (get x0 a)) (b (get x0 a)))) (rec (a 1)))",
    "(call (fn (rec (a int) (b int)) (rec (a (get x0 b)) (b (get x0 a)))) (rec (a 1) (b 2)))",
    // a part under another label, and a label that is none of the type's
    "(call (fn (rec (a int)) (rec (b (get x0 a)))) (rec (a 1)))",
    "(call (fn (rec (a int)) (rec (b (get x0 b)))) (rec (a 1)))",
    // a type that is no record type as it is written
    "(call (fn (@ (lam * (rec (a a0))) int) (rec (a (get x0 a)))) (rec (a 1)))",
    // another variable
    "(fn int (call (fn int x0) 5))",
    "(fn (rec (a int)) (call (fn (rec (a int)) (rec (a (get x0 a)))) (rec (a 1))))",
    // a function that is none as it is written
    "(call (if true (fn int x0) (fn int x0)) 1)",
    "(inst (tfn * (fn a0 x0)) int)",
    // an operand that is no function's
    "(fix int int (call x0 x1))",
    // what was injected or rolled, taken apart and put together
    "(case (inj a 1 (sum (a int) (b int))) int (a x0) (b 2))",
    "(call (fn (sum (a int)) (case x0 (sum (a int)) (a (inj a x1 (sum (a int)))))) (inj a 1 (sum (a int))))",
    "(call (fn int (inj a x0 (sum (a int)))) 1)",
    "(call (fn (mu int) (roll (unroll x0) (mu int))) (roll 1 (mu int)))",
    "(unroll (roll 1 (mu int)))",
];

// Whether the type and the term have this text.
fn is_written(alloc: Global, ty: &Ty, term: &Term, text: &str) -> Result<bool, Fail> {
    if !ty_in_scope(0, ty) || !term_in_scope(0, 0, term) {
        return Ok(false);
    }
    let mut sink = MemSink::new(alloc, 4096, 4096, Vec::new(alloc))?;
    Ok(write_omega(&mut sink, ty, term).is_ok() && sink.bytes() == text.as_bytes())
}

// Whether the term of the one text is simplified to that of the other.
fn becomes(alloc: Global, given: &str, expected: &str) -> Result<bool, Fail> {
    let (ty, term) = read(alloc, whole(alloc, "int", given)?.as_bytes())?;
    let simple = simplify(alloc, &term)?;
    is_written(alloc, &ty, &simple, &whole(alloc, "int", expected)?)
}

#[test]
fn calls_of_flat_functions_go(rt: HostRuntime) -> Result<(), Fail> {
    for (given, expected) in &SIMPLER {
        assert!(rt; becomes(rt.alloc(), given, expected)?, "at {given}");
    }
    Ok(())
}

#[test]
fn other_terms_stay(rt: HostRuntime) -> Result<(), Fail> {
    for term in &SIMPLE {
        assert!(rt; becomes(rt.alloc(), term, term)?, "at {term}");
    }
    Ok(())
}

// The text of the sealed structure's simplified term: its coercion, which changes nothing, is gone.
const SEALED_SIMPLY: &str = "omega 2\n\
    (some * (rec (M (rec (t (rec (.typ (all (> * *) (-> (@ a1 a0) (@ a1 a0)))))) (x (rec (.val a0)))))))\n\
    (pack int (call (fn \
    (rec (t (rec (.typ (all (> * *) (-> (@ a0 int) (@ a0 int)))))) (x (rec (.val int)))) \
    (rec (M x0))) (get (call (fn \
    (rec (t (rec (.typ (all (> * *) (-> (@ a0 int) (@ a0 int)))))) (x (rec (.val int)))) \
    (call (fn \
    (rec (t (rec (.typ (all (> * *) (-> (@ a0 int) (@ a0 int)))))) (x (rec (.val int)))) \
    (rec (%0 x1) (%1 x0))) x0)) (call (fn \
    (rec (.typ (all (> * *) (-> (@ a0 int) (@ a0 int))))) \
    (call (fn (rec (.val int)) (rec (t x0) (x x1))) (rec (.val 5)))) \
    (rec (.typ (tfn (> * *) (fn (@ a0 int) x0)))))) %0)) \
    (some * (rec (M (rec (t (rec (.typ (all (> * *) (-> (@ a1 a0) (@ a1 a0)))))) (x (rec (.val a0))))))))\n";

#[test]
fn the_coercion_of_a_sealed_structure_goes(rt: HostRuntime) -> Result<(), Fail> {
    let (ty, term) = read(rt.alloc(), SEALED.as_bytes())?;
    let simple = simplify(rt.alloc(), &term)?;
    assert!(rt; is_written(rt.alloc(), &ty, &simple, SEALED_SIMPLY)?);
    Ok(())
}

// The simplified term takes 6 steps, where the term takes 11, and shows the same.
#[test]
fn a_sealed_structure_takes_six_steps(rt: HostRuntime) -> Result<(), Fail> {
    let (ty, term) = read(rt.alloc(), SEALED.as_bytes())?;
    let simple = simplify(rt.alloc(), &term)?;
    let checked = check(rt.alloc(), simple, ty)?.ok_or("ill typed")?;
    let ending = Ending::Value("M = {t = type, x = 5}\n", 6);
    assert!(rt; is(&run(rt.alloc(), &checked, 6)?, ending));
    assert!(rt; is(&run(rt.alloc(), &checked, 5)?, Ending::Spent));
    Ok(())
}
