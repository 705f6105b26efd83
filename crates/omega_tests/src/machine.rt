// Programs that are run: numbers and faults, numbers of steps, and what values show. Each is written as Omega text.
use omega_checker::check;
use omega_machine::{Arith, End, run};
use omega_read::read;
use std::alloc::Global;
use std::process::Abort;
use std::test::Fail;

/// How a program is to end, a value or a fault after so many steps.
#[derive(Clone, Copy)]
pub enum Ending {
    Value(&'static str, u64),
    Fault(Arith, u64),
    Spent,
}

/// Whether it ends so.
pub fn is(end: &End, expected: Ending) -> bool {
    match (end, expected) {
        (End::Value { shown, steps }, Ending::Value(text, taken)) => {
            shown.bytes() == text.as_bytes() && *steps == taken
        }
        (End::Fault { fault, steps }, Ending::Fault(met, taken)) => {
            *fault == met && *steps == taken
        }
        (End::Spent, Ending::Spent) => true,
        _ => false,
    }
}

// What the program with this Omega text comes to.
fn outcome(alloc: Global, text: &[u8], budget: u64) -> Result<End, Fail> {
    let (ty, term) = read(alloc, text)?;
    let checked = check(alloc, term, ty)?.ok_or("ill typed")?;
    Ok(run(alloc, &checked, budget)?)
}

fn ends(
    rt: &impl Abort,
    alloc: Global,
    text: &str,
    budget: u64,
    ending: Ending,
) -> Result<(), Fail> {
    let end = outcome(alloc, text.as_bytes(), budget)?;
    assert!(rt; is(&end, ending), "at {text} with {budget}");
    Ok(())
}

// A term of type int, a budget, and how `val x = ..` with the term ends.
const NUMBERS: [(&str, u64, Ending); 16] = [
    // numbers of 64 bits
    (
        "9223372036854775807",
        0,
        Ending::Value("x = 9223372036854775807\n", 0),
    ),
    (
        "(+ 9223372036854775807 1)",
        1,
        Ending::Fault(Arith::Overflow, 1),
    ),
    (
        "(- -9223372036854775807 2)",
        1,
        Ending::Fault(Arith::Overflow, 1),
    ),
    (
        "(* 4294967296 2147483648)",
        1,
        Ending::Fault(Arith::Overflow, 1),
    ),
    (
        "(- -9223372036854775807 1)",
        1,
        Ending::Value("x = -9223372036854775808\n", 1),
    ),
    // division
    ("(/ -7 2)", 1, Ending::Value("x = -3\n", 1)),
    ("(% -7 2)", 1, Ending::Value("x = -1\n", 1)),
    ("(/ 1 0)", 1, Ending::Fault(Arith::DivideByZero, 1)),
    ("(% 1 0)", 1, Ending::Fault(Arith::DivideByZero, 1)),
    (
        "(/ (- -9223372036854775807 1) -1)",
        2,
        Ending::Fault(Arith::Overflow, 2),
    ),
    (
        "(% (- -9223372036854775807 1) -1)",
        2,
        Ending::Fault(Arith::Overflow, 2),
    ),
    ("(% (- -9223372036854775807 1) -1)", 1, Ending::Spent),
    // a test that chooses takes one step, and the other branch none
    ("(if true 1 (/ 1 0))", 9, Ending::Value("x = 1\n", 1)),
    (
        "(if (== 1 2) (/ 1 0) (+ 1 1))",
        9,
        Ending::Value("x = 2\n", 3),
    ),
    // of two operands the left one's fault is met
    (
        "(+ (* 2 4611686018427387904) (/ 1 0))",
        9,
        Ending::Fault(Arith::Overflow, 1),
    ),
    // a hidden type and a function of types
    (
        "(call (inst (tfn * (fn a0 x0)) int) (open (pack bool 7 (some * int)) x0))",
        9,
        Ending::Value("x = 7\n", 3),
    ),
];

#[test]
fn numbers(rt: HostRuntime) -> Result<(), Fail> {
    for (term, budget, ending) in &NUMBERS {
        let text = format!(in rt.alloc();
            "omega 1\n(rec (x (rec (.val int))))\n(rec (x (rec (.val {term}))))\n"
        )?;
        ends(&rt, rt.alloc(), &text, *budget, *ending)?;
    }
    Ok(())
}

// `val x = 1 + 2`
const BINDING: &str =
    "omega 1\n(rec (x (rec (.val int))))\n(call (fn (rec (.val int)) (rec (x x0))) (rec (.val (+ 1 2))))\n";

/// `module M = struct type t = Int val x = 5 end :> sig type t val x : t end`
pub const SEALED: &str = "omega 1\n\
    (some * (rec (M (rec (t (rec (.typ (all (> * *) (-> (@ a1 a0) (@ a1 a0)))))) (x (rec (.val a0)))))))\n\
    (pack int (call (fn \
    (rec (t (rec (.typ (all (> * *) (-> (@ a0 int) (@ a0 int)))))) (x (rec (.val int)))) \
    (rec (M x0))) (get (call (fn \
    (rec (t (rec (.typ (all (> * *) (-> (@ a0 int) (@ a0 int)))))) (x (rec (.val int)))) \
    (call (fn \
    (rec (t (rec (.typ (all (> * *) (-> (@ a0 int) (@ a0 int)))))) (x (rec (.val int)))) \
    (rec (%0 x1) (%1 x0))) (call (fn \
    (rec (t (rec (.typ (all (> * *) (-> (@ a0 int) (@ a0 int)))))) (x (rec (.val int)))) \
    (rec (t (call (fn \
    (rec (.typ (all (> * *) (-> (@ a0 int) (@ a0 int))))) \
    x2) (get x1 t))) (x (call (fn (rec (.val int)) x2) (get x1 x))))) x0))) (call (fn \
    (rec (.typ (all (> * *) (-> (@ a0 int) (@ a0 int))))) \
    (call (fn (rec (.val int)) (rec (t x0) (x x1))) (rec (.val 5)))) \
    (rec (.typ (tfn (> * *) (fn (@ a0 int) x0)))))) %0)) \
    (some * (rec (M (rec (t (rec (.typ (all (> * *) (-> (@ a1 a0) (@ a1 a0)))))) (x (rec (.val a0))))))))\n";

const PROGRAMS: [(&str, u64, Ending); 9] = [
    (BINDING, 2, Ending::Value("x = 3\n", 2)),
    (BINDING, 10_000_000, Ending::Value("x = 3\n", 2)),
    (BINDING, 1, Ending::Spent),
    (SEALED, 11, Ending::Value("M = {t = type, x = 5}\n", 11)),
    (SEALED, 10, Ending::Spent),
    // of two fields the first one's fault is met
    (
        "omega 1\n(rec (a int) (b int))\n(rec (a (+ 1 (/ 1 0))) (b (+ 9223372036854775807 1)))\n",
        9,
        Ending::Fault(Arith::DivideByZero, 1),
    ),
    // what values show
    (
        "omega 1\n(rec (s (rec (.val text))))\n(rec (s (rec (.val \"a\\\"b\\\\c\\n\"))))\n",
        0,
        Ending::Value("s = \"a\\\"b\\\\c\\n\"\n", 0),
    ),
    ("omega 1\n(rec)\n(rec)\n", 0, Ending::Value("", 0)),
    (
        "omega 1\n(rec (A (rec)) (B (rec (.sig (-> int int)))) (c (rec (.val (rec (p bool) (q (some * a0)))))))\n(rec (A (rec)) (B (rec (.sig (fn int x0)))) (c (rec (.val (rec (p false) (q (pack int 1 (some * a0))))))))\n",
        0,
        Ending::Value("A = {}\nB = sig\nc = {p = false, q = pack}\n", 0),
    ),
];

#[test]
fn programs(rt: HostRuntime) -> Result<(), Fail> {
    for (text, budget, ending) in &PROGRAMS {
        ends(&rt, rt.alloc(), text, *budget, *ending)?;
    }
    Ok(())
}

// Bodies of g and arguments in `val f = fix g (n : Int) : Int => .. val y = f ..`, a budget, and how it ends. The names
// are `(get (rec (.val x0)) .val)` for g and `(get (rec (.val x1)) .val)` for n.
const RECURSIVE: [(&str, &str, u64, Ending); 4] = [
    // `g n`
    (
        "(call (get (rec (.val x0)) .val) (get (rec (.val x1)) .val))",
        "1",
        1_000_000,
        Ending::Spent,
    ),
    // `if n < 1 then 0 else g (n - 1)`
    (
        "(if (< (get (rec (.val x1)) .val) 1) 0 (call (get (rec (.val x0)) .val) (- (get (rec (.val x1)) .val) 1)))",
        "3",
        28,
        Ending::Value("f = fun\ny = 0\n", 28),
    ),
    (
        "(if (< (get (rec (.val x1)) .val) 1) 0 (call (get (rec (.val x0)) .val) (- (get (rec (.val x1)) .val) 1)))",
        "3",
        27,
        Ending::Spent,
    ),
    // `g n + 1`, whose calls nest and take no stack
    ("(+ (call x0 x1) 1)", "1", 300_000, Ending::Spent),
];

#[test]
fn recursion(rt: HostRuntime) -> Result<(), Fail> {
    for (body, arg, budget, ending) in &RECURSIVE {
        let text = format!(in rt.alloc();
            "omega 1\n(rec (f (rec (.val (-> int int)))) (y (rec (.val int))))\n(call (fn (rec (.val (-> int int))) (call (fn (rec (.val int)) (rec (f x0) (y x1))) (rec (.val (call (get x0 .val) {arg}))))) (rec (.val (fix int int {body}))))\n"
        )?;
        ends(&rt, rt.alloc(), &text, *budget, *ending)?;
    }
    Ok(())
}

// A type, a term of it, a budget, and how `val x = ..` with the term ends.
const SUMS: [(&str, &str, u64, Ending); 18] = [
    // a case runs the branch at the label, with the injected value for its variable
    (
        "int",
        "(case (inj a 5 (sum (a int) (b int))) int (a (+ x0 1)) (b (* x0 10)))",
        9,
        Ending::Value("x = 6\n", 2),
    ),
    (
        "int",
        "(case (inj b (+ 2 3) (sum (a int) (b int))) int (a (+ x0 1)) (b (* x0 10)))",
        3,
        Ending::Value("x = 50\n", 3),
    ),
    (
        "int",
        "(case (inj b (+ 2 3) (sum (a int) (b int))) int (a (+ x0 1)) (b (* x0 10)))",
        2,
        Ending::Spent,
    ),
    // what is injected is reduced before the case, also where its branch does not use it, and the other branch never is
    (
        "int",
        "(case (inj a (/ 1 0) (sum (a int) (b int))) int (a 1) (b 2))",
        9,
        Ending::Fault(Arith::DivideByZero, 1),
    ),
    (
        "int",
        "(case (inj a 1 (sum (a int) (b int))) int (a x0) (b (/ 1 0)))",
        9,
        Ending::Value("x = 1\n", 1),
    ),
    // a branch in a branch has both variables
    (
        "int",
        "(case (inj a 1 (sum (a int) (b int))) int (a (case (inj b 2 (sum (a int) (b int))) int (a x1) (b (- x0 x1)))) (b 0))",
        9,
        Ending::Value("x = -1\n", 3),
    ),
    // `unroll` of a rolled value gives the value
    (
        "int",
        "(unroll (roll (+ 1 2) (mu int)))",
        2,
        Ending::Value("x = 3\n", 2),
    ),
    ("int", "(unroll (roll (+ 1 2) (mu int)))", 1, Ending::Spent),
    (
        "int",
        "(unroll (roll (% 1 0) (mu int)))",
        9,
        Ending::Fault(Arith::DivideByZero, 1),
    ),
    // a function that is given itself by a recursive type: without an end, and the sum of the numbers up to 3
    (
        "int",
        "(call (unroll (roll (fn (mu (-> a0 int)) (call (unroll x0) x0)) (mu (-> a0 int)))) (roll (fn (mu (-> a0 int)) (call (unroll x0) x0)) (mu (-> a0 int))))",
        100_000,
        Ending::Spent,
    ),
    (
        "int",
        "(call (fn (mu (-> a0 (-> int int))) (call (call (unroll x0) x0) 3)) (roll (fn (mu (-> a0 (-> int int))) (fn int (if (< x1 1) 0 (+ x1 (call (call (unroll x0) x0) (- x1 1)))))) (mu (-> a0 (-> int int)))))",
        27,
        Ending::Value("x = 6\n", 27),
    ),
    (
        "int",
        "(call (fn (mu (-> a0 (-> int int))) (call (call (unroll x0) x0) 3)) (roll (fn (mu (-> a0 (-> int int))) (fn int (if (< x1 1) 0 (+ x1 (call (call (unroll x0) x0) (- x1 1)))))) (mu (-> a0 (-> int int)))))",
        26,
        Ending::Spent,
    ),
    // what injected and rolled values show
    (
        "(sum (a int) (b int))",
        "(inj a 1 (sum (a int) (b int)))",
        0,
        Ending::Value("x = (a 1)\n", 0),
    ),
    (
        "(sum (.val int))",
        "(inj .val (+ 1 1) (sum (.val int)))",
        1,
        Ending::Value("x = (.val 2)\n", 1),
    ),
    (
        "(mu int)",
        "(roll (- 1 2) (mu int))",
        1,
        Ending::Value("x = (roll -1)\n", 1),
    ),
    (
        "(mu (-> a0 int))",
        "(roll (fn (mu (-> a0 int)) (call (unroll x0) x0)) (mu (-> a0 int)))",
        0,
        Ending::Value("x = (roll fun)\n", 0),
    ),
    (
        "(sum (a (sum (b text))))",
        "(inj a (inj b \"c\\\"\" (sum (b text))) (sum (a (sum (b text)))))",
        0,
        Ending::Value("x = (a (b \"c\\\"\"))\n", 0),
    ),
    (
        "(sum (a (rec (.val int))))",
        "(inj a (rec (.val 1)) (sum (a (rec (.val int)))))",
        0,
        Ending::Value("x = (a 1)\n", 0),
    ),
];

// The text of `val x = ..` with a term of this type.
fn binding(alloc: Global, ty: &str, term: &str) -> Result<String, Fail> {
    Ok(format!(in alloc; "omega 2\n(rec (x (rec (.val {ty}))))\n(rec (x (rec (.val {term}))))\n")?)
}

#[test]
fn sums(rt: HostRuntime) -> Result<(), Fail> {
    for (ty, term, budget, ending) in &SUMS {
        let text = binding(rt.alloc(), ty, term)?;
        ends(&rt, rt.alloc(), &text, *budget, *ending)?;
    }
    Ok(())
}

// The type of the lists of numbers, and what it is unrolled to.
const LIST: &str = "(mu (sum (cons (rec (hd int) (tl a0))) (nil (rec))))";

const CELL: &str =
    "(sum (cons (rec (hd int) (tl (mu (sum (cons (rec (hd int) (tl a0))) (nil (rec))))))) (nil (rec)))";

// The list of the number and a list.
fn cons(alloc: Global, first: &str, rest: &str) -> Result<String, Fail> {
    Ok(format!(in alloc; "(roll (inj cons (rec (hd {first}) (tl {rest})) {CELL}) {LIST})")?)
}

#[test]
fn lists(rt: HostRuntime) -> Result<(), Fail> {
    let none = format!(in rt.alloc(); "(roll (inj nil (rec) {CELL}) {LIST})")?;
    let one = cons(rt.alloc(), "(+ 3 4)", &none)?;
    let shown = binding(rt.alloc(), LIST, &one)?;
    let list = "x = (roll (cons {hd = 7, tl = (roll (nil {}))}))\n";
    ends(&rt, rt.alloc(), &shown, 1, Ending::Value(list, 1))?;
    // the number of items, by a function that calls itself
    let two = cons(rt.alloc(), "8", &one)?;
    let term = format!(in rt.alloc();
        "(call (fix {LIST} int (case (unroll x1) int (cons (+ 1 (call x0 (get x2 tl)))) (nil 0))) {two})"
    )?;
    let length = binding(rt.alloc(), "int", &term)?;
    ends(&rt, rt.alloc(), &length, 14, Ending::Value("x = 2\n", 14))?;
    ends(&rt, rt.alloc(), &length, 13, Ending::Spent)
}
