// Replies of `emit`, with the texts written by hand from the rules.
use crate::runs::{all_reply, ran, replies};
use fing_top::Status;
use std::alloc::Global;
use std::test::Fail;

const ONE: &str =
    "omega 2\n(rec (x (rec (.val int))))\n(call (fn (rec (.val int)) (rec (x x0))) (rec (.val 1)))\n";

/// The text of a module that hides a type.
pub const SEALED: &str =
    "omega 2\n(some * (rec (M (rec (t (rec (.typ (all (> * *) (-> (@ a1 a0) (@ a1 a0)))))) (x (rec (.val a0)))))))\n(pack int (call (fn (rec (t (rec (.typ (all (> * *) (-> (@ a0 int) (@ a0 int)))))) (x (rec (.val int)))) (rec (M x0))) (get (call (fn (rec (t (rec (.typ (all (> * *) (-> (@ a0 int) (@ a0 int)))))) (x (rec (.val int)))) (call (fn (rec (t (rec (.typ (all (> * *) (-> (@ a0 int) (@ a0 int)))))) (x (rec (.val int)))) (rec (%0 x1) (%1 x0))) (call (fn (rec (t (rec (.typ (all (> * *) (-> (@ a0 int) (@ a0 int)))))) (x (rec (.val int)))) (rec (t (call (fn (rec (.typ (all (> * *) (-> (@ a0 int) (@ a0 int))))) x2) (get x1 t))) (x (call (fn (rec (.val int)) x2) (get x1 x))))) x0))) (call (fn (rec (.typ (all (> * *) (-> (@ a0 int) (@ a0 int))))) (call (fn (rec (.val int)) (rec (t x0) (x x1))) (rec (.val 5)))) (rec (.typ (tfn (> * *) (fn (@ a0 int) x0)))))) %0)) (some * (rec (M (rec (t (rec (.typ (all (> * *) (-> (@ a1 a0) (@ a1 a0)))))) (x (rec (.val a0))))))))\n";

const ACCEPTED: [(&str, &str); 9] = [
    ("", "omega 2\n(rec)\n(rec)\n"),
    (
        "module M = struct type t = Int val x = 5 end :> sig type t val x : t end",
        SEALED,
    ),
    (
        "val x = 1 + 2",
        "omega 2\n(rec (x (rec (.val int))))\n(call (fn (rec (.val int)) (rec (x x0))) (rec (.val (+ 1 2))))\n",
    ),
    (
        "val x = 1 + 2 + 3 -- a sum",
        "omega 2\n(rec (x (rec (.val int))))\n(call (fn (rec (.val int)) (rec (x x0))) (rec (.val (+ (+ 1 2) 3))))\n",
    ),
    (
        "val x = (1 + 2) + (3 + (4))",
        "omega 2\n(rec (x (rec (.val int))))\n(call (fn (rec (.val int)) (rec (x x0))) (rec (.val (+ (+ 1 2) (+ 3 4)))))\n",
    ),
    (
        "val x = 1 val y = x + x",
        "omega 2\n(rec (x (rec (.val int))) (y (rec (.val int))))\n(call (fn (rec (.val int)) (call (fn (rec (.val int)) (rec (x x0) (y x1))) (rec (.val (+ (get x0 .val) (get x0 .val)))))) (rec (.val 1)))\n",
    ),
    (
        "val x = 1 val y = (x) + (2 + x)",
        "omega 2\n(rec (x (rec (.val int))) (y (rec (.val int))))\n(call (fn (rec (.val int)) (call (fn (rec (.val int)) (rec (x x0) (y x1))) (rec (.val (+ (get x0 .val) (+ 2 (get x0 .val))))))) (rec (.val 1)))\n",
    ),
    (
        "val x = 1 val x = 2",
        "omega 2\n(rec (x (rec (.val int))))\n(call (fn (rec (.val int)) (call (fn (rec (.val int)) (rec (x x1))) (rec (.val 2)))) (rec (.val 1)))\n",
    ),
    (
        "val b = ~1 val a = b",
        "omega 2\n(rec (a (rec (.val int))) (b (rec (.val int))))\n(call (fn (rec (.val int)) (call (fn (rec (.val int)) (rec (a x1) (b x0))) (rec (.val (get x0 .val))))) (rec (.val -1)))\n",
    ),
];

#[test]
fn accepted_sources(rt: HostRuntime) -> Result<(), Fail> {
    all_reply(&rt, rt.alloc(), "emit", Status::Ok, &ACCEPTED)
}

const REFUSED: [(&str, &str); 14] = [
    ("val y = z + 1", "refused 8-9 Unbound z\n"),
    ("val x = (y)", "refused 9-10 Unbound y\n"),
    ("val x = (1 + 2) + (3 + x)", "refused 23-24 Unbound x\n"),
    ("val x = a + b val y = c", "refused 8-9 Unbound a\n"),
    ("val x = y val z = true", "refused 8-9 Unbound y\n"),
    ("val x = M.y", "refused 8-9 Unbound M\n"),
    ("val x = )", "refused Syntax 3\n"),
    ("val x = 1 < 2 < 3", "refused Syntax 6\n"),
    ("module M = struct", "refused Syntax 4\n"),
    ("val x = (y", "refused Syntax 5\n"),
    ("val x = 1 ; 2", "refused BadByte 10\n"),
    ("val s = \"ab", "refused BadText 8\n"),
    ("val x = 9223372036854775808", "refused Wide 8\n"),
    ("val x = ) 9223372036854775808", "refused Wide 10\n"),
];

#[test]
fn refused_sources(rt: HostRuntime) -> Result<(), Fail> {
    all_reply(&rt, rt.alloc(), "emit", Status::Refused, &REFUSED)
}

// The replies of the proper fronts of `val x = 1 + 2`, from the shortest to the longest.
const FRONTS: [&str; 13] = [
    "omega 2\n(rec)\n(rec)\n",
    "refused Syntax 0\n",
    "refused Syntax 0\n",
    "refused Syntax 1\n",
    "refused Syntax 1\n",
    "refused Syntax 2\n",
    "refused Syntax 2\n",
    "refused Syntax 3\n",
    "refused Syntax 3\n",
    ONE,
    ONE,
    "refused Syntax 5\n",
    "refused Syntax 5\n",
];

#[test]
fn fronts_of_a_source(rt: HostRuntime) -> Result<(), Fail> {
    let source = b"val x = 1 + 2".as_slice();
    for (length, text) in FRONTS.iter().enumerate() {
        let is_accepted = text.as_bytes().starts_with(b"omega");
        let status = if is_accepted {
            Status::Ok
        } else {
            Status::Refused
        };
        let found = ran(rt.alloc(), &["emit"], &source[..length])?;
        assert!(rt;
            found.is(status, text.as_bytes(), is_accepted),
            "at {length}"
        );
    }
    Ok(())
}

// Before a parenthesis, `val x =` counts 3, and each that is open counts 1.
#[test]
fn nested_parentheses(rt: HostRuntime) -> Result<(), Fail> {
    let opens = "(".repeat(rt.alloc(), 996)?;
    let closes = ")".repeat(rt.alloc(), 996)?;
    let source = format!(in rt.alloc(); "val x = {opens}1{closes}")?;
    replies(&rt, rt.alloc(), &["emit"], &source, Status::Ok, ONE)?;
    let source = format!(in rt.alloc(); "val x = {opens}((")?;
    let line = "refused TooDeep 1005\n";
    replies(&rt, rt.alloc(), &["emit"], &source, Status::Refused, line)
}

// The text of so many bindings `val x = 1`, with the variable of the last one.
fn bindings(alloc: Global, count: usize, last: &str) -> Result<String, Fail> {
    let fronts = "(call (fn (rec (.val int)) ".repeat(alloc, count)?;
    let backs = ") (rec (.val 1)))".repeat(alloc, count)?;
    Ok(format!(in alloc; "omega 2\n(rec (x (rec (.val int))))\n{fronts}(rec (x {last})){backs}\n")?)
}

// The number of the binding `n` counts n + 3, and no token may count more than 1,000.
#[test]
fn as_many_bindings_as_there_may_be(rt: HostRuntime) -> Result<(), Fail> {
    let text = bindings(rt.alloc(), 997, "x996")?;
    let source = "val x = 1\n".repeat(rt.alloc(), 997)?;
    replies(&rt, rt.alloc(), &["emit"], &source, Status::Ok, &text)?;
    let longer = format!(in rt.alloc(); "{source}val y = 1")?;
    let line = "refused TooDeep 9978\n";
    replies(&rt, rt.alloc(), &["emit"], &longer, Status::Refused, line)
}
