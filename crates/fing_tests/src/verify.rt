// Replies of `verify`, with the verdicts found by hand from the rules.
use crate::emit::SEALED;
use crate::runs::{all_reply, ran, replies, tried};
use fing_text::MemSink;
use fing_top::Status;
use std::alloc::Global;
use std::process::Abort;
use std::test::Fail;

// A function on sums that goes on for ever, whose result would be of a recursive type.
const LOOP: &str =
    "(all * (-> (sum (a int) (b a0)) (mu (-> a1 int))))\n(tfn * (fix (sum (a int) (b a0)) (mu (-> a1 int)) (call x0 x1)))\n";

const WELL_TYPED: [&str; 15] = [
    SEALED,
    "omega 1\n(rec (x (rec (.val int))))\n(call (fn (rec (.val int)) (rec (x x0))) (rec (.val (+ 1 2))))\n",
    "omega 1\n(all * (-> a0 a0))\n(tfn * (fn a0 (open (pack a0 x0 (some * a1)) x0)))\n",
    "omega 1\n(-> int int)\n(fn (@ (lam * a0) int) x0)\n",
    "omega 1\n(all (> * *) (all (> (> * *) *) (-> (@ a1 a0) (@ a1 (lam * (@ a0 a2))))))\n(tfn (> * *) (tfn (> (> * *) *) (fn (@ a1 a0) x0)))\n",
    "omega 1\n(some * a0)\n(pack int 1 (@ (lam * (some * a1)) bool))\n",
    "omega 2\n(rec (x (rec (.val int))))\n(call (fn (rec (.val int)) (rec (x x0))) (rec (.val (+ 1 2))))\n",
    "omega 2\n(-> (sum (a int) (b bool)) (sum (a int) (b bool)))\n(fn (sum (a (@ (lam * a0) int)) (b bool)) x0)\n",
    "omega 2\n(-> (sum) (mu a0))\n(fix (sum) (mu (@ (lam * a1) a0)) (call x0 x1))\n",
    "omega 2\n(sum (a int) (b bool))\n(inj a 1 (sum (a int) (b bool)))\n",
    "omega 2\nint\n(case (inj a 1 (sum (a int))) int (a x0))\n",
    "omega 2\n(-> (sum) text)\n(fn (sum) (case x0 text))\n",
    "omega 2\n(-> (sum (no int) (yes (rec))) bool)\n(fn (sum (no int) (yes (rec))) (case x0 bool (no (< x1 0)) (yes true)))\n",
    "omega 2\n(-> (mu (-> a0 int)) int)\n(fn (mu (-> a0 int)) (call (unroll x0) x0))\n",
    "omega 2\n(mu (-> a0 int))\n(roll (fn (mu (-> a0 int)) (call (unroll x0) x0)) (@ (lam * (mu (-> a1 a0))) int))\n",
];

#[test]
fn sums_and_recursive_types(rt: HostRuntime) -> Result<(), Fail> {
    let second = format!(in rt.alloc(); "omega 2\n{LOOP}")?;
    replies(
        &rt,
        rt.alloc(),
        &["verify"],
        &second,
        Status::Ok,
        "well typed\n",
    )?;
    let first = format!(in rt.alloc(); "omega 1\n{LOOP}")?;
    replies(
        &rt,
        rt.alloc(),
        &["verify"],
        &first,
        Status::Refused,
        "refused NotOmega\n",
    )
}

#[test]
fn well_typed_texts(rt: HostRuntime) -> Result<(), Fail> {
    for text in &WELL_TYPED {
        replies(
            &rt,
            rt.alloc(),
            &["verify"],
            text,
            Status::Ok,
            "well typed\n",
        )?;
    }
    Ok(())
}

const REFUSED: [(&str, &str); 23] = [
    ("omega 7\n", "refused Version\n"),
    ("omega 3\n", "refused Version\n"),
    ("omega 3\n(sum)\n0\n", "refused Version\n"),
    ("omega 1\n(sum)\n0\n", "refused NotOmega\n"),
    (
        "omega 2\n(-> (sum (b int) (a int)) int)\n(fn (sum (b int) (a int)) 0)\n",
        "refused NotOmega\n",
    ),
    (
        "omega 2\n(-> (sum (a int)) (rec (a int)))\n(fn (sum (a int)) x0)\n",
        "refused IllTyped\n",
    ),
    (
        "omega 2\n(-> (mu (-> a0 int)) (-> (mu (-> a0 int)) int))\n(fn (mu (-> a0 int)) x0)\n",
        "refused IllTyped\n",
    ),
    (
        "omega 2\n(-> (mu (@ a0 int)) int)\n(fn (mu (@ a0 int)) 1)\n",
        "refused IllTyped\n",
    ),
    (
        "omega 1\n(rec (x (rec (.val int))))\n(call (fn (rec (.val int)) (rec (x x1))) (rec (.val (+ 1 2))))\n",
        "refused NotOmega\n",
    ),
    (
        "omega 1\n(rec (x (rec (.val int))))\n(call (fn (rec (.val int)) (rec (x x0))) (rec (.val (+ 9223372036854775808 2))))\n",
        "refused Wide\n",
    ),
    (
        "omega 1\n(rec (x (rec (.val int))))\n(call (fn (rec (.val int)) (rec (x x0))) (rec (.val (+ 1 2))))",
        "refused NotOmega\n",
    ),
    (
        "omega 1\n(all * (-> a0 a0))\n(tfn * (fn a0 (open (pack a0 x0 (some * a1)) x1)))\n",
        "refused IllTyped\n",
    ),
    (
        "omega 1\n(sum (a int) (b bool))\n(inj a 1 (sum (a int) (b bool)))\n",
        "refused NotOmega\n",
    ),
    ("omega 1\nint\n(unroll 1)\n", "refused NotOmega\n"),
    (
        "omega 2\nint\n(case (inj a 1 (sum (a int) (b int))) int (b x0) (a x0))\n",
        "refused NotOmega\n",
    ),
    (
        "omega 2\nint\n(case (inj a 1 (sum (a int))) int (b x0))\n",
        "refused IllTyped\n",
    ),
    (
        "omega 2\nint\n(case (inj a 1 (sum (a int))) int (a x0) (b x0))\n",
        "refused IllTyped\n",
    ),
    (
        "omega 2\n(-> (sum (a int) (b int)) int)\n(fn (sum (a int) (b int)) (case x0 int (a x1)))\n",
        "refused IllTyped\n",
    ),
    (
        "omega 2\n(-> (mu (-> a0 int)) int)\n(fn (mu (-> a0 int)) (call x0 x0))\n",
        "refused IllTyped\n",
    ),
    (
        "omega 2\n(-> (rec) (mu (sum (a a0))))\n(fix (rec) (mu (sum (a a0))) (roll (call x0 x1) (mu (sum (a a0)))))\n",
        "refused IllTyped\n",
    ),
    ("omega 1\nbool\n1\n", "refused IllTyped\n"),
    ("omega 1\n(@ int int)\n1\n", "refused IllTyped\n"),
    ("val x = 1 + 2", "refused NotOmega\n"),
];

#[test]
fn refused_texts(rt: HostRuntime) -> Result<(), Fail> {
    all_reply(&rt, rt.alloc(), "verify", Status::Refused, &REFUSED)
}

// How many parentheses are open, and why a text of them is refused.
const OPEN: [(usize, &str); 2] = [(4001, "refused TooDeep\n"), (4000, "refused NotOmega\n")];

#[test]
fn a_text_that_is_too_deep(rt: HostRuntime) -> Result<(), Fail> {
    for (count, line) in &OPEN {
        let opens = "(".repeat(rt.alloc(), *count)?;
        let text = format!(in rt.alloc(); "omega 1\n{opens}")?;
        replies(&rt, rt.alloc(), &["verify"], &text, Status::Refused, line)?;
    }
    Ok(())
}

// The text is well typed, and each of its fronts is no text.
fn is_verified(rt: &impl Abort, alloc: Global, text: &[u8]) -> Result<(), Fail> {
    let found = ran(alloc, &["verify"], text)?;
    assert!(rt; found.is(Status::Ok, b"well typed\n", true));
    for n in 0..text.len() {
        let found = ran(alloc, &["verify"], &text[..n])?;
        assert!(rt;
            found.is(Status::Refused, b"refused NotOmega\n", false),
            "at {n}"
        );
    }
    Ok(())
}

#[test]
fn what_is_emitted_is_verified(rt: HostRuntime) -> Result<(), Fail> {
    for source in &["", "val x = 1 + 2", "val b = ~1 val a = b val b = a + b"] {
        let emitted = ran(rt.alloc(), &["emit"], source.as_bytes())?;
        assert!(rt; emitted.is_confirmed, "at {source}");
        is_verified(&rt, rt.alloc(), &emitted.written)?;
    }
    Ok(())
}

// Commands with sources, and the fronts of their replies.
const CUT: [(&str, &str, &str); 2] = [
    ("emit", "val x = 1", "omeg"),
    ("verify", "omega 1\nint\n1\n", "well"),
];

// What was confirmed stands where the sink takes only a prefix of the reply.
#[test]
fn a_sink_that_is_full(rt: HostRuntime) -> Result<(), Fail> {
    for (command, source, front) in &CUT {
        let sink = MemSink::new(rt.alloc(), 4, 4, Vec::new(rt.alloc()))?;
        let found = tried(rt.alloc(), &[command], source.as_bytes(), &[], sink)?;
        assert!(rt;
            found.is(Status::WriteFault, front.as_bytes(), true),
            "at {command}"
        );
    }
    Ok(())
}
