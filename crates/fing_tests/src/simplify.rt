// Replies of `emit --simplify`, with the texts written by hand from the rules.
use crate::runs::{ran, replies, tried};
use fing_text::MemSink;
use fing_top::Status;
use std::test::Fail;

const WORDS: [&str; 2] = ["emit", "--simplify"];

const SOURCE: &str = "module M = struct type t = Int val x = 5 end :> sig type t val x : t end";

// The coercion of the sealed structure goes, since it gives its argument back.
const SIMPLE: &str =
    "omega 2\n(some * (rec (M (rec (t (rec (.typ (all (> * *) (-> (@ a1 a0) (@ a1 a0)))))) (x (rec (.val a0)))))))\n(pack int (call (fn (rec (t (rec (.typ (all (> * *) (-> (@ a0 int) (@ a0 int)))))) (x (rec (.val int)))) (rec (M x0))) (get (call (fn (rec (t (rec (.typ (all (> * *) (-> (@ a0 int) (@ a0 int)))))) (x (rec (.val int)))) (call (fn (rec (t (rec (.typ (all (> * *) (-> (@ a0 int) (@ a0 int)))))) (x (rec (.val int)))) (rec (%0 x1) (%1 x0))) x0)) (call (fn (rec (.typ (all (> * *) (-> (@ a0 int) (@ a0 int))))) (call (fn (rec (.val int)) (rec (t x0) (x x1))) (rec (.val 5)))) (rec (.typ (tfn (> * *) (fn (@ a0 int) x0)))))) %0)) (some * (rec (M (rec (t (rec (.typ (all (> * *) (-> (@ a1 a0) (@ a1 a0)))))) (x (rec (.val a0))))))))\n";

#[test]
fn a_sealed_structure(rt: HostRuntime) -> Result<(), Fail> {
    replies(&rt, rt.alloc(), &WORDS, SOURCE, Status::Ok, SIMPLE)?;
    let line = "well typed\n";
    replies(&rt, rt.alloc(), &["verify"], SIMPLE, Status::Ok, line)
}

// The coercion to fewer parts stays.
const FEWER: &str =
    "omega 2\n(rec (M (rec (x (rec (.val int))))))\n(call (fn (rec (x (rec (.val int)))) (rec (M x0))) (get (call (fn (rec (w (rec (.val int))) (x (rec (.val int)))) (call (fn (rec (x (rec (.val int)))) (rec (%0 x1) (%1 x0))) (call (fn (rec (w (rec (.val int))) (x (rec (.val int)))) (rec (x (get x1 x)))) x0))) (call (fn (rec (.val int)) (call (fn (rec (.val int)) (rec (w x0) (x x1))) (rec (.val 5)))) (rec (.val 4)))) %0))\n";

#[test]
fn a_part_is_hidden(rt: HostRuntime) -> Result<(), Fail> {
    let source = "module M = struct val w = 4 val x = 5 end :> sig val x : Int end";
    replies(&rt, rt.alloc(), &WORDS, source, Status::Ok, FEWER)
}

// Sources without a coercion, and sources that mean nothing.
const ALIKE: [&str; 6] = [
    "",
    "val x = 1 + 2",
    "val x = 1 val y = x + x",
    "val y = z + 1",
    "module M = struct",
    "val x = 9223372036854775808",
];

#[test]
fn as_without_the_flag(rt: HostRuntime) -> Result<(), Fail> {
    for source in &ALIKE {
        let plain = ran(rt.alloc(), &["emit"], source.as_bytes())?;
        let simple = ran(rt.alloc(), &WORDS, source.as_bytes())?;
        assert!(rt;
            simple.is(plain.status, &plain.written, plain.is_confirmed),
            "at {source}"
        );
    }
    Ok(())
}

#[test]
fn a_write_fails(rt: HostRuntime) -> Result<(), Fail> {
    let small = MemSink::new(rt.alloc(), 9, 2, Vec::new(rt.alloc()))?;
    let found = tried(rt.alloc(), &WORDS, SOURCE.as_bytes(), &[], small)?;
    assert!(rt; found.is(Status::WriteFault, b"omega 2\n(", true));
    Ok(())
}
