// Outcomes of `run`, found by hand from the rules of reduction.
use crate::runs::replies;
use fing_top::Status;
use std::test::Fail;

const ROWS: [(&[&str], &str, Status, &str); 23] = [
    (&["run"], "", Status::Ok, ""),
    (&["run"], "val x = 1 + 2", Status::Ok, "x = 3\n"),
    (
        &["run", "--budget", "2"],
        "val x = 1 + 2",
        Status::Ok,
        "x = 3\n",
    ),
    (
        &["run", "--budget=5"],
        "val x = 1 + 2",
        Status::Ok,
        "x = 3\n",
    ),
    (
        &["run", "--budget", "1"],
        "val x = 1 + 2",
        Status::Spent,
        "spent 1\n",
    ),
    (
        &["run", "--budget", "11"],
        "module M = struct type t = Int val x = 5 end :> sig type t val x : t end",
        Status::Ok,
        "M = {t = type, x = 5}\n",
    ),
    (
        &["run", "--budget", "10"],
        "module M = struct type t = Int val x = 5 end :> sig type t val x : t end",
        Status::Spent,
        "spent 10\n",
    ),
    (
        &["run"],
        "module I = struct type f = fun (a : Type) => a -> a val g = fun [a : Type] => fun (x : a) => x end :> sig type f : Type -> Type val g : [a : Type] -> f a end where type f = fun (a : Type) => a -> a",
        Status::Ok,
        "I = {f = type, g = fun}\n",
    ),
    (
        &["run"],
        "module M = struct type t = Int val x = 5 end : sig type t val x : t end val y = M.x + 1",
        Status::Ok,
        "M = {t = type, x = 5}\ny = 6\n",
    ),
    (
        &["run"],
        "val x = 9223372036854775807",
        Status::Ok,
        "x = 9223372036854775807\n",
    ),
    (
        &["run"],
        "val x = 9223372036854775807 + 1",
        Status::Faulted,
        "fault Overflow\n",
    ),
    (
        &["run"],
        "val x = 9223372036854775808",
        Status::Refused,
        "refused Wide 8\n",
    ),
    (
        &["run"],
        "val x = (~9223372036854775807 - 1) / ~1",
        Status::Faulted,
        "fault Overflow\n",
    ),
    (
        &["run"],
        "val x = (~9223372036854775807 - 1) % ~1",
        Status::Faulted,
        "fault Overflow\n",
    ),
    (
        &["run"],
        "val x = 1 / 0",
        Status::Faulted,
        "fault DivideByZero\n",
    ),
    (
        &["run"],
        "val x = 1 % 0",
        Status::Faulted,
        "fault DivideByZero\n",
    ),
    (&["run"], "val x = ~7 / 2", Status::Ok, "x = -3\n"),
    (&["run"], "val x = ~7 % 2", Status::Ok, "x = -1\n"),
    (
        &["run"],
        "val f = fix g (x : Int) : Int => g x val y = f 1",
        Status::Spent,
        "spent 1000000\n",
    ),
    (
        &["run", "--budget", "28"],
        "val f = fix g (n : Int) : Int => if n < 1 then 0 else g (n - 1) val y = f 3",
        Status::Ok,
        "f = fun\ny = 0\n",
    ),
    (
        &["run", "--budget", "27"],
        "val f = fix g (n : Int) : Int => if n < 1 then 0 else g (n - 1) val y = f 3",
        Status::Spent,
        "spent 27\n",
    ),
    (
        &["run"],
        "val s = \"a\\\"b\"",
        Status::Ok,
        "s = \"a\\\"b\"\n",
    ),
    (
        &["run"],
        "val y = z + 1",
        Status::Refused,
        "refused 8-9 Unbound z\n",
    ),
];

#[test]
fn outcomes(rt: HostRuntime) -> Result<(), Fail> {
    for (words, source, status, text) in &ROWS {
        replies(&rt, rt.alloc(), words, source, *status, text)?;
    }
    Ok(())
}
