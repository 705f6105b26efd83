// One source for each reason for which a program means nothing, with its line found by hand from the rules.
use crate::runs::all_reply;
use fing_top::Status;
use std::test::Fail;

const REASONS: [(&str, &str); 25] = [
    ("val y = z + 1", "refused 8-9 Unbound z\n"),
    ("val x = 1 val y = x.z", "refused 20-21 NotStructure\n"),
    (
        "module M = struct end val y = M.z",
        "refused 32-33 NoPart z\n",
    ),
    (
        "module A = struct end module B = A A",
        "refused 33-34 NotFunctor\n",
    ),
    (
        "module A = struct end type t = A",
        "refused 31-32 WrongPath\n",
    ),
    (
        "val y = from (struct type t = Int val x = 1 end :> sig type t val x : t end).x",
        "refused 8-78 Escapes\n",
    ),
    (
        "module M = struct end :> sig type t end",
        "refused 25-39 NoRoot 0 t\n",
    ),
    (
        "module M = struct type x = Int end :> sig val x : Int end",
        "refused 38-57 Clash x Form\n",
    ),
    (
        "module M = struct end :> sig val x : Int end",
        "refused 25-44 Clash x Missing\n",
    ),
    (
        "module F = (gen (X : sig end) => struct val v = 1 end) :> fun (X : sig end) => sig val v : Int end",
        "refused 58-98 Clash . Effect\n",
    ),
    (
        "module M = struct val x = true end :> sig val x : Int end",
        "refused 38-57 Clash x Types bool int\n",
    ),
    ("val x = 1 2", "refused 8-9 NotArrow int\n"),
    ("val x = 1 [Int]", "refused 8-9 NotAll int\n"),
    ("val x = 1#a", "refused 8-9 NotRecord int\n"),
    ("val x = inj a 1 : Int", "refused 18-21 NotSum int\n"),
    ("val x = unroll 1", "refused 15-16 NotData int\n"),
    ("val x = {a = 1}#b", "refused 16-17 NoField b\n"),
    (
        "val x = case inj a 1 : case {a : Int} : Int of {}",
        "refused 8-49 NoBranch a\n",
    ),
    ("val x = true + 1", "refused 8-12 Differ bool int\n"),
    (
        "type f = fun (a : Type) => a val x = fun (y : f) => 1",
        "refused 46-47 KindDiffer (> * *) *\n",
    ),
    ("type t = Int Int", "refused 9-12 NotOperator\n"),
    ("val x = {a = 1, a = 2}", "refused 16-17 DuplicateField a\n"),
    (
        "signature S = sig val x : Int val x : Bool end",
        "refused 34-35 Duplicate x\n",
    ),
    (
        "signature S = sig type t = Int end where type t = Bool",
        "refused 46-47 NotAbstract t\n",
    ),
    (
        "signature S = sig end where type t = Bool",
        "refused 33-34 NoPart t\n",
    ),
];

#[test]
fn each_reason(rt: HostRuntime) -> Result<(), Fail> {
    all_reply(&rt, rt.alloc(), "check", Status::Refused, &REASONS)
}

// A condition comes before each later premise of its phrase, and a premise before each later one.
const FIRST: [(&str, &str); 6] = [
    ("val x = 1 y", "refused 8-9 NotArrow int\n"),
    ("val x = true + y", "refused 8-12 Differ bool int\n"),
    (
        "val x = if 1 then y else z",
        "refused 11-12 Differ int bool\n",
    ),
    ("val x = {a = y, a = z}", "refused 13-14 Unbound y\n"),
    ("type t = Int s", "refused 9-12 NotOperator\n"),
    ("val x = 1#a val y = z", "refused 8-9 NotRecord int\n"),
];

#[test]
fn the_first_condition_that_fails(rt: HostRuntime) -> Result<(), Fail> {
    all_reply(&rt, rt.alloc(), "check", Status::Refused, &FIRST)
}
