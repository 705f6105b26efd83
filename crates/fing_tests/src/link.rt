// Replies of `link`, with the texts and refusals found by hand from the rules.
use crate::emit::SEALED;
use crate::runs::{all_reply, ran, replies, tried};
use fing_text::MemSink;
use fing_top::Status;
use std::alloc::Global;
use std::test::Fail;

const TWO: &str =
    "module A : sig type t val x : t end = struct type t = Int val x = 5 end module B : sig val y : A.t end = struct val y = A.x end";

// The type and the term of `TWO`, where `#T` is the type of a type part that is `Int`, `#V` that of a value part, `#R` that
// of A without its hidden type, and `#W` the type of the whole.
const TWO_TYPE: &str =
    "(some * (rec (A (rec (t (rec (.typ (all (> * *) (-> (@ a1 a0) (@ a1 a0)))))) (x (rec (.val a0))))) (B (rec (y (rec (.val a0)))))))";

const TWO_TERM: &str =
    "(pack int (call (fn #R (call (fn (rec (y #V)) (rec (A x0) (B x1))) (get (call (fn (rec (y #V)) (call (fn (rec (y #V)) (rec (%0 x2) (%1 x1))) (call (fn (rec (y #V)) (rec (y (call (fn #V x3) (get x2 y))))) x1))) (call (fn #V (rec (y x1))) (rec (.val (get (get x0 x) .val))))) %0))) (get (call (fn #R (call (fn #R (rec (%0 x1) (%1 x0))) (call (fn #R (rec (t (call (fn #T x2) (get x1 t))) (x (call (fn #V x2) (get x1 x))))) x0))) (call (fn #T (call (fn #V (rec (t x0) (x x1))) (rec (.val 5)))) (rec (.typ (tfn (> * *) (fn (@ a0 int) x0)))))) %0)) #W)";

const TYPE_PART: &str = "(rec (.typ (all (> * *) (-> (@ a0 int) (@ a0 int)))))";

const VALUE_PART: &str = "(rec (.val int))";

// A text with the abbreviations written out.
fn written_out(alloc: Global, text: &str) -> Result<String, Fail> {
    let shown = format!(in alloc; "(rec (t {TYPE_PART}) (x {VALUE_PART}))")?;
    let text = text.replace(alloc, "#R", &shown)?;
    let text = text.replace(alloc, "#T", TYPE_PART)?;
    let text = text.replace(alloc, "#V", VALUE_PART)?;
    Ok(text.replace(alloc, "#W", TWO_TYPE)?)
}

#[test]
fn two_units(rt: HostRuntime) -> Result<(), Fail> {
    let term = written_out(rt.alloc(), TWO_TERM)?;
    let text = format!(in rt.alloc(); "omega 2\n{TWO_TYPE}\n{term}\n")?;
    replies(&rt, rt.alloc(), &["link"], TWO, Status::Ok, &text)
}

const ACCEPTED: [(&str, &str); 4] = [
    ("", "omega 2\n(rec)\n(rec)\n"),
    ("-- no units", "omega 2\n(rec)\n(rec)\n"),
    (
        "module M : sig type t val x : t end = struct type t = Int val x = 5 end",
        SEALED,
    ),
    (
        "module A : sig end = struct end",
        "omega 2\n(rec (A (rec)))\n(call (fn (rec) (rec (A x0))) (get (call (fn (rec) (call (fn (rec) (rec (%0 x1) (%1 x0))) (call (fn (rec) (rec)) x0))) (rec)) %0))\n",
    ),
];

#[test]
fn accepted_units(rt: HostRuntime) -> Result<(), Fail> {
    all_reply(&rt, rt.alloc(), "link", Status::Ok, &ACCEPTED)
}

// Units, and the program that binds the name of each to its body, sealed by its signature.
const PROGRAMS: [(&str, &str); 4] = [
    (
        TWO,
        "module A = struct type t = Int val x = 5 end :> sig type t val x : t end module B = struct val y = A.x end :> sig val y : A.t end",
    ),
    (
        "module A : sig type t val x : t end = struct module P = struct type s = Bool end :> sig type s end type t = Int val x = 5 end module A : sig val x : A.t end = struct val x = A.x end",
        "module A = struct module P = struct type s = Bool end :> sig type s end type t = Int val x = 5 end :> sig type t val x : t end module A = struct val x = A.x end :> sig val x : A.t end",
    ),
    (
        "module S : sig signature T = sig type t end val p : pack T end = struct signature T = sig type t end val p = pack struct type t = Int end : T end module U : S.T = struct include unpack S.p : S.T end",
        "module S = struct signature T = sig type t end val p = pack struct type t = Int end : T end :> sig signature T = sig type t end val p : pack T end module U = struct include unpack S.p : S.T end :> S.T",
    ),
    (
        "module A : sig data t = {n : Int} val x : t end = struct data t = {n : Int} val x = roll {n = 5} : t end module B : sig val y : Int end = struct val y = unroll A.x#n end",
        "module A = struct data t = {n : Int} val x = roll {n = 5} : t end :> sig data t = {n : Int} val x : t end module B = struct val y = unroll A.x#n end :> sig val y : Int end",
    ),
];

#[test]
fn units_are_written_as_their_program(rt: HostRuntime) -> Result<(), Fail> {
    for (units, program) in &PROGRAMS {
        let emitted = ran(rt.alloc(), &["emit"], program.as_bytes())?;
        let linked = ran(rt.alloc(), &["link"], units.as_bytes())?;
        assert!(rt; emitted.status == Status::Ok, "at {program}");
        assert!(rt; linked.is(Status::Ok, &emitted.written, true), "at {units}");
    }
    Ok(())
}

// The second unit sees the signature of the first one, and not its body; a signature sees no part of the body before it.
const REFUSED: [(&str, &str); 8] = [
    (
        "module A : sig val x : Int end = struct val x = true end",
        "refused 11-30 Clash x Types bool int\n",
    ),
    (
        "module A : sig type t val x : t end = struct type t = Int val x = 5 end module B : sig val y : Int end = struct val y = A.x + 1 end",
        "refused 120-123 Differ a0 int\n",
    ),
    (
        "module A : sig end = struct val x = 1 end module B : sig end = struct val y = A.x end",
        "refused 80-81 NoPart x\n",
    ),
    (
        "module A : sig end = struct end module B : sig type t end = struct end",
        "refused 43-57 NoRoot 0 t\n",
    ),
    (
        "module A : sig end = struct end module B : sig val x : u end = struct end",
        "refused 55-56 Unbound u\n",
    ),
    (
        "module A : sig val x : t end = struct type t = Int val x = 5 end",
        "refused 23-24 Unbound t\n",
    ),
    (
        "module A : sig end = struct val x = B.x end module B : sig val x : Int end = struct val x = 1 end",
        "refused 36-37 Unbound B\n",
    ),
    (
        "module A : sig val x : u end = struct val x = y end",
        "refused 46-47 Unbound y\n",
    ),
];

#[test]
fn refused_units(rt: HostRuntime) -> Result<(), Fail> {
    all_reply(&rt, rt.alloc(), "link", Status::Refused, &REFUSED)
}

// Bindings of the body of a second unit, one for each reason for which they mean nothing, and the line that refuses the
// text: the body's bindings begin at the byte 60.
const REASONS: [(&str, &str); 26] = [
    ("val y = z + 1", "refused 68-69 Unbound z\n"),
    ("val x = 1 val y = x.z", "refused 80-81 NotStructure\n"),
    (
        "module M = struct end val y = M.z",
        "refused 92-93 NoPart z\n",
    ),
    (
        "module A = struct end module B = A A",
        "refused 93-94 NotFunctor\n",
    ),
    (
        "module A = struct end type t = A",
        "refused 91-92 WrongPath\n",
    ),
    (
        "val y = from (struct type t = Int val x = 1 end :> sig type t val x : t end).x",
        "refused 68-138 Escapes\n",
    ),
    (
        "module M = struct end :> sig type t end",
        "refused 85-99 NoRoot 0 t\n",
    ),
    (
        "module M = struct type x = Int end :> sig val x : Int end",
        "refused 98-117 Clash x Form\n",
    ),
    (
        "module M = struct end :> sig val x : Int end",
        "refused 85-104 Clash x Missing\n",
    ),
    (
        "module F = (gen (X : sig end) => struct val v = 1 end) :> fun (X : sig end) => sig val v : Int end",
        "refused 118-158 Clash . Effect\n",
    ),
    (
        "module M = struct val x = true end :> sig val x : Int end",
        "refused 98-117 Clash x Types bool int\n",
    ),
    ("val x = 1 2", "refused 68-69 NotArrow int\n"),
    ("val x = 1 [Int]", "refused 68-69 NotAll int\n"),
    ("val x = 1#a", "refused 68-69 NotRecord int\n"),
    ("val x = inj a 1 : Int", "refused 78-81 NotSum int\n"),
    ("val x = unroll 1", "refused 75-76 NotData int\n"),
    ("val x = {a = 1}#b", "refused 76-77 NoField b\n"),
    (
        "val x = case inj a 1 : case {a : Int} : Int of {}",
        "refused 68-109 NoBranch a\n",
    ),
    ("val x = true + 1", "refused 68-72 Differ bool int\n"),
    (
        "type f = fun (a : Type) => a val x = fun (y : f) => 1",
        "refused 106-107 KindDiffer (> * *) *\n",
    ),
    (
        "data t = fun (a : Type) => a",
        "refused 69-88 KindDiffer (> * *) *\n",
    ),
    ("type t = Int Int", "refused 69-72 NotOperator\n"),
    ("val x = {a = 1, a = 2}", "refused 76-77 DuplicateField a\n"),
    (
        "signature S = sig val x : Int val x : Bool end",
        "refused 94-95 Duplicate x\n",
    ),
    (
        "signature S = sig type t = Int end where type t = Bool",
        "refused 106-107 NotAbstract t\n",
    ),
    (
        "signature S = sig end where type t = Bool",
        "refused 93-94 NoPart t\n",
    ),
];

#[test]
fn each_reason_in_a_second_unit(rt: HostRuntime) -> Result<(), Fail> {
    for (binding, line) in &REASONS {
        let text = format!(in rt.alloc();
            "module Z : sig end = struct end module Y : sig end = struct {binding} end"
        )?;
        replies(&rt, rt.alloc(), &["link"], &text, Status::Refused, line)?;
    }
    Ok(())
}

// Texts that are no units.
const OTHER: [(&str, &str); 12] = [
    (
        "module A : sig end = struct val x = 1 ; 2 end",
        "refused BadByte 38\n",
    ),
    (
        "module A : sig end = struct val s = \"ab end",
        "refused BadText 36\n",
    ),
    (
        "module A : sig end = struct val x = 9223372036854775808 end",
        "refused Wide 36\n",
    ),
    ("val x = 1", "refused Syntax 0\n"),
    ("module A = struct end", "refused Syntax 2\n"),
    ("module A : sig end", "refused Syntax 5\n"),
    ("module A : sig end = gen", "refused Syntax 6\n"),
    ("module A : sig end = struct", "refused Syntax 7\n"),
    (
        "module A : sig end = struct end val x = 1",
        "refused Syntax 8\n",
    ),
    (
        "module A : sig end = struct end :> sig end",
        "refused Syntax 8\n",
    ),
    ("module A.B : sig end = struct end", "refused Syntax 2\n"),
    (
        "module A : sig end = struct module end",
        "refused Syntax 8\n",
    ),
];

#[test]
fn texts_that_are_no_units(rt: HostRuntime) -> Result<(), Fail> {
    all_reply(&rt, rt.alloc(), "link", Status::Refused, &OTHER)
}

// Before a parenthesis, `module A : sig end = struct val x =` counts 10, and each that is open counts 1.
#[test]
fn nested_parentheses_in_a_unit(rt: HostRuntime) -> Result<(), Fail> {
    let opens = "(".repeat(rt.alloc(), 991)?;
    let text = format!(in rt.alloc(); "module A : sig end = struct val x = {opens}")?;
    let line = "refused TooDeep 1026\n";
    replies(&rt, rt.alloc(), &["link"], &text, Status::Refused, line)
}

#[test]
fn units_are_no_program(rt: HostRuntime) -> Result<(), Fail> {
    let line = "refused Syntax 2\n";
    replies(&rt, rt.alloc(), &["emit"], TWO, Status::Refused, line)
}

// So many units, each of which has the value of the one before, and their program.
fn many(alloc: Global, count: u32) -> Result<(String, String), Fail> {
    let mut units = String::new(alloc);
    let mut program = String::new(alloc);
    let mut value = "1".to_string(alloc)?;
    for n in 0..count {
        let unit = format!(in alloc;
            "module U{n} : sig val x : Int end = struct val x = {value} end\n"
        )?;
        let binding = format!(in alloc;
            "module U{n} = struct val x = {value} end :> sig val x : Int end\n"
        )?;
        units.push_str(&unit)?;
        program.push_str(&binding)?;
        value = format!(in alloc; "U{n}.x")?;
    }
    Ok((units, program))
}

#[test]
fn nine_hundred_units(rt: HostRuntime) -> Result<(), Fail> {
    let (units, program) = many(rt.alloc(), 900)?;
    let emitted = ran(rt.alloc(), &["emit"], program.as_bytes())?;
    let linked = ran(rt.alloc(), &["link"], units.as_bytes())?;
    assert_eq!(rt; emitted.status, Status::Ok);
    assert!(rt; linked.is(Status::Ok, &emitted.written, true));
    Ok(())
}

#[test]
fn too_many_bytes_of_units(rt: HostRuntime) -> Result<(), Fail> {
    let source = vec![in rt.alloc(); b' '; 1048577]?;
    let found = ran(rt.alloc(), &["link"], &source)?;
    assert!(rt; found.is(Status::TooLong, b"", false));
    Ok(())
}

#[test]
fn a_read_of_units_fails(rt: HostRuntime) -> Result<(), Fail> {
    let sink = MemSink::new(rt.alloc(), 4096, 1, Vec::new(rt.alloc()))?;
    let found = tried(rt.alloc(), &["link"], TWO.as_bytes(), &[1], sink)?;
    assert!(rt; found.is(Status::ReadFault, b"", false));
    Ok(())
}

#[test]
fn a_write_of_what_is_linked_fails(rt: HostRuntime) -> Result<(), Fail> {
    let small = MemSink::new(rt.alloc(), 9, 2, Vec::new(rt.alloc()))?;
    let found = tried(rt.alloc(), &["link"], TWO.as_bytes(), &[], small)?;
    assert!(rt; found.is(Status::WriteFault, b"omega 2\n(", true));
    Ok(())
}
