// Pages of sources, written by hand from the rules and from docs/errors.md.
use crate::declared_tests::DECLARED;
use crate::{
    Form, Shown, Verdict, View, derivation_tests, name_tests, omega_text_tests, order_tests,
    paper_tests, show, step_tests, term_tests,
};
use fing_text::SOURCE_LIMIT;
use std::alloc::Global;
use std::process::Abort;
use std::test::Fail;

/// What is shown of a source with a name.
pub(crate) fn shown(
    rt: &impl Abort,
    alloc: Global,
    source: &str,
    view: View,
) -> Result<Shown, Fail> {
    let bytes = source.as_bytes();
    assert!(rt; bytes.len() <= SOURCE_LIMIT);
    Ok(show(alloc, b"a.fing", bytes, view)?)
}

/// Asserts that each source has its page in a notation, and that they are all accepted, or all refused.
pub(crate) fn all_show_as(
    rt: &impl Abort,
    alloc: Global,
    view: View,
    accepted: bool,
    rows: &[(&str, &str)],
) -> Result<(), Fail> {
    for (source, page) in rows {
        let found = shown(rt, alloc, source, view)?;
        let text = String::from_utf8_lossy(alloc, &found.text)?;
        assert_eq!(rt; text.as_str(), *page);
        assert_eq!(rt; found.verdict == Verdict::Accepted, accepted);
    }
    Ok(())
}

const WITHOUT_PROGRAM: [(&str, &str); 5] = [
    (
        "val x = 1; val y = 2",
        "error: no token
 --> a.fing:1:10
  |
1 | val x = 1; val y = 2
  |          ^
No token begins here.
hint: There are no semicolons: bindings follow one another, and a comma stands between two fields.
see docs/errors.md#badbyte-n
",
    ),
    (
        "-- one\nval s = \"ab\n",
        "error: no string
 --> a.fing:2:9
  |
2 | val s = \"ab
  |         ^
This quote begins no string.
hint: Close the string on its line. A backslash is followed by `\"`, `\\` or `n`.
see docs/errors.md#badtext-n
",
    ),
    (
        "val x = 9223372036854775808",
        "error: a number too large
 --> a.fing:1:9
  |
1 | val x = 9223372036854775808
  |         ^
This number is greater than 9223372036854775807.
hint: The least number is written `~9223372036854775807 - 1`.
see docs/errors.md#wide-n
",
    ),
    (
        "val f = fun x => x",
        "error: syntax
 --> a.fing:1:13
  |
1 | val f = fun x => x
  |             ^
No program can go on with `x` here.
expected: `(` or `[`
hint: A parameter has its type, as in `fun (x : Int) => x`, or `fun [a : Type] => ..`.
see docs/errors.md#syntax-n
",
    ),
    (
        "val x = (1\n",
        "error: syntax
 --> a.fing:1:11
  |
1 | val x = (1
  |           ^
The source ends too soon.
expected: an expression, an operator, `)`, `[` or `#`
hint: The mistake is often earlier: look for a missing `end`, `in` or bracket, or a keyword used as a name.
see docs/errors.md#syntax-n
",
    ),
];

const WITHOUT_MEANING: [(&str, &str); 6] = [
    (
        "val x = y",
        "error: unbound name
 --> a.fing:1:9
  |
1 | val x = y
  |         ^
No earlier binding has the name `y`.
hint: Bind the name earlier, or name a component with its path, as `M.x`.
see docs/errors.md#unbound-x
",
    ),
    (
        "module Money = struct
  type t = Int
  val make = fun (cents : Int) => cents
end :> sig type t val make : Int -> t end
val a = Money.make 150 + 50
",
        "error: types differ
 --> a.fing:5:9
  |
5 | val a = Money.make 150 + 50
  |         ^^^^^^^^^^^^^^
This has the type `Money.t`, and the type `Int` is needed.
hint: Nothing is converted. A hidden type is equal only to itself: say what it is with `where type`.
see docs/errors.md#differ-t-t
",
    ),
    (
        "val id = fun [a : Type] => fun (x : a) => x val y = id 1",
        "error: not a function
 --> a.fing:1:53
  |
1 | val id = fun [a : Type] => fun (x : a) => x val y = id 1
  |                                                     ^^
This is applied to an argument, and its type `[a : Type] -> a -> a` is not a function type.
hint: The end of a line ends nothing. Is `val`, `type` or `module` missing after this phrase?
see docs/errors.md#notarrow-t
",
    ),
    (
        "module M = struct val x = true end :> sig val x : Int end",
        "error: the types of a component differ
 --> a.fing:1:39
  |
1 | module M = struct val x = true end :> sig val x : Int end
  |                                       ^^^^^^^^^^^^^^^^^^^
What the module has at `x` has the type `Bool`, and the signature asks for `Int`.
note: this declaration asks for `x`
 --> a.fing:1:43
  |
1 | module M = struct val x = true end :> sig val x : Int end
  |                                           ^^^^^^^^^^^
note: `x` is a value there
 --> a.fing:1:19
  |
1 | module M = struct val x = true end :> sig val x : Int end
  |                   ^^^^^^^^^^^^
hint: A value must match its declaration exactly: there is no instantiation, and no subtyping of records.
see docs/errors.md#clash-p-why
",
    ),
    (
        "module M = struct end :> sig type t end",
        "error: a type is missing
 --> a.fing:1:26
  |
1 | module M = struct end :> sig type t end
  |                          ^^^^^^^^^^^^^^
The signature hides a type at `t`, and the module has no type of this kind there.
note: this declaration asks for `t`
 --> a.fing:1:30
  |
1 | module M = struct end :> sig type t end
  |                              ^^^^^^
hint: Bind a type of this name and kind.
see docs/errors.md#noroot-i-p
",
    ),
    (
        "type t = fun (a : Type) => a val f = fun (x : t) => x",
        "error: kinds differ
 --> a.fing:1:47
  |
1 | type t = fun (a : Type) => a val f = fun (x : t) => x
  |                                               ^
This type has the kind `Type -> Type`, and the kind `Type` is needed.
hint: Apply a type constructor where a type is needed; where a constructor is needed, give it no arguments.
see docs/errors.md#kinddiffer-k-k-notoperator
",
    ),
];

const SIGNATURES: [(&str, &str); 8] = [
    ("", "pure\n"),
    (
        "module C = struct type c = Int val start = 0 val next = fun (x : Int) => x + 1 end
:> sig type c val start : c val next : c -> c end
val n = C.next C.start",
        "pure
module C : sig
  type c
  val start : C.c
  val next : C.c -> C.c
end
val n : C.c
hidden: C.c
",
    ),
    (
        "type k = fun (f : Type -> Type) => f (f Int)
type p = fun (t : Type) => {x : t, y : Int} -> Bool
val id = fun [b : Type] => fun (x : b) => x
val twice = fun (f : Int -> Int) => fun (x : Int) => f (f x)",
        "pure
type k = fun (a : Type -> Type) => a (a Int)
type p = fun (a : Type) => {x : a, y : Int} -> Bool
val id : [a : Type] -> a -> a
val twice : (Int -> Int) -> Int -> Int
",
    ),
    (
        "module F = fun (X : sig type t val x : t end) => struct type u = X.t val y = X.x end :> sig type u val y : u end
module M = F (struct type t = Bool val x = true end)",
        "pure
module F : fun (X : sig
  type t
  val x : X.t
end) => sig
  type u
  val y : F.u X.t
end
module M : sig
  type u = F.u Bool
  val y : F.u Bool
end
hidden: F.u : Type -> Type
",
    ),
    (
        "module M = struct type t = Int end :> sig type t end
signature S = sig module M : sig type t = M.t end end",
        "pure
module M : sig
  type t
end
signature S = sig
  module M : sig
    type t = M.t
  end
end
hidden: M.t
",
    ),
    (
        "module G = gen (X : sig end) => struct type t = Int end :> sig type t end",
        "pure
module G : fun (X : sig end) -> sig
  type t
end
",
    ),
    (
        "signature S = sig type t val x : t end
val p = pack struct type t = Int val x = 1 end : S
module M = unpack p : S",
        "impure
signature S = sig
  type t
  val x : t
end
val p : pack sig .. end
module M : sig
  type t
  val x : M.t
end
hidden: M.t
",
    ),
    (
        "module M = let module H = struct type t = Int val x = 3 end :> sig type t val x : t end in struct val y = H.x end end",
        "pure
module M : sig
  val y : ?0
end
hidden: ?0, to which no path leads
",
    ),
];

// A path in an expression.
const LEAF: View = View::Phrase {
    line: 2,
    column: 24,
};

// All steps of a run, its first three, its first one, and none.
const WHOLE: View = View::Steps {
    shown: 20,
    budget: 100,
};

const THREE: View = View::Steps {
    shown: 3,
    budget: 6,
};

const ONE: View = View::Steps {
    shown: 1,
    budget: 100,
};

const NO_STEPS: View = View::Steps {
    shown: 0,
    budget: 1000,
};

// Asserts that each source is refused with its page.
fn refused(rt: &impl Abort, alloc: Global, view: View, rows: &[(&str, &str)]) -> Result<(), Fail> {
    all_show_as(rt, alloc, view, false, rows)
}

// Asserts that each source is accepted with its page.
fn accepted(rt: &impl Abort, alloc: Global, view: View, rows: &[(&str, &str)]) -> Result<(), Fail> {
    all_show_as(rt, alloc, view, true, rows)
}

// A refusal is the same in each view. Each table has a call of its own: a table of tables is one constant of the proof,
// which takes the square of its length.
#[test]
fn pages_of_refusals(rt: HostRuntime) -> Result<(), Fail> {
    let alloc = rt.alloc();
    refused(&rt, alloc, View::Source, &WITHOUT_PROGRAM)?;
    refused(&rt, alloc, View::Source, &WITHOUT_MEANING)?;
    refused(&rt, alloc, View::Source, &DECLARED)?;
    refused(&rt, alloc, View::Source, &name_tests::LED_TO)?;
    refused(&rt, alloc, View::Source, &name_tests::WITHOUT_NAME)?;
    refused(&rt, alloc, View::Paper, &WITHOUT_PROGRAM)?;
    refused(&rt, alloc, View::Latex, &WITHOUT_MEANING)?;
    refused(
        &rt,
        alloc,
        View::Phrase { line: 1, column: 9 },
        &WITHOUT_MEANING,
    )?;
    refused(&rt, alloc, View::Derivation(Form::Text), &WITHOUT_MEANING)?;
    refused(&rt, alloc, View::Derivation(Form::Html), &WITHOUT_MEANING)?;
    Ok(())
}

#[test]
fn pages_of_programs(rt: HostRuntime) -> Result<(), Fail> {
    let alloc = rt.alloc();
    accepted(&rt, alloc, View::Source, &SIGNATURES)?;
    accepted(&rt, alloc, View::Source, &order_tests::ORDERS)?;
    accepted(&rt, alloc, LEAF, &order_tests::LEAF)?;
    accepted(&rt, alloc, View::Paper, &paper_tests::HIDING)?;
    accepted(&rt, alloc, View::Paper, &paper_tests::TYPES)?;
    accepted(&rt, alloc, View::Latex, &paper_tests::IN_LATEX)?;
    accepted(&rt, alloc, View::Term, &term_tests::TERMS)?;
    accepted(&rt, alloc, View::Term, &term_tests::PACKAGE)?;
    accepted(&rt, alloc, View::TermLatex, &term_tests::IN_LATEX)?;
    accepted(&rt, alloc, View::TermOmega, &omega_text_tests::TEXTS)?;
    accepted(&rt, alloc, WHOLE, &step_tests::WHOLE_RUNS)?;
    accepted(&rt, alloc, THREE, &step_tests::CALLS)?;
    accepted(&rt, alloc, ONE, &step_tests::OVERFLOW)?;
    accepted(&rt, alloc, NO_STEPS, &step_tests::ENDS)?;
    accepted(
        &rt,
        alloc,
        View::Derivation(Form::Text),
        &derivation_tests::TREES,
    )?;
    accepted(
        &rt,
        alloc,
        View::Derivation(Form::Latex),
        &derivation_tests::IN_LATEX,
    )?;
    accepted(
        &rt,
        alloc,
        View::Derivation(Form::Html),
        &derivation_tests::IN_HTML,
    )?;
    Ok(())
}
