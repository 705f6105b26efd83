// The smallest phrase at a place, and what it is, reasoned from the source.
use crate::View;
use crate::tests::all_show_as;
use std::test::Fail;

const SOURCE: &str = "module M = struct type t = Int val x = 1 end :> sig type t val x : t end
val y = fun (n : M.t) => M.x
signature S = sig type u end
module F = fun (X : S) => struct type v = X.u -> M.t end
val z = let module K = F (struct type u = Bool end) in 1 end
data t = case {nil : {}, cons : t}
";

// A line, a column, and the page of the phrase there.
const PHRASES: [(u64, u64, &str); 20] = [
    // a module
    (
        2,
        26,
        " --> a.fing:2:26
  |
2 | val y = fun (n : M.t) => M.x
  |                          ^
module : sig
  type t = M.t
  val x : M.t
end
",
    ),
    // a value at a path
    (
        2,
        27,
        " --> a.fing:2:26
  |
2 | val y = fun (n : M.t) => M.x
  |                          ^^^
val : M.t
",
    ),
    // a function
    (
        2,
        9,
        " --> a.fing:2:9
  |
2 | val y = fun (n : M.t) => M.x
  |         ^^^^^^^^^^^^^^^^^^^^
val : M.t -> M.t
",
    ),
    // the name of a binding
    (
        2,
        5,
        " --> a.fing:2:9
  |
2 | val y = fun (n : M.t) => M.x
  |         ^^^^^^^^^^^^^^^^^^^^
val : M.t -> M.t
",
    ),
    // the name of a parameter
    (
        2,
        14,
        " --> a.fing:2:18
  |
2 | val y = fun (n : M.t) => M.x
  |                  ^^^
type = M.t : Type
",
    ),
    // a module that hides a type
    (
        1,
        8,
        " --> a.fing:1:12
  |
1 | module M = struct type t = Int val x = 1 end :> sig type t val x : t end
  |            ^^^^^^^^^^^^^^^^^^^^^^^^^^^^^^^^^^^^^^^^^^^^^^^^^^^^^^^^^^^^^
module : sig
  type t
  val x : t
end
hidden: t
",
    ),
    // a signature
    (
        3,
        11,
        " --> a.fing:3:15
  |
3 | signature S = sig type u end
  |               ^^^^^^^^^^^^^^
signature = sig
  type u
end
",
    ),
    // a type in a functor
    (
        4,
        47,
        " --> a.fing:4:43
  |
4 | module F = fun (X : S) => struct type v = X.u -> M.t end
  |                                           ^^^^^^^^^^
type = X.u -> M.t : Type
",
    ),
    // a functor's parameter
    (
        4,
        43,
        " --> a.fing:4:43
  |
4 | module F = fun (X : S) => struct type v = X.u -> M.t end
  |                                           ^
module : sig
  type u = X.u
end
",
    ),
    // a functor
    (
        4,
        12,
        " --> a.fing:4:12
  |
4 | module F = fun (X : S) => struct type v = X.u -> M.t end
  |            ^^^^^^^^^^^^^^^^^^^^^^^^^^^^^^^^^^^^^^^^^^^^^
module : fun (X : sig
  type u
end) => sig
  type v = X.u -> M.t
end
",
    ),
    // a functor that is applied
    (
        5,
        24,
        " --> a.fing:5:24
  |
5 | val z = let module K = F (struct type u = Bool end) in 1 end
  |                        ^
module : fun (X : sig
  type u
end) => sig
  type v = X.u -> M.t
end
",
    ),
    // its argument
    (
        5,
        27,
        " --> a.fing:5:26
  |
5 | val z = let module K = F (struct type u = Bool end) in 1 end
  |                          ^^^^^^^^^^^^^^^^^^^^^^^^^^
module : sig
  type u = Bool
end
",
    ),
    // the result of `let`
    (
        5,
        56,
        " --> a.fing:5:56
  |
5 | val z = let module K = F (struct type u = Bool end) in 1 end
  |                                                        ^
val : Int
",
    ),
    // a blank in an application
    (
        5,
        25,
        " --> a.fing:5:24
  |
5 | val z = let module K = F (struct type u = Bool end) in 1 end
  |                        ^^^^^^^^^^^^^^^^^^^^^^^^^^^^
module : sig
  type v = Bool -> M.t
end
",
    ),
    // a keyword of a binding
    (
        2,
        1,
        "No phrase stands at this place.
",
    ),
    // behind the last token of a line
    (
        2,
        30,
        "No phrase stands at this place.
",
    ),
    // the name of a recursive type
    (
        6,
        6,
        " --> a.fing:6:10
  |
6 | data t = case {nil : {}, cons : t}
  |          ^^^^^^^^^^^^^^^^^^^^^^^^^
type = case {cons : t, nil : {}} : Type
",
    ),
    // a line without tokens
    (
        7,
        1,
        "No phrase stands at this place.
",
    ),
    // a line behind the last
    (
        9,
        1,
        "No phrase stands at this place.
",
    ),
    // column 0
    (
        2,
        0,
        "No phrase stands at this place.
",
    ),
];

#[test]
fn phrases_at_places(rt: HostRuntime) -> Result<(), Fail> {
    for (line, column, page) in &PHRASES {
        let (line, column) = (*line, *column);
        let view = View::Phrase { line, column };
        all_show_as(&rt, rt.alloc(), view, true, &[(SOURCE, *page)])?;
    }
    Ok(())
}
