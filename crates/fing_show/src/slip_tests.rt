// Slips of newcomers: a source of each, and what its page says to do.
use crate::tests::shown;
use crate::{Verdict, View};
use std::test::Fail;

// Slips, each with a line of its page.
const SLIPS: [(&str, &str); 63] = [
    // sources without tokens
    (
        "val f = fun (x : Int) => x > 1",
        "hint: There is no `>`: write",
    ),
    (
        "val f = fun (x : Int) => x >= 1",
        "`if x < y then false else true` for `x >= y`.\n",
    ),
    ("val s = \"a\" ^ \"b\"", "hint: There is no `^`"),
    (
        "val f = fun (x : 'a) => x",
        "hint: A type parameter is `fun [a : Type] => ..`",
    ),
    ("val x = true && false", "hint: There is no `&`"),
    ("val x = true || false", "hint: There is no `|`"),
    ("val x = 1 != 2", "hint: There is no `!`"),
    ("val x = 1;", "hint: There are no semicolons"),
    ("val x = ~y", "hint: A `~` belongs to a number"),
    ("\u{feff}val x = 1", "it may be a byte order mark"),
    ("val x = $1", "hint: There are no semicolons, no `>`"),
    // tokens without program
    (
        "signature S = sig type t module A = struct end",
        "Is an `end` missing before it?\n",
    ),
    ("val y = let val x = 1 x end", "hint: Is `in` missing?"),
    ("open M", "hint: Write `include M`"),
    ("structure M = struct end", "hint: A structure is bound by"),
    (
        "val x = 1 structure M = struct end",
        "hint: A structure is bound by",
    ),
    ("functor F = struct end", "hint: A functor is bound by"),
    (
        "module F (X : sig end) = struct end",
        "hint: A functor is bound by",
    ),
    (
        "module F = functor (X : sig end) => struct end",
        "hint: A function is written `fun (x : Int) => x`, and a functor",
    ),
    (
        "val f = fn x => x",
        "hint: A function is written `fun (x : Int) => x`, and a functor",
    ),
    ("fun f (x : Int) = x", "hint: A function is bound by"),
    ("val f (x : Int) = x", "hint: A function is bound by"),
    (
        "val x = 1 and y = 2",
        "hint: Each binding begins with its own",
    ),
    (
        "signature S = sig type t end module M = struct type t = Int end :> S with type t = Int",
        "hint: A type of a signature is made equal",
    ),
    ("val f = fun (x : Int) => x <= 1", "hint: There is no `<=`"),
    ("val x = ()", "hint: There is no unit value"),
    (
        "val f = fun (x : Int) => x val y = f ()",
        "hint: There is no unit value",
    ),
    ("val x = (1, 2)", "hint: There are no tuples"),
    (
        "val f = fun (x : Int, y : Int) => x",
        "and one argument after the other, `fun (x : Int) => fun (y : Int) => x`",
    ),
    ("val x = -1", "hint: A negative number is written `~1`.\n"),
    ("val x = 1.5", "hint: There are no fractions.\n"),
    ("val l = [1, 2]", "hint: No lists are built in"),
    (
        "val rec f = fun (x : Int) => x",
        "hint: A recursive function is bound by",
    ),
    ("module type S = sig end", "hint: A signature is bound by"),
    (
        "module M : sig val x : Int end",
        "hint: A binding has no type of its own",
    ),
    (
        "val f = fun (n : Int) : Int => n",
        "hint: The type of a result is not written",
    ),
    (
        "module F = fun (X : sig end) => struct val v = 1 end module A = struct end val x = (F A).v",
        "hint: A component of a module that is no path",
    ),
    (
        "module F = fun (X : sig end) => struct end module A = struct end val p = pack F A : sig end",
        "hint: A module that is no path",
    ),
    (
        "let val x = 1 in x end",
        "hint: What is outside all phrases",
    ),
    ("datatype t = Int", "hint: A recursive type is bound by"),
    // programs without meaning
    (
        "val x = 1\nfoo\nval y = 2",
        "hint: The end of a line ends nothing.",
    ),
    ("val x = 1\nopen M", "hint: Write `include M`"),
    ("module M = struct end\nopen M", "hint: Write `include M`"),
    (
        "val a = true val b = false val c = a and b",
        "hint: Write `if x then y else false`",
    ),
    (
        "val c = true orelse false",
        "hint: Write `if x then true else y`",
    ),
    ("val x = 7 mod 2", "hint: The remainder is written `%`.\n"),
    ("val x = 7 div 2", "hint: The quotient is written `/`.\n"),
    (
        "signature S = sig type t type u end signature T = S where type t = Int and type u = Bool",
        "hint: There is no `and` here",
    ),
    (
        "signature S = sig type u val x : u sharing type t = u end",
        "hint: There is no `sharing`",
    ),
    (
        "val f = fun (x : int) => x",
        "hint: The type of integers is `Int`.\n",
    ),
    (
        "val f = fun (x : bool) => x",
        "hint: The type of booleans is `Bool`.\n",
    ),
    (
        "val f = fun (x : string) => x",
        "hint: The type of strings is `Text`.\n",
    ),
    (
        "val f = fun (x : list) => x",
        "hint: No type of lists is built in: `data` makes recursive types.\n",
    ),
    ("val f = fun (x : unit) => x", "hint: There is no unit type"),
    (
        "val f = fun (b : Bool) => not b",
        "hint: Write `if x then false else true`",
    ),
    ("val r = ref 1", "hint: There is no state"),
    (
        "module M = struct type t = Int val t = 1 end :> sig type t end",
        "hint: What is bound there last is no type.",
    ),
    (
        "module M = struct type t = Int end :> sig type t : Type -> Type end",
        "hint: The type that is there has another kind",
    ),
    (
        "val f = fun (b : Bool) => if b then 1 else true",
        "hint: Both branches of an `if` have one type",
    ),
    (
        "val f = fun (x : Int) => if x then 1 else 2",
        "This has the type `Int`, and the type `Bool` is needed.\n",
    ),
    (
        "module F = fun (X : sig end) => struct val v = 1 end module A = struct end val x = F A.v",
        "`from (F X).x` in a functor's result.",
    ),
    (
        "module F = gen (X : sig end) => struct type t = Int end :> sig type t end
module G = F :> fun (X : sig end) => sig type t end",
        "hint: The body must bind this type, and the functor be applicative",
    ),
    (
        "signature T = sig type t val x : t val f : t -> Int end
val p = pack struct type t = Int val x = 1 val f = fun (n : Int) => n end : T
module F = fun (X : sig end) => unpack p : T
module E = struct end module P = F E module Q = F E
val y = P.f Q.x",
        "A `fun` that does either is generative.\n",
    ),
];

#[test]
fn slips(rt: HostRuntime) -> Result<(), Fail> {
    let alloc = rt.alloc();
    for (source, said) in &SLIPS {
        let found = shown(&rt, alloc, source, View::Source)?;
        let page = String::from_utf8_lossy(alloc, &found.text)?;
        assert!(&rt; page.as_str().contains(*said));
        assert!(&rt; found.verdict != Verdict::Accepted);
    }
    Ok(())
}
