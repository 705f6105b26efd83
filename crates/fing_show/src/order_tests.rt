// Components in the order of the source, reasoned from the source.

pub(crate) const ORDERS: [(&str, &str); 6] = [
    // the last binding of a name, and an include
    (
        "val c = 1 val a = 2 include struct val y = 3 val x = 4 end val c = true",
        "pure
val a : Int
val y : Int
val x : Int
val c : Bool
",
    ),
    // signatures that are named, included and refined
    (
        "signature S = sig type t val z : t val a : t end
signature T = S where type t = Int
signature U = sig val w : Int include S end",
        "pure
signature S = sig
  type t
  val z : t
  val a : t
end
signature T = sig
  type t = Int
  val z : Int
  val a : Int
end
signature U = sig
  val w : Int
  type t
  val z : t
  val a : t
end
",
    ),
    // the parameter, the body and the result of a functor, and a module under another name
    (
        "module F = fun (X : sig val z : Int val a : Int end) => struct val y = true include X end
module M = F (struct val a = 1 val z = 2 val y = 3 end)
module L = M",
        "pure
module F : fun (X : sig
  val z : Int
  val a : Int
end) => sig
  val y : Bool
  val z : Int
  val a : Int
end
module M : sig
  val y : Bool
  val z : Int
  val a : Int
end
module L : sig
  val y : Bool
  val z : Int
  val a : Int
end
",
    ),
    // a generative functor
    (
        "module H = gen (X : sig end) => struct val a = 1 type b = Int end :> sig type b val a : b end",
        "pure
module H : fun (X : sig end) -> sig
  type b
  val a : H.b
end
",
    ),
    // a module with a signature that hides nothing, and bindings before a module
    (
        "module A = struct val y = 1 val z = 2 end : sig val z : Int val y : Int end
module B = let val y = 1 val z = 2 in struct val z = z val y = y end end",
        "pure
module A : sig
  val z : Int
  val y : Int
end
module B : sig
  val z : Int
  val y : Int
end
",
    ),
    // a hidden type has its name by the first module that leads to it
    (
        "module Money = struct type t = Int val zero = 0 end :> sig type t val zero : t end
module Alias = Money
val none = Alias.zero",
        "pure
module Money : sig
  type t
  val zero : Money.t
end
module Alias : sig
  type t = Money.t
  val zero : Money.t
end
val none : Money.t
hidden: Money.t
",
    ),
];

// A path in an expression, in line 2 and column 24, has the order of what it names.
pub(crate) const LEAF: [(&str, &str); 1] = [(
    "module C = struct val next = 0 val leaf = true end : sig val next : Int val leaf : Bool end
val n = if C.leaf then C.next else 0
",
    " --> a.fing:2:24
  |
2 | val n = if C.leaf then C.next else 0
  |                        ^
module : sig
  val next : Int
  val leaf : Bool
end
",
)];
