// Pages that show where the source declares what a refusal is about, reasoned from the source.

/// Sources that are refused, with their pages.
pub(crate) const DECLARED: [(&str, &str); 11] = [
    // in a signature with a name, with a refinement
    (
        "signature S = sig
  type t
  val x : t
end
module M = struct type t = Int val x = true end :> S where type t = Int",
        "error: the types of a component differ
 --> a.fing:5:52
  |
5 | module M = struct type t = Int val x = true end :> S where type t = Int
  |                                                    ^^^^^^^^^^^^^^^^^^^^
What the module has at `x` has the type `Bool`, and the signature asks for `Int`.
note: this declaration asks for `x`
 --> a.fing:3:3
  |
3 |   val x : t
  |   ^^^^^^^^^
note: `x` is a value there
 --> a.fing:5:32
  |
5 | module M = struct type t = Int val x = true end :> S where type t = Int
  |                                ^^^^^^^^^^^^
hint: A value must match its declaration exactly: there is no instantiation, and no subtyping of records.
see docs/errors.md#clash-p-why
",
    ),
    // in a signature that is included, for an argument of a functor
    (
        "signature A = sig val x : Int end
module F = fun (X : sig include A val y : Int end) => struct end
module M = F (struct val y = 1 end)",
        "error: a component is missing
 --> a.fing:3:14
  |
3 | module M = F (struct val y = 1 end)
  |              ^^^^^^^^^^^^^^^^^^^^^^
The signature asks for `x`, and the module does not have it.
note: this declaration asks for `x`
 --> a.fing:1:19
  |
1 | signature A = sig val x : Int end
  |                   ^^^^^^^^^^^
hint: Add it to the module, or remove it from the signature.
see docs/errors.md#clash-p-why
",
    ),
    // in a functor's parameter, where the functor asks
    (
        "module F = fun (X : sig val y : Int end) => struct end
module G = F :> fun (X : sig end) => sig end",
        "error: a component is missing
 --> a.fing:2:17
  |
2 | module G = F :> fun (X : sig end) => sig end
  |                 ^^^^^^^^^^^^^^^^^^^^^^^^^^^^
The functor asks for `(arg).y`, and the parameter in the signature does not have it.
note: this declaration asks for `y`
 --> a.fing:1:25
  |
1 | module F = fun (X : sig val y : Int end) => struct end
  |                         ^^^^^^^^^^^
hint: Add it to the parameter in the signature, or remove it from that of the functor.
see docs/errors.md#clash-p-why
",
    ),
    // where both have it, with other types
    (
        "module F = fun (X : sig val y : Int end) => struct end
module G = F :> fun (X : sig val y : Bool end) => sig end",
        "error: the types of a component differ
 --> a.fing:2:17
  |
2 | module G = F :> fun (X : sig val y : Bool end) => sig end
  |                 ^^^^^^^^^^^^^^^^^^^^^^^^^^^^^^^^^^^^^^^^^
What the parameter in the signature has at `(arg).y` has the type `Bool`, and the functor asks for `Int`.
note: this declaration asks for `y`
 --> a.fing:1:25
  |
1 | module F = fun (X : sig val y : Int end) => struct end
  |                         ^^^^^^^^^^^
note: `y` is a value there
 --> a.fing:2:30
  |
2 | module G = F :> fun (X : sig val y : Bool end) => sig end
  |                              ^^^^^^^^^^^^
hint: A value must match its declaration exactly: there is no instantiation, and no subtyping of records.
see docs/errors.md#clash-p-why
",
    ),
    // a type that is there with another kind, in a module in the signature of a package
    (
        "module M = struct module N = struct type t = fun (a : Type) => a end end
val p = pack M : sig module N : sig type t end end",
        "error: a type is missing
 --> a.fing:2:18
  |
2 | val p = pack M : sig module N : sig type t end end
  |                  ^^^^^^^^^^^^^^^^^^^^^^^^^^^^^^^^^
The signature hides a type at `N.t`, and the module has no type of this kind there.
note: this declaration asks for `t`
 --> a.fing:2:37
  |
2 | val p = pack M : sig module N : sig type t end end
  |                                     ^^^^^^
note: `t` is a type there
 --> a.fing:1:37
  |
1 | module M = struct module N = struct type t = fun (a : Type) => a end end
  |                                     ^^^^^^^^^^^^^^^^^^^^^^^^^^^^
hint: The type that is there has another kind: only one of the two takes type arguments, or they take others.
see docs/errors.md#noroot-i-p
",
    ),
    // a value in the place of a type; the last binding counts
    (
        "module M = struct type t = Int val t = 1 end :> sig type t end",
        "error: a type is missing
 --> a.fing:1:49
  |
1 | module M = struct type t = Int val t = 1 end :> sig type t end
  |                                                 ^^^^^^^^^^^^^^
The signature hides a type at `t`, and the module has no type of this kind there.
note: this declaration asks for `t`
 --> a.fing:1:53
  |
1 | module M = struct type t = Int val t = 1 end :> sig type t end
  |                                                     ^^^^^^
note: `t` is a value there
 --> a.fing:1:32
  |
1 | module M = struct type t = Int val t = 1 end :> sig type t end
  |                                ^^^^^^^^^
hint: What is bound there last is no type. All sorts of names share one namespace, so it may hide the type.
see docs/errors.md#noroot-i-p
",
    ),
    // a path to something of another sort
    (
        "signature Set = sig end
module Set = struct end
module M = struct end :> Set",
        "error: wrong sort of name
 --> a.fing:3:26
  |
3 | module M = struct end :> Set
  |                          ^^^
The path leads to another sort of thing than is needed here.
note: `Set` is a module there
 --> a.fing:2:1
  |
2 | module Set = struct end
  | ^^^^^^^^^^^^^^^^^^^^^^^
hint: Name a component: `M.x`, or `from (F X).x` in a functor's result. Or does this module hide what you mean? There is one namespace.
see docs/errors.md#wrongpath
",
    ),
    // a path to a component
    (
        "module M = struct type t = Int val t = 1 end
val f = fun (x : M.t) => x",
        "error: wrong sort of name
 --> a.fing:2:18
  |
2 | val f = fun (x : M.t) => x
  |                  ^^^
The path leads to another sort of thing than is needed here.
note: `t` is a value there
 --> a.fing:1:32
  |
1 | module M = struct type t = Int val t = 1 end
  |                                ^^^^^^^^^
hint: Values, types, modules and signatures share one namespace: a later binding may hide the one you mean.
see docs/errors.md#wrongpath
",
    ),
    // a functor's parameter has no declaration, and neither has the result of a functor that is computed
    (
        "val f = fun (x : Int) => x
module F = fun (X : sig end) => struct val x = X end",
        "error: wrong sort of name
 --> a.fing:2:48
  |
2 | module F = fun (X : sig end) => struct val x = X end
  |                                                ^
The path leads to another sort of thing than is needed here.
hint: Values, types, modules and signatures share one namespace: a later binding may hide the one you mean.
see docs/errors.md#wrongpath
",
    ),
    // in a signature that is a component, where the signature has more
    (
        "module M = struct signature T = sig end end :> sig signature T = sig val y : Int end end",
        "error: a component is missing
 --> a.fing:1:48
  |
1 | module M = struct signature T = sig end end :> sig signature T = sig val y : Int end end
  |                                                ^^^^^^^^^^^^^^^^^^^^^^^^^^^^^^^^^^^^^^^^^
Two signatures must be equivalent, and only one of them has `T.(sig).y`.
note: this declaration asks for `y`
 --> a.fing:1:70
  |
1 | module M = struct signature T = sig end end :> sig signature T = sig val y : Int end end
  |                                                                      ^^^^^^^^^^^
hint: Declare it in both, or in neither.
see docs/errors.md#clash-p-why
",
    ),
    // the same where the module has more
    (
        "module M = struct signature T = sig val y : Int end end :> sig signature T = sig end end",
        "error: a component is missing
 --> a.fing:1:60
  |
1 | module M = struct signature T = sig val y : Int end end :> sig signature T = sig end end
  |                                                            ^^^^^^^^^^^^^^^^^^^^^^^^^^^^^
Two signatures must be equivalent, and only one of them has `T.(sig).y`.
note: this declaration asks for `y`
 --> a.fing:1:37
  |
1 | module M = struct signature T = sig val y : Int end end :> sig signature T = sig end end
  |                                     ^^^^^^^^^^^
hint: Declare it in both, or in neither.
see docs/errors.md#clash-p-why
",
    ),
];
