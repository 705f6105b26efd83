// Names of types in pages of refusals, reasoned from what each name leads to at the place of the refusal.

pub(crate) const LED_TO: [(&str, &str); 10] = [
    // by a functor's parameter, and by a module in its body
    (
        "module F = fun (X : sig type t val x : t end) => struct
module M = struct type u = Int val y = 1 end :> sig type u val y : u end
val z = (fun (x : X.t) => x) M.y end",
        "error: types differ
 --> a.fing:3:30
  |
3 | val z = (fun (x : X.t) => x) M.y end
  |                              ^^^
This has the type `M.u`, and the type `X.t` is needed.
hint: A hidden type is equal only to itself, and each `unpack` or use of a generative functor makes new ones. A `fun` that does either is generative.
see docs/errors.md#differ-t-t
",
    ),
    // by a type parameter
    (
        "val f = fun [a : Type] => fun (x : a) => x + 1",
        "error: types differ
 --> a.fing:1:42
  |
1 | val f = fun [a : Type] => fun (x : a) => x + 1
  |                                          ^
This has the type `a`, and the type `Int` is needed.
hint: Nothing is converted. A hidden type is equal only to itself: say what it is with `where type`.
see docs/errors.md#differ-t-t
",
    ),
    // by modules in one another
    (
        "module A = struct module B = struct type t = Int val x = 1 end :> sig type t val x : t end end
val y = A.B.x 2",
        "error: not a function
 --> a.fing:2:9
  |
2 | val y = A.B.x 2
  |         ^^^^^
This is applied to an argument, and its type `A.B.t` is not a function type.
hint: The end of a line ends nothing. Is `val`, `type` or `module` missing after this phrase?
see docs/errors.md#notarrow-t
",
    ),
    // by the name that an inclusion binds
    (
        "include struct type t = Int val x = 1 end :> sig type t val x : t end
val y = x + 1",
        "error: types differ
 --> a.fing:2:9
  |
2 | val y = x + 1
  |         ^
This has the type `t`, and the type `Int` is needed.
hint: Nothing is converted. A hidden type is equal only to itself: say what it is with `where type`.
see docs/errors.md#differ-t-t
",
    ),
    // by an applicative functor, at the type of its argument
    (
        "module F = fun (X : sig type t end) => struct type u = Int val y = 1 end :> sig type u val y : u end
module A = F (struct type t = Bool end)
val z = A.y + 1",
        "error: types differ
 --> a.fing:3:9
  |
3 | val z = A.y + 1
  |         ^^^
This has the type `F.u Bool`, and the type `Int` is needed.
hint: Nothing is converted. A hidden type is equal only to itself: say what it is with `where type`.
see docs/errors.md#differ-t-t
",
    ),
    // by another name, since a later module hides the first one
    (
        "module M = struct type t = Int val x = 1 end :> sig type t val x : t end
module N = M
module M = struct type t = Bool end :> sig type t end
val y = N.x + 1",
        "error: types differ
 --> a.fing:4:9
  |
4 | val y = N.x + 1
  |         ^^^
This has the type `N.t`, and the type `Int` is needed.
hint: Nothing is converted. A hidden type is equal only to itself: say what it is with `where type`.
see docs/errors.md#differ-t-t
",
    ),
    // by the path inside a module that is sealed and has no name yet
    (
        "module M = struct module N = struct type t = Int val x = 1 end :> sig type t val x : t end val y = N.x end
:> sig val y : Int end",
        "error: the types of a component differ
 --> a.fing:2:4
  |
2 | :> sig val y : Int end
  |    ^^^^^^^^^^^^^^^^^^^
What the module has at `y` has the type `N.t`, and the signature asks for `Int`.
note: this declaration asks for `y`
 --> a.fing:2:8
  |
2 | :> sig val y : Int end
  |        ^^^^^^^^^^^
note: `y` is a value there
 --> a.fing:1:92
  |
1 | module M = struct module N = struct type t = Int val x = 1 end :> sig type t val x : t end val y = N.x end
  |                                                                                            ^^^^^^^^^^^
hint: A value must match its declaration exactly: there is no instantiation, and no subtyping of records.
see docs/errors.md#clash-p-why
",
    ),
    // in two instances of one generative functor
    (
        "module G = gen (X : sig end) => struct type t = Int val x = 1 val f = fun (n : Int) => n end
:> sig type t val x : t val f : t -> Int end
module E = struct end module A = G E module B = G E
val y = A.f B.x",
        "error: types differ
 --> a.fing:4:13
  |
4 | val y = A.f B.x
  |             ^^^
This has the type `B.t`, and the type `A.t` is needed.
hint: A hidden type is equal only to itself, and each `unpack` or use of a generative functor makes new ones. A `fun` that does either is generative.
see docs/errors.md#differ-t-t
",
    ),
    // where one of them is applied to the others
    (
        "module L = struct type len = fun (u : Type) => Int type m = {} type f = {} val x = 1 val g = fun (n : Int) => n end
:> sig type len : Type -> Type type m type f val x : len f val g : len m -> Int end
val y = L.g L.x",
        "error: types differ
 --> a.fing:3:13
  |
3 | val y = L.g L.x
  |             ^^^
This has the type `L.len L.f`, and the type `L.len L.m` is needed.
hint: Nothing is converted. A hidden type is equal only to itself: say what it is with `where type`.
see docs/errors.md#differ-t-t
",
    ),
    // in two instances of a functor that is a parameter
    (
        "signature S = sig type t end
module K = fun (F : fun (X : S) -> sig type u val mk : X.t -> u val un : u -> X.t end) => fun (X : S) => struct
module A = F X module B = F X
val ok = fun (x : X.t) => B.un (A.mk x) end",
        "error: types differ
 --> a.fing:4:32
  |
4 | val ok = fun (x : X.t) => B.un (A.mk x) end
  |                                ^^^^^^^^
This has the type `A.u`, and the type `B.u` is needed.
hint: A hidden type is equal only to itself, and each `unpack` or use of a generative functor makes new ones. A `fun` that does either is generative.
see docs/errors.md#differ-t-t
",
    ),
];

pub(crate) const WITHOUT_NAME: [(&str, &str); 4] = [
    // a later module hides the only one that leads to the type
    (
        "module M = struct type t = Int val x = 1 end :> sig type t val x : t end
val z = M.x
module M = struct type t = Bool end :> sig type t end
val y = z + 1",
        "error: types differ
 --> a.fing:4:9
  |
4 | val y = z + 1
  |         ^
This has the type `?0`, and the type `Int` is needed.
note: `?N` is a hidden type or a type parameter: the one that `check` calls `aN`
hint: Nothing is converted. A hidden type is equal only to itself: say what it is with `where type`.
see docs/errors.md#differ-t-t
",
    ),
    // the module that leads to the type is local
    (
        "module M = let module H = struct type t = Int val x = 3 end :> sig type t val x : t end in struct val y = H.x end end
val y = M.y + 1",
        "error: types differ
 --> a.fing:2:9
  |
2 | val y = M.y + 1
  |         ^^^
This has the type `?0`, and the type `Int` is needed.
note: `?N` is a hidden type or a type parameter: the one that `check` calls `aN`
hint: Nothing is converted. A hidden type is equal only to itself: say what it is with `where type`.
see docs/errors.md#differ-t-t
",
    ),
    // the path inside a module without a name begins with a name in scope, which leads to another type
    (
        "module N = struct type t = Bool end :> sig type t end
module M = struct module N = struct type t = Int val x = 1 end :> sig type t val x : t end val y = N.x end
:> sig val y : Int end",
        "error: the types of a component differ
 --> a.fing:3:4
  |
3 | :> sig val y : Int end
  |    ^^^^^^^^^^^^^^^^^^^
What the module has at `y` has the type `?1`, and the signature asks for `Int`.
note: `?N` is a hidden type or a type parameter: the one that `check` calls `aN`
note: this declaration asks for `y`
 --> a.fing:3:8
  |
3 | :> sig val y : Int end
  |        ^^^^^^^^^^^
note: `y` is a value there
 --> a.fing:2:92
  |
2 | module M = struct module N = struct type t = Int val x = 1 end :> sig type t val x : t end val y = N.x end
  |                                                                                            ^^^^^^^^^^^
hint: A value must match its declaration exactly: there is no instantiation, and no subtyping of records.
see docs/errors.md#clash-p-why
",
    ),
    // the second inclusion hides the name that leads to the first one's type
    (
        "module M = struct
include struct type t = Int val x = 1 end :> sig type t val x : t end
include struct type t = Bool val y = true end :> sig type t val y : t end
end :> sig type t val y : t val x : t end",
        "error: the types of a component differ
 --> a.fing:4:8
  |
4 | end :> sig type t val y : t val x : t end
  |        ^^^^^^^^^^^^^^^^^^^^^^^^^^^^^^^^^^
What the module has at `x` has the type `?0`, and the signature asks for `t`.
note: `?N` is a hidden type or a type parameter: the one that `check` calls `aN`
note: this declaration asks for `x`
 --> a.fing:4:29
  |
4 | end :> sig type t val y : t val x : t end
  |                             ^^^^^^^^^
note: `x` is a value there
 --> a.fing:2:57
  |
2 | include struct type t = Int val x = 1 end :> sig type t val x : t end
  |                                                         ^^^^^^^^^
hint: A value must match its declaration exactly: there is no instantiation, and no subtyping of records.
see docs/errors.md#clash-p-why
",
    ),
];
