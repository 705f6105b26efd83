// Signatures in the notation of the literature, written out by hand from the rules of the notation.

pub(crate) const HIDING: [(&str, &str); 7] = [
    ("", "P {}\n"),
    (
        "module C = struct type c = Int val start = 0 val next = fun (x : Int) => x + 1 end
:> sig type c val start : c val next : c -> c end
val n = C.next C.start",
        "P ∃α:⋆.
{C : {c : [= α : ⋆], start : [α], next : [α → α]}, n : [α]}
",
    ),
    (
        "module F = fun (X : sig type t val x : t end) => struct type u = X.t val y = X.x end :> sig type u val y : u end
module M = F (struct type t = Bool val x = true end)",
        "P ∃α:(⋆ → ⋆).
{
  F : ∀β:⋆. {t : [= β : ⋆], x : [β]} →P {u : [= α β : ⋆], y : [α β]},
  M : {u : [= α bool : ⋆], y : [α bool]}
}
",
    ),
    (
        "module G = gen (X : sig end) => struct type t = Int end :> sig type t end",
        "P {G : {} →I ∃α:⋆. {t : [= α : ⋆]}}\n",
    ),
    (
        "signature S = sig type t val x : t end
val p = pack struct type t = Int val x = 1 end : S
module M = unpack p : S",
        "I ∃α:⋆.
{
  S : [= ∃β:⋆. {t : [= β : ⋆], x : [β]}],
  p : [∃β:⋆. {t : {.typ : ∀γ:(⋆ → ⋆). γ β → γ β}, x : {.val : β}}],
  M : {t : [= α : ⋆], x : [α]}
}
",
    ),
    (
        "module M = struct type t = fun (a : Type) => a type u = Int end :> sig type t : Type -> Type type u end",
        "P ∃α:(⋆ → ⋆) β:⋆.
{M : {t : [= α : ⋆ → ⋆], u : [= β : ⋆]}}
",
    ),
    (
        "module A = fun (X : sig end) => fun (Y : sig end) => struct end
module H = fun (F : fun (X : sig end) => sig end) => struct end",
        "P {A : {} →P {} →P {}, H : ({} →P {}) →P {}}\n",
    ),
];

pub(crate) const TYPES: [(&str, &str); 6] = [
    (
        "type k = fun (f : Type -> Type) => f (f Int)
type p = fun (t : Type) => {x : t, y : Int} -> Bool
val id = fun [b : Type] => fun (x : b) => x
val twice = fun (f : Int -> Int) => fun (x : Int) => f (f x)",
        "P {
  k : [= λα:(⋆ → ⋆). α (α int) : (⋆ → ⋆) → ⋆],
  p : [= λα:⋆. {x : α, y : int} → bool : ⋆ → ⋆],
  id : [∀α:⋆. α → α],
  twice : [(int → int) → int → int]
}
",
    ),
    (
        "data list = case {nil : {}, cons : {head : Int, tail : list}}",
        "P {list : [= μα. ⟨cons : {head : int, tail : α}, nil : {}⟩ : ⋆]}\n",
    ),
    (
        "val f = fun (g : [a : Type] -> a -> Text) => \"x\"",
        "P {f : [(∀α:⋆. α → text) → text]}\n",
    ),
    (
        "val first = fun (x : {left : Int, right : Int}) => x#left
val second = fun (x : {left : Int, right : Int}) => x#right
module Inner = struct val number = 1 end",
        "P {
  first : [{left : int, right : int} → int],
  second : [{left : int, right : int} → int],
  Inner : {number : [int]}
}
",
    ),
    (
        "val f = fun (a : {first_component : Int, second_component : Int}) =>
fun (b : {first_component : Int, second_component : Int}) =>
fun (c : {first_component : Int, second_component : Int}) => true",
        "P {
  f : [{first_component : int, second_component : int} →
    {first_component : int, second_component : int} →
    {first_component : int, second_component : int} →
    bool]
}
",
    ),
    (
        "type t = fun (a : Type) => fun (a : Type) => fun (a : Type) => fun (a : Type) => fun (a : Type) =>
fun (a : Type) => fun (a : Type) => fun (a : Type) => fun (a : Type) => fun (a : Type) => fun (a : Type) =>
fun (a : Type) => fun (a : Type) => fun (a : Type) => fun (a : Type) => fun (a : Type) => fun (a : Type) =>
fun (a : Type) => fun (a : Type) => fun (a : Type) => fun (b : Type) => fun (c : Type) => c",
        "P {
  t : [= λα:⋆. λβ:⋆. λγ:⋆. λδ:⋆. λε:⋆. λζ:⋆. λη:⋆. λθ:⋆. λι:⋆. λκ:⋆. λν:⋆. λξ:⋆. λπ:⋆. λρ:⋆. λσ:⋆. \
λτ:⋆. λυ:⋆. λφ:⋆. λχ:⋆. λψ:⋆. λω:⋆. λα₁:⋆. α₁ : \
⋆ → ⋆ → ⋆ → ⋆ → ⋆ → ⋆ → ⋆ → ⋆ → ⋆ → ⋆ → ⋆ → ⋆ → ⋆ → ⋆ → ⋆ → ⋆ → ⋆ → ⋆ → ⋆ → ⋆ → ⋆ → ⋆ → ⋆]
}
",
    ),
];

pub(crate) const IN_LATEX: [(&str, &str); 6] = [
    (
        "",
        "\\begin{array}{l}
\\mathsf{P}\\ \\{\\}
\\end{array}
",
    ),
    (
        "module C = struct type c = Int val next = fun (x : Int) => x end :> sig type c val next : c -> Int end",
        "\\begin{array}{l}
\\mathsf{P}\\ \\exists \\alpha{:}\\star.\\\\{}
\\{\\mathit{C} : \\{\\mathit{c} : [= \\alpha : \\star], \\mathit{next} : [\\alpha \\to \\mathsf{int}]\\}\\}
\\end{array}
",
    ),
    (
        "module F = fun (X : sig end) => struct end module G = gen (X : sig end) => struct type t = Int end :> sig type t end",
        "\\begin{array}{l}
\\mathsf{P}\\ \\{\\mathit{F} : \\{\\} \\to_{\\mathsf{P}} \\{\\}, \
\\mathit{G} : \\{\\} \\to_{\\mathsf{I}} \\exists \\alpha{:}\\star.\\ \\{\\mathit{t} : [= \\alpha : \\star]\\}\\}
\\end{array}
",
    ),
    (
        "val first = fun (x : {left : Int, right : Int}) => x#left
val second = fun (x : {left : Int, right : Int}) => x#right
module Inner = struct val number = 1 end",
        "\\begin{array}{l}
\\mathsf{P}\\ \\{\\\\{}
\\quad \\mathit{first} : [\\{\\mathit{left} : \\mathsf{int}, \\mathit{right} : \\mathsf{int}\\} \\to \\mathsf{int}],\\\\{}
\\quad \\mathit{second} : [\\{\\mathit{left} : \\mathsf{int}, \\mathit{right} : \\mathsf{int}\\} \\to \\mathsf{int}],\\\\{}
\\quad \\mathit{Inner} : \\{\\mathit{number} : [\\mathsf{int}]\\}\\\\{}
\\}
\\end{array}
",
    ),
    (
        "type s_1 = case {none' : Int}",
        "\\begin{array}{l}
\\mathsf{P}\\ \\{\\mathit{s\\_1} : [= \\langle\\mathit{none'} : \\mathsf{int}\\rangle : \\star]\\}
\\end{array}
",
    ),
    (
        "type k = fun (f : Type -> Type) => f Int",
        "\\begin{array}{l}
\\mathsf{P}\\ \\{\\mathit{k} : [= \\lambda \\alpha{:}(\\star \\to \\star).\\ \\alpha\\ \\mathsf{int} : (\\star \\to \\star) \\to \\star]\\}
\\end{array}
",
    ),
];
