// Terms in the notation of the literature, written out by hand from the rules of the notation and the texts of `emit`.

pub(crate) const TERMS: [(&str, &str); 8] = [
    ("", "{}\n"),
    (
        "val x = 1",
        "let x0 : {.val : int} = {.val = 1} in {x = x0}\n",
    ),
    (
        "val f = fun (x : Int) => x + 1",
        "let x0 : {.val : int → int} = {.val = λx0:int. {.val = x0}.val + 1} in {f = x0}\n",
    ),
    (
        "val f = fix f (n : Int) : Int => if n < 1 then ~2 else f (n - 1)",
        "let x0 : {.val : int → int} = {
  .val = fix x0 (x1 : int) : int.
    if {.val = x1}.val < 1 then -2 else {.val = x0}.val ({.val = x1}.val - 1)
} in
{f = x0}
",
    ),
    (
        "val o = inj some 3 : case {none : {}, some : Int}
val y = case o : Int of {none (u) => 0, some (n) => n}",
        "let x0 : {.val : ⟨none : {}, some : int⟩} = {.val = inj some 3 as ⟨none : {}, some : int⟩} in
let x1 : {.val : int} = {.val = case x0.val : int of {none x1 ⇒ 0, some x1 ⇒ {.val = x1}.val}} in
{o = x0, y = x1}
",
    ),
    (
        "data t = {} val x = unroll (roll {} : t)",
        "let x0 : {.typ : ∀α:(⋆ → ⋆). α (μβ. {}) → α (μβ. {})} = {.typ = Λα:(⋆ → ⋆). λx0:α (μβ. {}). x0} in
let x1 : {.val : {}} = {.val = unroll (roll {} as μα. {})} in
{t = x0, x = x1}
",
    ),
    (
        "val s = \"a\\n\\\"b\" val id = fun [a : Type] => fun (x : a) => x val y = id [Int] 1",
        "let x0 : {.val : text} = {.val = \"a\\n\\\"b\"} in
let x1 : {.val : ∀α:⋆. α → α} = {.val = Λα:⋆. λx1:α. {.val = x1}.val} in
let x2 : {.val : int} = {.val = x1.val [int] 1} in
{id = x1, s = x0, y = x2}
",
    ),
    (
        "val b = (1 + 2) * 3 == 4 val r = {a = true}#a",
        "let x0 : {.val : bool} = {.val = ((1 + 2) * 3) == 4} in
let x1 : {.val : bool} = {.val = {a = true}.a} in
{b = x0, r = x1}
",
    ),
];

// The module is the opened package, whose term binds the structure and then the package.
pub(crate) const PACKAGE: [(&str, &str); 1] = [(
    "module M = unpack (pack struct type t = Int end : sig type t end) : sig type t end",
    "unpack ⟨α, x0⟩ = (let x0 : {t : {.typ : ∀α:(⋆ → ⋆). α int → α int}} =
  let x0 : {.typ : ∀α:(⋆ → ⋆). α int → α int} = {.typ = Λα:(⋆ → ⋆). λx0:α int. x0} in {t = x0} in
let x1 : {.val : ∃α:⋆. {t : {.typ : ∀β:(⋆ → ⋆). β α → β α}}} = {
  .val = pack ⟨
    int,
    let x1 : {t : {.typ : ∀α:(⋆ → ⋆). α int → α int}} = x0 in
    {t = let x2 : {.typ : ∀α:(⋆ → ⋆). α int → α int} = x1.t in x2}
  ⟩ as ∃α:⋆. {t : {.typ : ∀β:(⋆ → ⋆). β α → β α}}
} in
{%0 = x1, %1 = x0}).%0.val in
pack ⟨α, {M = x0}⟩ as ∃β:⋆. {M : {t : {.typ : ∀γ:(⋆ → ⋆). γ β → γ β}}}
",
)];

pub(crate) const IN_LATEX: [(&str, &str); 2] = [
    (
        "val x = 1",
        "\\begin{array}{l}
\\mathsf{let}\\ x_{0} : \\{\\mathsf{.val} : \\mathsf{int}\\} = \\{\\mathsf{.val} = 1\\}\\ \\mathsf{in}\\ \\{\\mathit{x} = x_{0}\\}
\\end{array}
",
    ),
    (
        "val s = \"a_b\\\\\" val y = 1 % 2",
        "\\begin{array}{l}
\\mathsf{let}\\ x_{0} : \\{\\mathsf{.val} : \\mathsf{text}\\} = \
\\{\\mathsf{.val} = \\texttt{\"a\\_b\\textbackslash{}\\textbackslash{}\"}\\}\\ \\mathsf{in}\\\\{}
\\mathsf{let}\\ x_{1} : \\{\\mathsf{.val} : \\mathsf{int}\\} = \\{\\mathsf{.val} = 1 \\% 2\\}\\ \\mathsf{in}\\\\{}
\\{\\mathit{s} = x_{0}, \\mathit{y} = x_{1}\\}
\\end{array}
",
    ),
];
