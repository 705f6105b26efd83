// Derivations of programs, written by hand from the figures of the rules and from the form of pages.
use crate::View;
use crate::tests::shown;
use show_figures::Form;
use std::test::Fail;

pub(crate) const TREES: [(&str, &str); 10] = [
    // arithmetic
    (
        "val n = 2 + 3",
        "(program) :P {n : [int]}
  (bind_val) `val n = 2 + 3` binds n :P [int]
    (exp_ops) `2 + 3` : int
      (exp_int) `2` : int
      (exp_int) `3` : int
The rules of phrases are constructors in crates/elab_judgments/specs/Judgments/Meaning.antt; docs/language has their figures.
",
    ),
    // types in a module that is sealed
    (
        "module M = struct type t = Int end :> sig type t end",
        "(program) :P ∃α:⋆. {M : {t : [= α : ⋆]}}
  (bind_module) `module M = struct type t = Int end :> sig type t end` binds M :P ∃α:⋆. {t : [= α : ⋆]}
    (mod_project) `struct type t = Int end :> sig type t end` :P ∃α:⋆. {t : [= α : ⋆]}
      (mod_struct) `struct type t = Int end :> sig type t end` :P ∃α:⋆. {%0 : {t : [= α : ⋆]}, %1 : {t : [= int : ⋆]}}
        (bind_module) `struct type t = Int end :> sig type t end` binds %1 :P {t : [= int : ⋆]}
          (mod_struct) `struct type t = Int end` :P {t : [= int : ⋆]}
            (bind_ty) `type t = Int` binds t :P [= int : ⋆]
              (ty_int) `Int` ⇝ int : ⋆
        (bind_module) `struct type t = Int end :> sig type t end` binds %0 :P ∃α:⋆. {t : [= α : ⋆]}
          (mod_seal) `struct type t = Int end :> sig type t end` :P ∃α:⋆. {t : [= α : ⋆]}
            (sig_decls) `sig type t end` ⇝ ∃α:⋆. {t : [= α : ⋆]}
              (decl_of) `type t` ⇝ ∃α:⋆. {t : [= α : ⋆]}
The rules of phrases are constructors in crates/elab_judgments/specs/Judgments/Meaning.antt; docs/language has their figures.
",
    ),
    // an applicative functor, and its application; its parameter is in scope in its body
    (
        "module F = fun (X : sig type t end) => struct type u = X.t end
module N = struct type t = Int end
module M = F N",
        "(program) :P {F : ∀α:⋆. {t : [= α : ⋆]} →P {u : [= α : ⋆]}, M : {u : [= int : ⋆]}, N : {t : [= int : ⋆]}}
  (bind_module) `module F = fun (X : sig type t end) => struct type u = X.t e ..` binds F :P ∀α:⋆. {t : [= α : ⋆]} →P {u : [= α : ⋆]}
    (mod_applicative) `fun (X : sig type t end) => struct type u = X.t end` :P ∀α:⋆. {t : [= α : ⋆]} →P {u : [= α : ⋆]}
      (sig_decls) `sig type t end` ⇝ ∃α:⋆. {t : [= α : ⋆]}
        (decl_of) `type t` ⇝ ∃α:⋆. {t : [= α : ⋆]}
      (mod_struct) `struct type u = X.t end` :P {u : [= α : ⋆]}
        (bind_ty) `type u = X.t` binds u :P [= α : ⋆]
          (ty_path) `X.t` ⇝ α : ⋆
            (mod_project) `X.t` :P [= α : ⋆]
              (mod_name) `X` :P {t : [= α : ⋆]}
  (bind_module) `module N = struct type t = Int end` binds N :P {t : [= int : ⋆]}
    (mod_struct) `struct type t = Int end` :P {t : [= int : ⋆]}
      (bind_ty) `type t = Int` binds t :P [= int : ⋆]
        (ty_int) `Int` ⇝ int : ⋆
  (bind_module) `module M = F N` binds M :P {u : [= int : ⋆]}
    (mod_project) `F N` :P {u : [= int : ⋆]}
      (mod_struct) `F N` :P {%0 : {u : [= int : ⋆]}, %1 : ∀α:⋆. {t : [= α : ⋆]} →P {u : [= α : ⋆]}, %2 : {t : [= int : ⋆]}}
        (bind_module) `F N` binds %1 :P ∀α:⋆. {t : [= α : ⋆]} →P {u : [= α : ⋆]}
          (mod_name) `F` :P ∀α:⋆. {t : [= α : ⋆]} →P {u : [= α : ⋆]}
        (bind_module) `F N` binds %2 :P {t : [= int : ⋆]}
          (mod_name) `N` :P {t : [= int : ⋆]}
        (bind_module) `F N` binds %0 :P {u : [= int : ⋆]}
          (mod_apply) `F N` :P {u : [= int : ⋆]}
The rules of phrases are constructors in crates/elab_judgments/specs/Judgments/Meaning.antt; docs/language has their figures.
",
    ),
    // a generative functor, whose application is impure
    (
        "module G = gen (X : sig end) => struct end
module E = struct end
module H = G E",
        "(program) :I {E : {}, G : {} →I {}, H : {}}
  (bind_module) `module G = gen (X : sig end) => struct end` binds G :P {} →I {}
    (mod_generative) `gen (X : sig end) => struct end` :P {} →I {}
      (sig_decls) `sig end` ⇝ {}
      (mod_struct) `struct end` :P {}
  (bind_module) `module E = struct end` binds E :P {}
    (mod_struct) `struct end` :P {}
  (bind_module) `module H = G E` binds H :I {}
    (mod_project) `G E` :I {}
      (mod_struct) `G E` :I {%0 : {}, %1 : {} →I {}, %2 : {}}
        (bind_module) `G E` binds %1 :P {} →I {}
          (mod_name) `G` :P {} →I {}
        (bind_module) `G E` binds %2 :P {}
          (mod_name) `E` :P {}
        (bind_module) `G E` binds %0 :I {}
          (mod_apply) `G E` :I {}
The rules of phrases are constructors in crates/elab_judgments/specs/Judgments/Meaning.antt; docs/language has their figures.
",
    ),
    // an inclusion
    (
        "include struct val x = 1 end
val y = x",
        "(program) :P {x : [int], y : [int]}
  (next_include) `struct val x = 1 end` :P {x : [int]}
    (mod_struct) `struct val x = 1 end` :P {x : [int]}
      (bind_val) `val x = 1` binds x :P [int]
        (exp_int) `1` : int
  (bind_val) `val y = x` binds y :P [int]
    (exp_path) `x` : int
      (mod_name) `x` :P [int]
The rules of phrases are constructors in crates/elab_judgments/specs/Judgments/Meaning.antt; docs/language has their figures.
",
    ),
    // a recursive function, whose name and whose parameter are in scope in its body
    (
        "val f = fix f (n : Int) : Int => f n",
        "(program) :P {f : [int → int]}
  (bind_val) `val f = fix f (n : Int) : Int => f n` binds f :P [int → int]
    (exp_fix) `fix f (n : Int) : Int => f n` : int → int
      (ty_int) `Int` ⇝ int : ⋆
      (ty_int) `Int` ⇝ int : ⋆
      (exp_apply) `f n` : int
        (exp_path) `f` : int → int
          (mod_name) `f` :P [int → int]
        (exp_path) `n` : int
          (mod_name) `n` :P [int]
The rules of phrases are constructors in crates/elab_judgments/specs/Judgments/Meaning.antt; docs/language has their figures.
",
    ),
    // a case, in whose branches the value of the label is in scope
    (
        "val y = case inj a 1 : case {a : Int} : Int of {a (n) => n}",
        "(program) :P {y : [int]}
  (bind_val) `val y = case inj a 1 : case {a : Int} : Int of {a (n) => n}` binds y :P [int]
    (exp_case) `case inj a 1 : case {a : Int} : Int of {a (n) => n}` : int
      (exp_inj) `inj a 1 : case {a : Int}` : ⟨a : int⟩
        (exp_int) `1` : int
        (ty_sum) `case {a : Int}` ⇝ ⟨a : int⟩ : ⋆
          (ty_int) `Int` ⇝ int : ⋆
      (ty_int) `Int` ⇝ int : ⋆
      (exp_path) `n` : int
        (mod_name) `n` :P [int]
The rules of phrases are constructors in crates/elab_judgments/specs/Judgments/Meaning.antt; docs/language has their figures.
",
    ),
    // a polymorphic function and its instance
    (
        "val id = fun [a : Type] => fun (x : a) => x
val n = id [Int] 1",
        "(program) :P {id : [∀α:⋆. α → α], n : [int]}
  (bind_val) `val id = fun [a : Type] => fun (x : a) => x` binds id :P [∀α:⋆. α → α]
    (exp_ty_lam) `fun [a : Type] => fun (x : a) => x` : ∀α:⋆. α → α
      (exp_lam) `fun (x : a) => x` : α → α
        (ty_path) `a` ⇝ α : ⋆
          (mod_name) `a` :P [= α : ⋆]
        (exp_path) `x` : α
          (mod_name) `x` :P [α]
  (bind_val) `val n = id [Int] 1` binds n :P [int]
    (exp_apply) `id [Int] 1` : int
      (exp_path) `id` : ∀α:⋆. α → α
        (mod_name) `id` :P [∀α:⋆. α → α]
      (ty_int) `Int` ⇝ int : ⋆
      (exp_int) `1` : int
The rules of phrases are constructors in crates/elab_judgments/specs/Judgments/Meaning.antt; docs/language has their figures.
",
    ),
    // a functor with the keyword `fun` that an impure body makes generative
    (
        "module G = gen (X : sig end) => struct end
module K = fun (X : sig end) => G X",
        "(program) :P {G : {} →I {}, K : {} →I {}}
  (bind_module) `module G = gen (X : sig end) => struct end` binds G :P {} →I {}
    (mod_generative) `gen (X : sig end) => struct end` :P {} →I {}
      (sig_decls) `sig end` ⇝ {}
      (mod_struct) `struct end` :P {}
  (bind_module) `module K = fun (X : sig end) => G X` binds K :P {} →I {}
    (mod_generative) `fun (X : sig end) => G X` :P {} →I {}
      (sig_decls) `sig end` ⇝ {}
      (mod_project) `G X` :I {}
        (mod_struct) `G X` :I {%0 : {}, %1 : {} →I {}, %2 : {}}
          (bind_module) `G X` binds %1 :P {} →I {}
            (mod_name) `G` :P {} →I {}
          (bind_module) `G X` binds %2 :P {}
            (mod_name) `X` :P {}
          (bind_module) `G X` binds %0 :I {}
            (mod_apply) `G X` :I {}
The rules of phrases are constructors in crates/elab_judgments/specs/Judgments/Meaning.antt; docs/language has their figures.
",
    ),
    // a package, and its opening
    (
        "signature S = sig type t end
val p = pack struct type t = Int end : S
module U = unpack p : S",
        "(program) :I ∃α:⋆. {
      S : [= ∃β:⋆. {t : [= β : ⋆]}],
      U : {t : [= α : ⋆]},
      p : [∃β:⋆. {t : {.typ : ∀γ:(⋆ → ⋆). γ β → γ β}}]
    }
  (bind_signature) `signature S = sig type t end` binds S :P [= ∃α:⋆. {t : [= α : ⋆]}]
    (sig_decls) `sig type t end` ⇝ ∃α:⋆. {t : [= α : ⋆]}
      (decl_of) `type t` ⇝ ∃α:⋆. {t : [= α : ⋆]}
  (bind_val) `val p = pack struct type t = Int end : S` binds p :P [∃α:⋆. {t : {.typ : ∀β:(⋆ → ⋆). β α → β α}}]
    (exp_path) `pack struct type t = Int end : S` : ∃α:⋆. {t : {.typ : ∀β:(⋆ → ⋆). β α → β α}}
      (mod_project) `pack struct type t = Int end : S` :P [∃α:⋆. {t : {.typ : ∀β:(⋆ → ⋆). β α → β α}}]
        (mod_struct) `pack struct type t = Int end : S` :P {%0 : [∃α:⋆. {t : {.typ : ∀β:(⋆ → ⋆). β α → β α}}], %1 : {t : [= int : ⋆]}}
          (bind_module) `pack struct type t = Int end : S` binds %1 :P {t : [= int : ⋆]}
            (mod_struct) `struct type t = Int end` :P {t : [= int : ⋆]}
              (bind_ty) `type t = Int` binds t :P [= int : ⋆]
                (ty_int) `Int` ⇝ int : ⋆
          (bind_val) `pack struct type t = Int end : S` binds %0 :P [∃α:⋆. {t : {.typ : ∀β:(⋆ → ⋆). β α → β α}}]
            (exp_pack) `pack struct type t = Int end : S` : ∃α:⋆. {t : {.typ : ∀β:(⋆ → ⋆). β α → β α}}
              (sig_path) `S` ⇝ ∃α:⋆. {t : [= α : ⋆]}
                (mod_name) `S` :P [= ∃α:⋆. {t : [= α : ⋆]}]
  (bind_module) `module U = unpack p : S` binds U :I ∃α:⋆. {t : [= α : ⋆]}
    (mod_unpack) `unpack p : S` :I ∃α:⋆. {t : [= α : ⋆]}
      (exp_path) `p` : ∃α:⋆. {t : {.typ : ∀β:(⋆ → ⋆). β α → β α}}
        (mod_name) `p` :P [∃α:⋆. {t : {.typ : ∀β:(⋆ → ⋆). β α → β α}}]
      (sig_path) `S` ⇝ ∃α:⋆. {t : [= α : ⋆]}
        (mod_name) `S` :P [= ∃α:⋆. {t : [= α : ⋆]}]
The rules of phrases are constructors in crates/elab_judgments/specs/Judgments/Meaning.antt; docs/language has their figures.
",
    ),
];

pub(crate) const IN_LATEX: [(&str, &str); 1] = [(
    "val n = 2 + 3",
    "% for math mode, with \\usepackage{proof}
% the rules of phrases are constructors in crates/elab_judgments/specs/Judgments/Meaning.antt; docs/language has their figures
\\infer[\\mathsf{program}]{\\begin{array}{l}
:_{\\mathsf{P}}\\ \\{\\mathit{n} : [\\mathsf{int}]\\}
\\end{array}}{
\\infer[\\mathsf{bind\\_val}]{\\texttt{val\\ n\\ =\\ 2\\ +\\ 3}\\ \\begin{array}{l}
\\mathsf{binds}\\ \\mathit{n}\\ :_{\\mathsf{P}}\\ [\\mathsf{int}]
\\end{array}}{
\\infer[\\mathsf{exp\\_ops}]{\\texttt{2\\ +\\ 3}\\ \\begin{array}{l}
: \\mathsf{int}
\\end{array}}{
\\infer[\\mathsf{exp\\_int}]{\\texttt{2}\\ \\begin{array}{l}
: \\mathsf{int}
\\end{array}}{}
&
\\infer[\\mathsf{exp\\_int}]{\\texttt{3}\\ \\begin{array}{l}
: \\mathsf{int}
\\end{array}}{}
}
}
}
",
)];

pub(crate) const IN_HTML: [(&str, &str); 1] = [(
    "val b = 2 < 3",
    "<!DOCTYPE html>
<html lang=\"en\">
<head>
<meta charset=\"utf-8\">
<title>Derivation of a.fing</title>
<style>
body { font-family: sans-serif; margin: 1em }
details, .leaf { margin-left: 1.5em }
summary, .leaf { padding: 0.1em 0 }
code { background: #eee }
span { display: inline-block; font-family: monospace; vertical-align: top; white-space: pre }
</style>
</head>
<body>
<p>Each rule leads to its figure. The rules of phrases are constructors in \
<a href=\"crates/elab_judgments/specs/Judgments/Meaning.antt\">crates/elab_judgments/specs/Judgments/Meaning.antt</a>.</p>
<details open><summary><a href=\"docs/language/programs.md#meaning\">program</a> <span>:P {b : [bool]}</span></summary>
<details open><summary><a href=\"docs/language/modules.md#bindings\">bind_val</a> \
<code>val b = 2 &lt; 3</code> <span>binds b :P [bool]</span></summary>
<details open><summary><a href=\"docs/language/core.md#expressions-of-the-source\">exp_ops</a> \
<code>2 &lt; 3</code> <span>: bool</span></summary>
<div class=\"leaf\"><a href=\"docs/language/core.md#expressions-of-the-source\">exp_int</a> \
<code>2</code> <span>: int</span></div>
<div class=\"leaf\"><a href=\"docs/language/core.md#expressions-of-the-source\">exp_int</a> \
<code>3</code> <span>: int</span></div>
</details>
</details>
</details>
</body>
</html>
",
)];

// Records in one another, 200 deep. The program and the binding stand round them, so that 63 of them have lines.
#[test]
fn a_deep_program(rt: HostRuntime) -> Result<(), Fail> {
    let alloc = rt.alloc();
    let opens = "{a = ".repeat(alloc, 200)?;
    let closes = "}".repeat(alloc, 200)?;
    let mut source = String::new(alloc);
    source.push_str("val x = ")?;
    source.push_str(&opens)?;
    source.push_str("1")?;
    source.push_str(&closes)?;
    let found = shown(&rt, alloc, &source, View::Derivation(Form::Text))?;
    let text = String::from_utf8_lossy(alloc, &found.text)?;
    let lines = text.as_str().matches("(exp_fields)").count();
    assert_eq!(&rt; lines, 63);
    assert!(&rt;
        text.as_str()
            .contains("Phrases are left out: those in more than 64 others")
    );
    Ok(())
}
