// Signatures with their texts.
use crate::literals::KindLit::{Op, Star};
use crate::literals::SigLit::{Fun, Meta, Str, Typ, Val};
use crate::literals::TyLit::{Apply, Closed, Lam, Var};
use crate::literals::{Ex, SigLit, abs};
use fing_text::MemSink;
use omega_kinds::Effect::{self, Impure, Pure};
use sig_scopes::abs_in_scope;
use sig_text::write_elab;
use std::test::Fail;

// {t : [= a : *]}, a being the innermost variable
const OWN_T: SigLit<'static> = Str(&[("t", Typ(Var(0)))]);

// {t : [= (@ a0 int) : *]}, a0 being the only variable
const AT_INT: SigLit<'static> = Str(&[("t", Typ(Apply(&Var(0), &Closed("int"))))]);

// (lam * (@ a0 a1)), a0 being the only variable outside
const ETA_LONG: SigLit<'static> = SigLit::Op(Lam(&Apply(&Var(1), &Var(0))));

// {C : [= ex (*) {t}], G : gen (*) {t} -> ex (*) {t}, t}, each t being the innermost hidden type
const SIGNATURES: SigLit<'static> = Str(&[
    ("C", Meta(&Ex(&[Star], OWN_T))),
    ("G", Fun(Impure, &[Star], &OWN_T, &Ex(&[Star], OWN_T))),
    ("t", Typ(Var(0))),
]);

// Effects and signatures, and the texts of both.
const TEXTS: [(Effect, Ex<'static>, &str); 10] = [
    // a structure of nothing
    (Pure, Ex(&[], Str(&[])), "pure (ex () (str))\n"),
    // below a hidden type, a signature that hides one more
    (
        Impure,
        Ex(&[Star], Str(&[("A", Meta(&Ex(&[Star], OWN_T)))])),
        "impure (ex (*) (str (A (sig (ex (*) (str (t (type a1 *))))))))\n",
    ),
    // a structure sealed by an abstract type
    (
        Pure,
        Ex(
            &[Star],
            Str(&[("M", Str(&[("t", Typ(Var(0))), ("x", Val(Var(0)))]))]),
        ),
        "pure (ex (*) (str (M (str (t (type a0 *)) (x (val a0))))))\n",
    ),
    // a functor whose result hides a type that its parameter determines, and what two applications of it to one module
    // give
    (
        Pure,
        Ex(
            &[Op],
            Str(&[
                ("A", Str(&[("u", Typ(Closed("int")))])),
                (
                    "F",
                    Fun(
                        Pure,
                        &[Star],
                        &Str(&[("u", Typ(Var(0)))]),
                        &Ex(&[], Str(&[("t", Typ(Apply(&Var(1), &Var(0))))])),
                    ),
                ),
                ("P", AT_INT),
                ("Q", AT_INT),
            ]),
        ),
        "pure (ex ((> * *)) (str (A (str (u (type int *)))) (F (fun app (*) (str (u (type a1 *))) (ex () (str (t (type (@ a0 a1) *)))))) (P (str (t (type (@ a0 int) *)))) (Q (str (t (type (@ a0 int) *))))))\n",
    ),
    // a functor whose label comes before that of the type which it takes
    (
        Pure,
        Ex(
            &[Star, Star],
            Str(&[(
                "M",
                Str(&[
                    (
                        "F",
                        Fun(
                            Pure,
                            &[],
                            &Str(&[("u", Typ(Var(1)))]),
                            &Ex(&[], Str(&[("v", Typ(Var(0)))])),
                        ),
                    ),
                    ("t", Typ(Var(1))),
                ]),
            )]),
        ),
        "pure (ex (* *) (str (M (str (F (fun app () (str (u (type a0 *))) (ex () (str (v (type a1 *)))))) (t (type a0 *))))))\n",
    ),
    // a generative functor from nothing to a number
    (
        Pure,
        Ex(
            &[],
            Str(&[(
                "F",
                Fun(
                    Impure,
                    &[],
                    &Str(&[]),
                    &Ex(&[], Str(&[("v", Val(Closed("int")))])),
                ),
            )]),
        ),
        "pure (ex () (str (F (fun gen () (str) (ex () (str (v (val int))))))))\n",
    ),
    // an operator on types, and a value of every type
    (
        Pure,
        Ex(
            &[],
            Str(&[(
                "I",
                Str(&[
                    ("f", SigLit::Op(Closed("(lam * (-> a0 a0))"))),
                    ("g", Val(Closed("(all * (-> a0 a0))"))),
                ]),
            )]),
        ),
        "pure (ex () (str (I (str (f (type (lam * (-> a0 a0)) (> * *))) (g (val (all * (-> a0 a0))))))))\n",
    ),
    // a hidden operator, and one that is equal to it by eta
    (
        Pure,
        Ex(
            &[Op],
            Str(&[
                ("F", Str(&[("f", ETA_LONG)])),
                ("G", Str(&[("u", ETA_LONG)])),
            ]),
        ),
        "pure (ex ((> * *)) (str (F (str (f (type (lam * (@ a0 a1)) (> * *))))) (G (str (u (type (lam * (@ a0 a1)) (> * *)))))))\n",
    ),
    // signatures within signatures, and a module of the last one
    (
        Pure,
        Ex(
            &[Star],
            Str(&[
                ("A", Meta(&Ex(&[Star], OWN_T))),
                ("B", Meta(&Ex(&[Star], SIGNATURES))),
                ("M", SIGNATURES),
            ]),
        ),
        "pure (ex (*) (str (A (sig (ex (*) (str (t (type a1 *)))))) (B (sig (ex (*) (str (C (sig (ex (*) (str (t (type a2 *)))))) (G (fun gen (*) (str (t (type a2 *))) (ex (*) (str (t (type a3 *)))))) (t (type a1 *)))))) (M (str (C (sig (ex (*) (str (t (type a1 *)))))) (G (fun gen (*) (str (t (type a1 *))) (ex (*) (str (t (type a2 *)))))) (t (type a0 *))))))\n",
    ),
    // a module, what a package of it is unpacked to, and the package, whose type is of two types and a value of the first
    (
        Impure,
        Ex(
            &[Star, Star],
            Str(&[
                (
                    "A",
                    Str(&[
                        ("t", Typ(Closed("int"))),
                        ("u", Typ(Closed("bool"))),
                        ("x", Val(Closed("int"))),
                    ]),
                ),
                (
                    "B",
                    Str(&[("t", Typ(Var(1))), ("u", Typ(Var(0))), ("x", Val(Var(1)))]),
                ),
                (
                    "p",
                    Val(Closed(
                        "(some * (some * (rec (t (rec (.typ (all (> * *) (-> (@ a2 a0) (@ a2 a0)))))) (u (rec (.typ (all (> * *) (-> (@ a2 a1) (@ a2 a1)))))) (x (rec (.val a0))))))",
                    )),
                ),
            ]),
        ),
        "impure (ex (* *) (str (A (str (t (type int *)) (u (type bool *)) (x (val int)))) (B (str (t (type a0 *)) (u (type a1 *)) (x (val a0)))) (p (val (some * (some * (rec (t (rec (.typ (all (> * *) (-> (@ a4 a2) (@ a4 a2)))))) (u (rec (.typ (all (> * *) (-> (@ a4 a3) (@ a4 a3)))))) (x (rec (.val a2))))))))))\n",
    ),
];

#[test]
fn texts(rt: HostRuntime) -> Result<(), Fail> {
    for (effect, literal, text) in &TEXTS {
        let found = abs(rt.alloc(), literal)?;
        assert!(rt; abs_in_scope(0, &found), "at {text}");
        let mut sink = MemSink::new(rt.alloc(), 600, 64, Vec::new(rt.alloc()))?;
        assert!(rt; write_elab(&mut sink, *effect, &found).is_ok(), "at {text}");
        assert!(rt; sink.bytes() == text.as_bytes(), "at {text}");
    }
    Ok(())
}
