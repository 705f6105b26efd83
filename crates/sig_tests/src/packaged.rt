// Encodings and package types of worked signatures, by hand from the rules. The two of each pair match each other: they
// differ in the order in which types are hidden, or in which of two types is the one that is hidden.
use crate::literals::KindLit::{Star, Two};
use crate::literals::SigLit::{Fun, Str, Typ, Val};
use crate::literals::TyLit::{Apply, Lam, Var};
use crate::literals::{Ex, SigLit, abs};
use crate::term_texts::type_has_text;
use omega_kinds::Effect::Pure;
use packages::pack_type;
use semantic_sigs::encode;
use std::alloc::Global;
use std::test::Fail;
use type_normal::{plain, same};

// Whether the encoding of the signature has this text.
fn is_encoded(alloc: Global, literal: &Ex<'_>, text: &str) -> Result<bool, Fail> {
    let found = encode(alloc, &abs(alloc, literal)?)?;
    type_has_text(alloc, &found, text)
}

// Whether the package type of the signature has this text.
fn is_packaged(alloc: Global, literal: &Ex<'_>, text: &str) -> Result<bool, Fail> {
    let found = pack_type(alloc, &abs(alloc, literal)?)?;
    type_has_text(alloc, plain(&found.ty), text)
}

// Whether the package types of two signatures are the same.
fn are_packaged_alike(alloc: Global, left: &Ex<'_>, right: &Ex<'_>) -> Result<bool, Fail> {
    let left = pack_type(alloc, &abs(alloc, left)?)?;
    let right = pack_type(alloc, &abs(alloc, right)?)?;
    Ok(same(&left.ty, &right.ty))
}

// sig type t  type u  val x : t  val y : u end
const T_FIRST: Ex<'static> = Ex(
    &[Star, Star],
    Str(&[
        ("t", Typ(Var(1))),
        ("u", Typ(Var(0))),
        ("x", Val(Var(1))),
        ("y", Val(Var(0))),
    ]),
);

// sig type u  type t  val x : t  val y : u end
const U_FIRST: Ex<'static> = Ex(
    &[Star, Star],
    Str(&[
        ("t", Typ(Var(0))),
        ("u", Typ(Var(1))),
        ("x", Val(Var(0))),
        ("y", Val(Var(1))),
    ]),
);

// sig type t  type u  val x : t end
const T_THEN_U: Ex<'static> = Ex(
    &[Star, Star],
    Str(&[("t", Typ(Var(1))), ("u", Typ(Var(0))), ("x", Val(Var(1)))]),
);

// sig type u  type t  val x : t end
const U_THEN_T: Ex<'static> = Ex(
    &[Star, Star],
    Str(&[("t", Typ(Var(0))), ("u", Typ(Var(1))), ("x", Val(Var(0)))]),
);

// the hidden operator as a type part, and its flip, which takes its arguments the other way round
const SAME: SigLit<'static> = SigLit::Two(Lam(&Lam(&Apply(&Apply(&Var(2), &Var(1)), &Var(0)))));

const FLIPPED: SigLit<'static> = SigLit::Two(Lam(&Lam(&Apply(&Apply(&Var(2), &Var(0)), &Var(1)))));

// sig type f : Type -> Type -> Type  type g = fun (a : Type) => fun (b : Type) => f b a end
const HIDES_F: Ex<'static> = Ex(&[Two], Str(&[("f", SAME), ("g", FLIPPED)]));

// sig type g : Type -> Type -> Type  type f = fun (a : Type) => fun (b : Type) => g b a end
const HIDES_G: Ex<'static> = Ex(&[Two], Str(&[("f", FLIPPED), ("g", SAME)]));

// the type of a functor's result: the hidden operator at the first type of the parameter, and at the second
const RESULT: Ex<'static> = Ex(
    &[],
    Str(&[("t", Typ(Apply(&Apply(&Var(2), &Var(1)), &Var(0))))]),
);

// sig module F : fun (X : sig type a  type b end) => sig type t end end
const A_FIRST: Ex<'static> = Ex(
    &[Two],
    Str(&[(
        "F",
        Fun(
            Pure,
            &[Star, Star],
            &Str(&[("a", Typ(Var(1))), ("b", Typ(Var(0)))]),
            &RESULT,
        ),
    )]),
);

// sig module F : fun (X : sig type b  type a end) => sig type t end end
const B_FIRST: Ex<'static> = Ex(
    &[Two],
    Str(&[(
        "F",
        Fun(
            Pure,
            &[Star, Star],
            &Str(&[("a", Typ(Var(0))), ("b", Typ(Var(1)))]),
            &RESULT,
        ),
    )]),
);

// The text of the encoding of `T_FIRST`, and of the package types of `T_FIRST` and of `U_FIRST`.
const HIDES_T_AND_U: &str =
    "(some * (some * (rec (t (rec (.typ (all (> * *) (-> (@ a2 a0) (@ a2 a0)))))) (u (rec (.typ (all (> * *) (-> (@ a2 a1) (@ a2 a1)))))) (x (rec (.val a0))) (y (rec (.val a1))))))";

// Signatures, and the texts of their encodings and of their package types.
const PACKAGED: [(Ex<'static>, &str, &str); 6] = [
    // the order of declaration makes no other type
    (T_FIRST, HIDES_T_AND_U, HIDES_T_AND_U),
    (
        U_FIRST,
        "(some * (some * (rec (t (rec (.typ (all (> * *) (-> (@ a2 a1) (@ a2 a1)))))) (u (rec (.typ (all (> * *) (-> (@ a2 a0) (@ a2 a0)))))) (x (rec (.val a1))) (y (rec (.val a0))))))",
        HIDES_T_AND_U,
    ),
    // an operator and its flip have two
    (HIDES_F, HIDDEN_F, HIDDEN_F),
    (HIDES_G, HIDDEN_G, HIDDEN_G),
    // and so have parameters that hide their types in two orders
    (A_FIRST, HIDDEN_A_FIRST, HIDDEN_A_FIRST),
    (B_FIRST, HIDDEN_B_FIRST, HIDDEN_B_FIRST),
];

const HIDDEN_F: &str =
    "(some (> * (> * *)) (rec (f (rec (.typ (all (> (> * (> * *)) *) (-> (@ a1 (lam * (lam * (@ (@ a0 a2) a3)))) (@ a1 (lam * (lam * (@ (@ a0 a2) a3))))))))) (g (rec (.typ (all (> (> * (> * *)) *) (-> (@ a1 (lam * (lam * (@ (@ a0 a3) a2)))) (@ a1 (lam * (lam * (@ (@ a0 a3) a2)))))))))))";

const HIDDEN_G: &str =
    "(some (> * (> * *)) (rec (f (rec (.typ (all (> (> * (> * *)) *) (-> (@ a1 (lam * (lam * (@ (@ a0 a3) a2)))) (@ a1 (lam * (lam * (@ (@ a0 a3) a2))))))))) (g (rec (.typ (all (> (> * (> * *)) *) (-> (@ a1 (lam * (lam * (@ (@ a0 a2) a3)))) (@ a1 (lam * (lam * (@ (@ a0 a2) a3)))))))))))";

const HIDDEN_A_FIRST: &str =
    "(some (> * (> * *)) (rec (F (all * (all * (-> (rec (a (rec (.typ (all (> * *) (-> (@ a3 a1) (@ a3 a1)))))) (b (rec (.typ (all (> * *) (-> (@ a3 a2) (@ a3 a2))))))) (rec (.app (rec (t (rec (.typ (all (> * *) (-> (@ a3 (@ (@ a0 a1) a2)) (@ a3 (@ (@ a0 a1) a2))))))))))))))))";

const HIDDEN_B_FIRST: &str =
    "(some (> * (> * *)) (rec (F (all * (all * (-> (rec (a (rec (.typ (all (> * *) (-> (@ a3 a2) (@ a3 a2)))))) (b (rec (.typ (all (> * *) (-> (@ a3 a1) (@ a3 a1))))))) (rec (.app (rec (t (rec (.typ (all (> * *) (-> (@ a3 (@ (@ a0 a1) a2)) (@ a3 (@ (@ a0 a1) a2))))))))))))))))";

#[test]
fn package_types(rt: HostRuntime) -> Result<(), Fail> {
    for (literal, encoded, packaged) in &PACKAGED {
        assert!(rt; is_encoded(rt.alloc(), literal, encoded)?, "at {encoded}");
        assert!(rt;
            is_packaged(rt.alloc(), literal, packaged)?,
            "at {packaged}"
        );
    }
    Ok(())
}

#[test]
fn the_order_of_declaration_makes_no_other_package_type(rt: HostRuntime) -> Result<(), Fail> {
    assert!(rt; are_packaged_alike(rt.alloc(), &T_THEN_U, &U_THEN_T)?);
    Ok(())
}

#[test]
fn an_operator_and_its_flip_have_two_package_types(rt: HostRuntime) -> Result<(), Fail> {
    assert!(rt; !are_packaged_alike(rt.alloc(), &HIDES_F, &HIDES_G)?);
    Ok(())
}
