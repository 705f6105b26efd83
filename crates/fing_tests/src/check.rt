// Replies of `check`, with the effects, signatures and refusals found by hand from the rules.
use crate::runs::{all_reply, ran};
use fing_top::Status;
use std::test::Fail;

const MEANT: [(&str, &str); 13] = [
    ("", "pure (ex () (str))\n"),
    (
        "module M = struct type t = Int val x = 5 end :> sig type t val x : t end",
        "pure (ex (*) (str (M (str (t (type a0 *)) (x (val a0))))))\n",
    ),
    (
        "module A = struct type u = Int end module F = fun (X : sig type u end) => struct type t = X.u end :> sig type t end module P = F A module Q = F A",
        "pure (ex ((> * *)) (str (A (str (u (type int *)))) (F (fun app (*) (str (u (type a1 *))) (ex () (str (t (type (@ a0 a1) *)))))) (P (str (t (type (@ a0 int) *)))) (Q (str (t (type (@ a0 int) *))))))\n",
    ),
    (
        "module M = struct type t = Int module F = fun (X : sig type u = Int end) => struct type v = X.u end end :> sig type t module F : fun (X : sig type u = t end) => sig type v end end",
        "pure (ex (* *) (str (M (str (F (fun app () (str (u (type a0 *))) (ex () (str (v (type a1 *)))))) (t (type a0 *))))))\n",
    ),
    (
        "module I = struct type f = fun (a : Type) => a -> a val g = fun [a : Type] => fun (x : a) => x end :> sig type f : Type -> Type val g : [a : Type] -> f a end where type f = fun (a : Type) => a -> a",
        "pure (ex () (str (I (str (f (type (lam * (-> a0 a0)) (> * *))) (g (val (all * (-> a0 a0))))))))\n",
    ),
    (
        "type r = from (struct module M = struct type u = Int end :> sig type u end type t = (fun (a : Type) => Int) M.u end).t",
        "pure (ex () (str (r (type int *))))\n",
    ),
    (
        "module F = struct type f = fun (a : Type) => {x : a} end :> sig type f : Type -> Type end module G = struct type u = fun (a : Type) => F.f a end :> sig type u = F.f end",
        "pure (ex ((> * *)) (str (F (str (f (type (lam * (@ a0 a1)) (> * *))))) (G (str (u (type (lam * (@ a0 a1)) (> * *)))))))\n",
    ),
    (
        "module A = struct type t = Int type u = Bool val x = 1 end val p = pack A : sig type t type u val x : t end module B = unpack p : sig type u type t val x : t end",
        "impure (ex (* *) (str (A (str (t (type int *)) (u (type bool *)) (x (val int)))) (B (str (t (type a0 *)) (u (type a1 *)) (x (val a0)))) (p (val (some * (some * (rec (t (rec (.typ (all (> * *) (-> (@ a4 a2) (@ a4 a2)))))) (u (rec (.typ (all (> * *) (-> (@ a4 a3) (@ a4 a3)))))) (x (rec (.val a2))))))))))\n",
    ),
    (
        "signature A = sig type t end signature B = sig include A signature C = A module G : fun (X : A) -> A end module M = struct include struct type t = Int end signature C = sig type t end module G = gen (X : C) => struct type t = X.t end :> C end :> B",
        "pure (ex (*) (str (A (sig (ex (*) (str (t (type a1 *)))))) (B (sig (ex (*) (str (C (sig (ex (*) (str (t (type a2 *)))))) (G (fun gen (*) (str (t (type a2 *))) (ex (*) (str (t (type a3 *)))))) (t (type a1 *)))))) (M (str (C (sig (ex (*) (str (t (type a1 *)))))) (G (fun gen (*) (str (t (type a1 *))) (ex (*) (str (t (type a2 *)))))) (t (type a0 *))))))\n",
    ),
    (
        "module M = struct type t = Int val x = 5 end : sig type t val x : t end val y = M.x + 1",
        "pure (ex () (str (M (str (t (type int *)) (x (val int)))) (y (val int))))\n",
    ),
    (
        "module F = (fun (X : sig end) => struct val v = 1 end) :> fun (X : sig end) -> sig val v : Int end",
        "pure (ex () (str (F (fun gen () (str) (ex () (str (v (val int))))))))\n",
    ),
    (
        "signature S = sig type t val x : t end type u = Int val y = fun (x : u) => x + 1",
        "pure (ex () (str (S (sig (ex (*) (str (t (type a0 *)) (x (val a0)))))) (u (type int *)) (y (val (-> int int)))))\n",
    ),
    (
        "signature S = sig type t val x : t end where type t = Int",
        "pure (ex () (str (S (sig (ex () (str (t (type int *)) (x (val int))))))))\n",
    ),
];

#[test]
fn sources_that_mean_something(rt: HostRuntime) -> Result<(), Fail> {
    all_reply(&rt, rt.alloc(), "check", Status::Ok, &MEANT)
}

const REFUSED: [(&str, &str); 17] = [
    (
        "module M = struct type t = Int val x = 5 end :> sig type t val x : t end val y = M.x + 1",
        "refused 81-84 Differ a0 int\n",
    ),
    (
        "module A = struct end module F = gen (X : sig end) => struct type t = Int val v = 1 end :> sig type t val v : t end module P = F A module Q = F A val z = (fun (x : P.t) => x) Q.v",
        "refused 175-178 Differ a1 a0\n",
    ),
    (
        "val y = from (struct type t = Int val x = 1 end :> sig type t val x : t end).x",
        "refused 8-78 Escapes\n",
    ),
    (
        "signature S = sig type t val x : t val f : t -> Int end module A = struct type t = Int val x = 1 val f = fun (y : Int) => y end val p = pack A : S module B = unpack p : S module C = unpack p : S val z = B.f C.x",
        "refused 207-210 Differ a1 a0\n",
    ),
    (
        "module F = (gen (X : sig end) => struct val v = 1 end) :> fun (X : sig end) => sig val v : Int end",
        "refused 58-98 Clash . Effect\n",
    ),
    (
        "module M = struct end :> sig type t end",
        "refused 25-39 NoRoot 0 t\n",
    ),
    (
        "module M = struct end :> sig val x : Int end",
        "refused 25-44 Clash x Missing\n",
    ),
    (
        "module M = struct val x = true end :> sig val x : Int end",
        "refused 38-57 Clash x Types bool int\n",
    ),
    ("val y = z + 1", "refused 8-9 Unbound z\n"),
    ("module M = struct", "refused Syntax 4\n"),
    (
        "signature S = sig val x : Int val x : Bool end",
        "refused 34-35 Duplicate x\n",
    ),
    (
        "val x = true val y = x + 1",
        "refused 21-22 Differ bool int\n",
    ),
    ("type t = Int Int", "refused 9-12 NotOperator\n"),
    (
        "module M = struct signature S = sig type t val x : t end end :> sig signature S = sig type t end end",
        "refused 64-100 Clash S.(sig).x Missing\n",
    ),
    (
        "module F = gen (X : sig val v : Int end) => struct end module G = F :> fun (X : sig end) -> sig end",
        "refused 71-99 Clash (arg).v Missing\n",
    ),
    (
        "module M = struct module F = gen (X : sig end) => struct type v = Int end end :> sig module F : fun (X : sig end) => sig type v end end",
        "refused 81-135 NoRoot 0 F.(res).v\n",
    ),
    (
        "module M = struct type t = Int end :> sig type t = fun (a : Type) => a end",
        "refused 38-74 Clash t Types int (lam * a0)\n",
    ),
];

#[test]
fn sources_that_mean_nothing(rt: HostRuntime) -> Result<(), Fail> {
    all_reply(&rt, rt.alloc(), "check", Status::Refused, &REFUSED)
}

// An operator and its flip: each signature matches the other, as the seals of C and D show, and yet they have two
// package types.
const FLIPPED: [(&str, &str); 1] = [(
    "signature S = sig type f : Type -> Type -> Type type g = fun (a : Type) => fun (b : Type) => f b a end signature R = sig type g : Type -> Type -> Type type f = fun (a : Type) => fun (b : Type) => g b a end module A = struct type f = fun (a : Type) => fun (b : Type) => a type g = fun (a : Type) => fun (b : Type) => b end module B = A :> S module C = B :> R module D = C :> S val p = pack D : S module E = unpack p : R",
    "refused 413-414 Differ (some (> * (> * *)) (rec (f (rec (.typ (all (> (> * (> * *)) *) (-> (@ a4 (lam * (lam * (@ (@ a3 a5) a6)))) (@ a4 (lam * (lam * (@ (@ a3 a5) a6))))))))) (g (rec (.typ (all (> (> * (> * *)) *) (-> (@ a4 (lam * (lam * (@ (@ a3 a6) a5)))) (@ a4 (lam * (lam * (@ (@ a3 a6) a5))))))))))) (some (> * (> * *)) (rec (f (rec (.typ (all (> (> * (> * *)) *) (-> (@ a4 (lam * (lam * (@ (@ a3 a6) a5)))) (@ a4 (lam * (lam * (@ (@ a3 a6) a5))))))))) (g (rec (.typ (all (> (> * (> * *)) *) (-> (@ a4 (lam * (lam * (@ (@ a3 a5) a6)))) (@ a4 (lam * (lam * (@ (@ a3 a5) a6)))))))))))\n",
)];

#[test]
fn an_operator_and_its_flip(rt: HostRuntime) -> Result<(), Fail> {
    all_reply(&rt, rt.alloc(), "check", Status::Refused, &FLIPPED)
}

// The same source is accepted with an applicative functor, whose two results have one hidden type.
#[test]
fn two_results_of_one_functor(rt: HostRuntime) -> Result<(), Fail> {
    let source =
        "module A = struct end module F = fun (X : sig end) => struct type t = Int val v = 1 end :> sig type t val v : t end module P = F A module Q = F A val z = (fun (x : P.t) => x) Q.v";
    let found = ran(rt.alloc(), &["check"], source.as_bytes())?;
    assert_eq!(rt; found.status, Status::Ok);
    Ok(())
}

// Signatures with parameters nested 14 deep. A match of a parameter that is made anew for each look-up costs twice as much
// with each floor.
const NESTED: &str = "signature S0 = sig type v end\n\
signature S1 = sig module F : fun (X : S0) => sig type v end end\n\
signature S2 = sig module F : fun (X : S1) => sig type v end end\n\
signature S3 = sig module F : fun (X : S2) => sig type v end end\n\
signature S4 = sig module F : fun (X : S3) => sig type v end end\n\
signature S5 = sig module F : fun (X : S4) => sig type v end end\n\
signature S6 = sig module F : fun (X : S5) => sig type v end end\n\
signature S7 = sig module F : fun (X : S6) => sig type v end end\n\
signature S8 = sig module F : fun (X : S7) => sig type v end end\n\
signature S9 = sig module F : fun (X : S8) => sig type v end end\n\
signature S10 = sig module F : fun (X : S9) => sig type v end end\n\
signature S11 = sig module F : fun (X : S10) => sig type v end end\n\
signature S12 = sig module F : fun (X : S11) => sig type v end end\n\
signature S13 = sig module F : fun (X : S12) => sig type v end end\n\
signature S14 = sig module F : fun (X : S13) => sig type v end end\n\
module M = struct module F = fun (X : S13) => struct type v = Int end end :> S14";

#[test]
fn nested_parameters(rt: HostRuntime) -> Result<(), Fail> {
    let found = ran(rt.alloc(), &["check"], NESTED.as_bytes())?;
    assert_eq!(rt; found.status, Status::Ok);
    Ok(())
}
