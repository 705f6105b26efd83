// Which free indexes a normal type mentions.
ghost use Rattle.std.specs.Prelude.{◌≡◌, ◌↔◌, suc, IsTrue, List};
ghost use Rattle.omega_kinds.specs.Kind.{Kind as KindTree};
ghost use Rattle.omega_types.specs.Conversion.{Conv};
ghost use Rattle.omega_types.specs.Fields.{row};
ghost use Rattle.omega_types.specs.Mentions.{Mentions};
ghost use Rattle.omega_types.specs.Normality.{Normal};
ghost use Rattle.omega_types.specs.Ty.{Ty as TyTree};
ghost use Rattle.type_normal.specs.Inner.Least.{is_first, least_row, least_ty, lesser, outside};

use crate::normal_ty::{NormalTy, plain};
use omega_types::{Ty, TyFields, TyNode};

/// Whether the index is free in the type. Where the type is normal, no type that is convertible to it does without
/// the variable exactly if it is. Takes no memory.
pub fn mentions(ty: &NormalTy, index: u64) -> bool
    ensures free { IsTrue result ↔ Mentions index ty.now }
    ensures avoidable { (ctx : List KindTree) (k : KindTree) → Normal ctx ty.now k → ((IsTrue result → ⊥) ↔ ((s : TyTree) × Conv ctx ty.now s k × (Mentions index s → ⊥))) }
{
    is_first(least_free(ty, index))
}

/// How far above `from` the least free index of the type is that is at least `from`; `None` where there is none.
/// What comes after an occurrence of `from` itself is not looked at. Takes no memory.
pub fn least_free(ty: &NormalTy, from: u64) -> Option<u64>
    ensures { result ≡ least_ty from ty.now }
{
    least_in_ty(plain(ty), from)
}

// The same for any type.
#[cycle(least)]
#[tactic(auto, using(crate::proofs::LeastSteps::least_steps))]
fn least_in_ty(ty: &Ty, from: u64) -> Option<u64>
    ensures { result ≡ least_ty from ty.now }
{
    if ty.bound() <= from {
        return None;
    }
    match ty.node() {
        TyNode::Var(index) => index.checked_sub(from),
        TyNode::Int | TyNode::Bool | TyNode::Text => None,
        TyNode::Arrow(a, b) => match ty.both_sides() {
            Some(part) => least_in_ty(part, from),
            None => least_in_two(a, b, from),
        },
        TyNode::Fields(fields) | TyNode::Sum(fields) => least_in_fields(fields, from),
        TyNode::All(_, b) => least_in_body(b, from),
        TyNode::Ex(_, b) => least_in_body(b, from),
        TyNode::Mu(b) => least_in_body(b, from),
        TyNode::Lam(_, b) => least_in_body(b, from),
        TyNode::Apply(f, a) => least_in_two(f, a, from),
    }
}

// The same for two parts.
#[cycle(least)]
#[tactic(auto, using(crate::proofs::LeastSteps::least_steps))]
fn least_in_two(a: &Ty, b: &Ty, from: u64) -> Option<u64>
    ensures { result ≡ lesser (least_ty from a.now) (least_ty from b.now) }
{
    let least = least_in_ty(a, from);
    if is_first(least) {
        return least;
    }
    lesser(least, least_in_ty(b, from))
}

// The same below a binder, for indexes from outside it.
#[cycle(least)]
#[tactic(auto, using(crate::proofs::LeastSteps::least_steps))]
fn least_in_body(body: &Ty, from: u64) -> Option<u64>
    ensures { result ≡ least_ty (suc from) body.now }
{
    if body.bound() <= from {
        return None;
    }
    least_in_ty(body, from + 1)
}

// The same for the parts of a record or a sum.
#[cycle(least)]
#[tactic(auto, using(crate::proofs::LeastSteps::least_steps))]
fn least_in_fields(fields: &TyFields, from: u64) -> Option<u64>
    ensures { result ≡ least_row from (row fields.now) }
{
    let mut least = None;
    for field in fields.items() {
        if is_first(least) {
            return least;
        }
        least = lesser(least, least_in_ty(&field.1, from));
    }
    least
}

/// The lesser of two numbers that may be there.
pub fn lesser(a: Option<u64>, b: Option<u64>) -> Option<u64>
    ensures { result ≡ lesser a b }
{
    match (a, b) {
        (Some(i), Some(j)) => Some(i.min(j)),
        _ => a.or(b),
    }
}

// Whether no lesser number can be found: the index looked for is itself free.
fn is_first(least: Option<u64>) -> bool
    ensures { result ≡ is_first least }
{
    matches!(least, Some(0))
}
