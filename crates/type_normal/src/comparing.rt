// Equality of normal types.
ghost use Rattle.std.specs.Prelude.{◌≡◌, ◌↔◌, IsTrue, List};
ghost use Rattle.omega_kinds.specs.Kind.{Kind as KindTree};
ghost use Rattle.omega_types.specs.Conversion.{Conv};
ghost use Rattle.omega_types.specs.Fields.{row};
ghost use Rattle.omega_types.specs.Normality.{Normal};

use crate::normal_ty::{NormalTy, plain};
use omega_kinds::{same_kind, same_label};
use omega_types::{Ty, TyFields, TyNode};

/// Whether two normal types are the same tree; where they are normal at one kind in one context, whether they are
/// convertible there. Takes no memory.
pub fn same(left: &NormalTy, right: &NormalTy) -> bool
    ensures tree { IsTrue result ↔ (left.now ≡ right.now) }
    ensures convertible { (ctx : List KindTree) (k : KindTree) → Normal ctx left.now k → Normal ctx right.now k → (IsTrue result ↔ Conv ctx left.now right.now k) }
{
    same_ty(plain(left), plain(right))
}

// Whether two types are the same tree.
#[cycle(same)]
fn same_ty(left: &Ty, right: &Ty) -> bool
    ensures { IsTrue result ↔ left.now ≡ right.now }
{
    match (left.node(), right.node()) {
        (TyNode::Var(i), TyNode::Var(j)) => *i == *j,
        (TyNode::Int, TyNode::Int) => true,
        (TyNode::Bool, TyNode::Bool) => true,
        (TyNode::Text, TyNode::Text) => true,
        (TyNode::Arrow(a, b), TyNode::Arrow(c, d)) => {
            let is_once = left.both_sides().is_some() && right.both_sides().is_some();
            same_ty(a, c) && (is_once || same_ty(b, d))
        }
        (TyNode::Fields(a), TyNode::Fields(b)) => same_fields(a, b),
        (TyNode::Sum(a), TyNode::Sum(b)) => same_fields(a, b),
        (TyNode::All(j, a), TyNode::All(k, b)) => same_kind(j, k) && same_ty(a, b),
        (TyNode::Ex(j, a), TyNode::Ex(k, b)) => same_kind(j, k) && same_ty(a, b),
        (TyNode::Mu(a), TyNode::Mu(b)) => same_ty(a, b),
        (TyNode::Lam(j, a), TyNode::Lam(k, b)) => same_kind(j, k) && same_ty(a, b),
        (TyNode::Apply(a, b), TyNode::Apply(c, d)) => same_ty(a, c) && same_ty(b, d),
        _ => false,
    }
}

// Whether two lists of fields have the same labels and parts.
#[cycle(same)]
fn same_fields(left: &TyFields, right: &TyFields) -> bool
    ensures { IsTrue result ↔ row left.now ≡ row right.now }
{
    let left = left.items();
    let right = right.items();
    if left.len() != right.len() {
        return false;
    }
    for i in 0..left.len() {
        let a = &left[i];
        let b = &right[i];
        if !same_label(&a.0, &b.0) || !same_ty(&a.1, &b.1) {
            return false;
        }
    }
    true
}
