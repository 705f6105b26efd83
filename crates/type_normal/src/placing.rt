// Types put in for variables of a type, with the normal form of the result.
//
// It is one recursion for a type of a kind that comes in for one variable, and for a list of types that come in for the
// innermost variables at once. It stands beside the walk that renames: that walk makes of each form the same form, and here
// an operator that comes in for the head of an application takes the argument, so the application goes.
ghost use Rattle.std.specs.Prelude.{◌≡◌, ◌≤◌, ◌+◌, ◌↔◌, IfOk, IsTrue};
ghost use Rattle.omega_kinds.specs.View.{kind_tree};
ghost use Rattle.omega_types.specs.Fields.{row};
ghost use Rattle.omega_types.specs.Inner.Bound.{bound_of};
ghost use Rattle.omega_types.specs.Inner.View.{ty_of};
ghost use Rattle.omega_types.specs.Ty.{Ty as TyTree};
ghost use Rattle.type_normal.specs.Inner.Heads.{apply_head, head_in, one_head, putting, row_in, stands, sunk, ty_in};
ghost use Rattle.type_normal.specs.Inner.Placed.{coming_of, first_of, head_of};

use crate::normal_ty::{NormalTy, plain};
use omega_kinds::{Kind, Mem};
use omega_types::{Ty, TyFields, TyNode, next_level, shift};
use std::alloc::Global;

// What comes in for variables: for the variable of an index one type, of a kind that says how often an operator can still
// come in; or types for the innermost variables, one for each, the first for the outermost. Each greater index is lowered.
#[derive(Clone, Copy)]
pub(crate) enum Coming<'a> {
    One(u64, &'a Ty, &'a Kind),
    Many(&'a [NormalTy]),
}

// What has become of a part of a type: its own head stands, or a type came in for the head, from a list or with its kind.
#[derive(Drop)]
enum Placed {
    Stands(Ty),
    Came(Ty),
    CameAt(Ty, Kind),
}

// The type that a part below `depth` binders becomes, where types come in for variables outside these binders.
#[cycle(place)]
pub(crate) fn place(alloc: Global, body: &Ty, coming: &Coming<'_>, depth: u64) -> Result<Ty, Mem>
    ensures { IfOk result (λ t. t ≡ ty_in (sunk depth (coming_of coming.now)) body.now) }
{
    match place_head(alloc, body, coming, depth)? {
        Placed::Stands(ty) => Ok(ty),
        Placed::Came(ty) => Ok(ty),
        Placed::CameAt(ty, _) => Ok(ty),
    }
}

// The same, where it is known whether a type came in for the head of the part.
#[cycle(place)]
#[tactic(auto, using(crate::proofs::PlaceSteps::place_steps))]
fn place_head(alloc: Global, body: &Ty, coming: &Coming<'_>, depth: u64) -> Result<Placed, Mem>
    ensures { IfOk result (λ p. head_of p ≡ head_in (sunk depth (coming_of coming.now)) body.now) }
{
    if is_left(body, coming, depth) {
        return Ok(Placed::Stands(body.share()?));
    }
    match body.node() {
        TyNode::Var(index) => place_var(alloc, *index, coming, depth),
        TyNode::Int | TyNode::Bool | TyNode::Text => Ok(Placed::Stands(body.share()?)),
        TyNode::Arrow(a, b) => match body.both_sides() {
            Some(part) => place_even(alloc, part, coming, depth),
            None => place_arrow(alloc, a, b, coming, depth),
        },
        TyNode::Fields(fields) => place_record(alloc, fields, coming, depth),
        TyNode::Sum(fields) => place_sum(alloc, fields, coming, depth),
        TyNode::All(k, b) => place_all(alloc, k, b, coming, depth),
        TyNode::Ex(k, b) => place_ex(alloc, k, b, coming, depth),
        TyNode::Mu(b) => place_mu(alloc, b, coming, depth),
        TyNode::Lam(k, b) => place_operator(alloc, k, b, coming, depth),
        TyNode::Apply(f, a) => place_application(alloc, f, a, coming, depth),
    }
}

// Whether a part mentions no variable that changes.
fn is_left(body: &Ty, coming: &Coming<'_>, depth: u64) -> bool
    ensures { IsTrue result ↔ bound_of body.now ≤ first_of coming.now + depth }
{
    match coming {
        Coming::One(index, _, _) => body.bound().saturating_sub(depth) <= *index,
        Coming::Many(_) => body.bound() <= depth,
    }
}

// A function type.
#[cycle(place)]
#[inline(never)]
#[tactic(auto, using(crate::proofs::PlaceSteps::place_steps))]
fn place_arrow(
    alloc: Global,
    a: &Ty,
    b: &Ty,
    coming: &Coming<'_>,
    depth: u64,
) -> Result<Placed, Mem>
    ensures { IfOk result (λ p. head_of p ≡ head_in (sunk depth (coming_of coming.now)) (TyTree.Arrow a.now b.now)) }
{
    let a = place(alloc, a, coming, depth)?;
    let b = place(alloc, b, coming, depth)?;
    stand(alloc, TyNode::Arrow(a, b))
}

// A function type whose two parts are one tree.
#[cycle(place)]
#[inline(never)]
#[tactic(auto, using(crate::proofs::PlaceSteps::place_steps))]
fn place_even(alloc: Global, part: &Ty, coming: &Coming<'_>, depth: u64) -> Result<Placed, Mem>
    ensures { IfOk result (λ p. head_of p ≡ head_in (sunk depth (coming_of coming.now)) (TyTree.Arrow part.now part.now)) }
{
    let part = place(alloc, part, coming, depth)?;
    Ok(Placed::Stands(Ty::to_itself(alloc, part)?))
}

// A record type.
#[cycle(place)]
#[inline(never)]
#[tactic(auto, using(crate::proofs::PlaceSteps::place_steps))]
fn place_record(
    alloc: Global,
    fields: &TyFields,
    coming: &Coming<'_>,
    depth: u64,
) -> Result<Placed, Mem>
    ensures { IfOk result (λ p. head_of p ≡ head_in (sunk depth (coming_of coming.now)) (TyTree.Fields (row fields.now))) }
{
    let fields = place_fields(alloc, fields, coming, depth)?;
    stand(alloc, TyNode::Fields(fields))
}

// A sum.
#[cycle(place)]
#[inline(never)]
#[tactic(auto, using(crate::proofs::PlaceSteps::place_steps))]
fn place_sum(
    alloc: Global,
    fields: &TyFields,
    coming: &Coming<'_>,
    depth: u64,
) -> Result<Placed, Mem>
    ensures { IfOk result (λ p. head_of p ≡ head_in (sunk depth (coming_of coming.now)) (TyTree.Sum (row fields.now))) }
{
    let fields = place_fields(alloc, fields, coming, depth)?;
    stand(alloc, TyNode::Sum(fields))
}

// A universal type.
#[cycle(place)]
#[inline(never)]
#[tactic(auto, using(crate::proofs::PlaceSteps::place_steps))]
fn place_all(
    alloc: Global,
    k: &Kind,
    b: &Ty,
    coming: &Coming<'_>,
    depth: u64,
) -> Result<Placed, Mem>
    ensures { IfOk result (λ p. head_of p ≡ head_in (sunk depth (coming_of coming.now)) (TyTree.All (kind_tree k.now) b.now)) }
{
    let b = place(alloc, b, coming, next_level(depth)?)?;
    stand(alloc, TyNode::All(k.share()?, b))
}

// An existential type.
#[cycle(place)]
#[inline(never)]
#[tactic(auto, using(crate::proofs::PlaceSteps::place_steps))]
fn place_ex(alloc: Global, k: &Kind, b: &Ty, coming: &Coming<'_>, depth: u64) -> Result<Placed, Mem>
    ensures { IfOk result (λ p. head_of p ≡ head_in (sunk depth (coming_of coming.now)) (TyTree.Ex (kind_tree k.now) b.now)) }
{
    let b = place(alloc, b, coming, next_level(depth)?)?;
    stand(alloc, TyNode::Ex(k.share()?, b))
}

// A recursive type.
#[cycle(place)]
#[inline(never)]
#[tactic(auto, using(crate::proofs::PlaceSteps::place_steps))]
fn place_mu(alloc: Global, b: &Ty, coming: &Coming<'_>, depth: u64) -> Result<Placed, Mem>
    ensures { IfOk result (λ p. head_of p ≡ head_in (sunk depth (coming_of coming.now)) (TyTree.Mu b.now)) }
{
    let b = place(alloc, b, coming, next_level(depth)?)?;
    stand(alloc, TyNode::Mu(b))
}

// An operator.
#[cycle(place)]
#[inline(never)]
#[tactic(auto, using(crate::proofs::PlaceSteps::place_steps))]
fn place_operator(
    alloc: Global,
    k: &Kind,
    b: &Ty,
    coming: &Coming<'_>,
    depth: u64,
) -> Result<Placed, Mem>
    ensures { IfOk result (λ p. head_of p ≡ head_in (sunk depth (coming_of coming.now)) (TyTree.Lam (kind_tree k.now) b.now)) }
{
    let b = place(alloc, b, coming, next_level(depth)?)?;
    stand(alloc, TyNode::Lam(k.share()?, b))
}

// An application: an operator that came in for the head takes the argument.
#[cycle(place)]
#[inline(never)]
#[tactic(auto, using(crate::proofs::PlaceSteps::place_steps))]
fn place_application(
    alloc: Global,
    f: &Ty,
    a: &Ty,
    coming: &Coming<'_>,
    depth: u64,
) -> Result<Placed, Mem>
    ensures { IfOk result (λ p. head_of p ≡ head_in (sunk depth (coming_of coming.now)) (TyTree.Apply f.now a.now)) }
{
    let f = place_head(alloc, f, coming, depth)?;
    let a = place(alloc, a, coming, depth)?;
    apply(alloc, f, a)
}

// The fields with each part changed.
#[cycle(place)]
#[tactic(auto, using(crate::proofs::PlaceSteps::place_steps))]
fn place_fields(
    alloc: Global,
    fields: &TyFields,
    coming: &Coming<'_>,
    depth: u64,
) -> Result<TyFields, Mem>
    ensures { IfOk result (λ f. row f ≡ row_in (sunk depth (coming_of coming.now)) (row fields.now)) }
{
    let mut placed = TyFields::with_capacity(alloc, fields.items().len())?;
    for field in fields.items() {
        let part = place(alloc, &field.1, coming, depth)?;
        placed.push((field.0.share()?, part))?;
    }
    Ok(placed)
}

// A type of its own head.
fn stand(alloc: Global, node: TyNode) -> Result<Placed, Mem>
    ensures { IfOk result (λ p. head_of p ≡ stands (ty_of node)) }
{
    Ok(Placed::Stands(Ty::make(alloc, node)?))
}

// The type that comes in for a variable below `depth` binders, or the variable with its index lowered.
fn place_var(alloc: Global, index: u64, coming: &Coming<'_>, depth: u64) -> Result<Placed, Mem>
    requires { first_of coming.now + depth ≤ index }
    ensures { IfOk result (λ p. head_of p ≡ sunk depth (coming_of coming.now) index) }
{
    match coming {
        Coming::One(at, arg, kind) => place_one(alloc, index, *at, arg, kind, depth),
        Coming::Many(types) => place_listed(alloc, index, types, depth),
    }
}

// The one type that comes in for the variable, raised past the binders, or a greater variable.
fn place_one(
    alloc: Global,
    index: u64,
    at: u64,
    arg: &Ty,
    kind: &Kind,
    depth: u64,
) -> Result<Placed, Mem>
    requires { at + depth ≤ index }
    ensures { IfOk result (λ p. head_of p ≡ sunk depth (one_head (kind_tree kind.now) at arg.now) index) }
{
    if index - depth == at {
        let ty = shift(alloc, arg, depth, 0)?;
        Ok(Placed::CameAt(ty, kind.share()?))
    } else {
        stand(alloc, TyNode::Var(index - 1))
    }
}

// The type of the list that comes in for the variable, raised past the binders, or a variable beyond the list.
fn place_listed(alloc: Global, index: u64, types: &[NormalTy], depth: u64) -> Result<Placed, Mem>
    requires { depth ≤ index }
    ensures { IfOk result (λ p. head_of p ≡ sunk depth (putting types.now) index) }
{
    let count = types.len() as u64;
    let place = index - depth;
    if place >= count {
        return stand(alloc, TyNode::Var(index - count));
    }
    let ty = &types[types.len() - 1 - place as usize];
    Ok(Placed::Came(shift(alloc, plain(ty), depth, 0)?))
}

// A part at an argument: an operator that came in for the head takes it. One of a kind takes it at the part of the kind
// that stands for the argument, and one from a list at the kind that the operator itself binds.
#[cycle(place)]
#[tactic(auto, using(crate::proofs::PlaceSteps::place_steps))]
fn apply(alloc: Global, operator: Placed, arg: Ty) -> Result<Placed, Mem>
    ensures { IfOk result (λ p. head_of p ≡ apply_head (head_of operator) arg) }
{
    match operator {
        Placed::Stands(ty) => stand(alloc, TyNode::Apply(ty, arg)),
        Placed::Came(ty) => match ty.node() {
            TyNode::Lam(from, body) => {
                Ok(Placed::Came(place(alloc, body, &Coming::One(0, &arg, from), 0)?))
            }
            _ => Ok(Placed::Came(Ty::make(alloc, TyNode::Apply(ty, arg))?)),
        },
        Placed::CameAt(ty, kind) => match (ty.node(), &kind) {
            (TyNode::Lam(_, body), Kind::Arrow(from, to, _)) => {
                let applied = place(alloc, body, &Coming::One(0, &arg, from), 0)?;
                Ok(Placed::CameAt(applied, to.share()?))
            }
            _ => stand(alloc, TyNode::Apply(ty, arg)),
        },
    }
}
