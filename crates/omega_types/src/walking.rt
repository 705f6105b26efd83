// The walk: a dispatcher, and a function of its own for each form with parts, so that no frame holds the parts of all forms.
ghost use Rattle.std.specs.Prelude.{◌≡◌, ◌↔◌, ◌≤◌, ℕ, IfOk, IsTrue};
ghost use Rattle.omega_kinds.specs.View.{kind_tree};
ghost use Rattle.omega_types.specs.Inner.Bound.{bound_of};
ghost use Rattle.omega_types.specs.Fields.{row};
ghost use Rattle.omega_types.specs.Ty.{Ty as TyTree};
ghost use Rattle.omega_types.specs.Inner.Walk.{walked_ty, walked_row};

use crate::levels::next_level;
use crate::tree::{Ty, TyFields, TyNode};
use omega_kinds::{Kind, Mem};
use std::alloc::Global;

/// What becomes of the variables in a type.
pub trait TyChange {
    // What becomes of a variable below so many binders.
    ghost variable_at: { Self → ℕ → ℕ → TyTree };

    /// Whether a type below so many binders surely stays as it is.
    fn is_unchanged(&self, ty: &Ty, depth: u64) -> bool
        ensures { IsTrue result → walked_ty (variable_at self.now) depth ty.now ≡ ty.now };

    /// What becomes of the variable with this index below so many binders. `Err` is out of memory.
    fn change_variable(&self, alloc: Global, index: u64, depth: u64) -> Result<Ty, Mem>
        ensures { IfOk result (λ t. t ≡ variable_at self.now depth index) };
}

/// Whether a type below so many binders mentions no variable from outside them. Takes one step.
pub fn is_closed(ty: &Ty, depth: u64) -> bool
    ensures { IsTrue result ↔ (bound_of ty.now ≤ depth) }
{
    ty.bound() <= depth
}

/// The type below `depth` binders with the change made in it. A part that stays as it is is shared.
/// `Err` is out of memory, also where a number of binders would pass the last one.
///
/// Pierce, "Types and Programming Languages", section 6.2, Shifting and substitution, of which the walk is the common part.
#[cycle(walk)]
pub fn walk_type<C: TyChange>(alloc: Global, ty: &Ty, change: &C, depth: u64) -> Result<Ty, Mem>
    ensures { IfOk result (λ t. t ≡ walked_ty (C.variable_at change.now) depth ty.now) }
{
    if change.is_unchanged(ty, depth) {
        return ty.share();
    }
    match ty.node() {
        TyNode::Var(index) => change.change_variable(alloc, *index, depth),
        TyNode::Int | TyNode::Bool | TyNode::Text => ty.share(),
        TyNode::Arrow(a, b) => match ty.both_sides() {
            Some(part) => walk_even(alloc, part, change, depth),
            None => walk_arrow(alloc, a, b, change, depth),
        },
        TyNode::Fields(fields) => walk_record(alloc, fields, change, depth),
        TyNode::Sum(fields) => walk_sum(alloc, fields, change, depth),
        TyNode::All(k, b) => walk_all(alloc, k, b, change, depth),
        TyNode::Ex(k, b) => walk_ex(alloc, k, b, change, depth),
        TyNode::Mu(b) => walk_mu(alloc, b, change, depth),
        TyNode::Lam(k, b) => walk_operator(alloc, k, b, change, depth),
        TyNode::Apply(f, a) => walk_application(alloc, f, a, change, depth),
    }
}

// A function type.
#[cycle(walk)]
#[inline(never)]
fn walk_arrow<C: TyChange>(alloc: Global, a: &Ty, b: &Ty, change: &C, depth: u64) -> Result<Ty, Mem>
    ensures { IfOk result (λ t. t ≡ walked_ty (C.variable_at change.now) depth (TyTree.Arrow a.now b.now)) }
{
    let a = walk_type(alloc, a, change, depth)?;
    let b = walk_type(alloc, b, change, depth)?;
    Ty::make(alloc, TyNode::Arrow(a, b))
}

// A function type whose two parts are one tree.
#[cycle(walk)]
#[inline(never)]
fn walk_even<C: TyChange>(alloc: Global, part: &Ty, change: &C, depth: u64) -> Result<Ty, Mem>
    ensures { IfOk result (λ t. t ≡ walked_ty (C.variable_at change.now) depth (TyTree.Arrow part.now part.now)) }
{
    Ty::to_itself(alloc, walk_type(alloc, part, change, depth)?)
}

// A record type.
#[cycle(walk)]
#[inline(never)]
fn walk_record<C: TyChange>(
    alloc: Global,
    fields: &TyFields,
    change: &C,
    depth: u64,
) -> Result<Ty, Mem>
    ensures { IfOk result (λ t. t ≡ walked_ty (C.variable_at change.now) depth (TyTree.Fields (row fields.now))) }
{
    let fields = walk_fields(alloc, fields, change, depth)?;
    Ty::make(alloc, TyNode::Fields(fields))
}

// A sum.
#[cycle(walk)]
#[inline(never)]
fn walk_sum<C: TyChange>(
    alloc: Global,
    fields: &TyFields,
    change: &C,
    depth: u64,
) -> Result<Ty, Mem>
    ensures { IfOk result (λ t. t ≡ walked_ty (C.variable_at change.now) depth (TyTree.Sum (row fields.now))) }
{
    let fields = walk_fields(alloc, fields, change, depth)?;
    Ty::make(alloc, TyNode::Sum(fields))
}

// A universal type.
#[cycle(walk)]
#[inline(never)]
fn walk_all<C: TyChange>(alloc: Global, k: &Kind, b: &Ty, change: &C, depth: u64) -> Result<Ty, Mem>
    ensures { IfOk result (λ t. t ≡ walked_ty (C.variable_at change.now) depth (TyTree.All (kind_tree k.now) b.now)) }
{
    let b = walk_type(alloc, b, change, next_level(depth)?)?;
    Ty::make(alloc, TyNode::All(k.share()?, b))
}

// An existential type.
#[cycle(walk)]
#[inline(never)]
fn walk_ex<C: TyChange>(alloc: Global, k: &Kind, b: &Ty, change: &C, depth: u64) -> Result<Ty, Mem>
    ensures { IfOk result (λ t. t ≡ walked_ty (C.variable_at change.now) depth (TyTree.Ex (kind_tree k.now) b.now)) }
{
    let b = walk_type(alloc, b, change, next_level(depth)?)?;
    Ty::make(alloc, TyNode::Ex(k.share()?, b))
}

// A recursive type.
#[cycle(walk)]
#[inline(never)]
fn walk_mu<C: TyChange>(alloc: Global, b: &Ty, change: &C, depth: u64) -> Result<Ty, Mem>
    ensures { IfOk result (λ t. t ≡ walked_ty (C.variable_at change.now) depth (TyTree.Mu b.now)) }
{
    let b = walk_type(alloc, b, change, next_level(depth)?)?;
    Ty::make(alloc, TyNode::Mu(b))
}

// An operator.
#[cycle(walk)]
#[inline(never)]
fn walk_operator<C: TyChange>(
    alloc: Global,
    k: &Kind,
    b: &Ty,
    change: &C,
    depth: u64,
) -> Result<Ty, Mem>
    ensures { IfOk result (λ t. t ≡ walked_ty (C.variable_at change.now) depth (TyTree.Lam (kind_tree k.now) b.now)) }
{
    let b = walk_type(alloc, b, change, next_level(depth)?)?;
    Ty::make(alloc, TyNode::Lam(k.share()?, b))
}

// An application.
#[cycle(walk)]
#[inline(never)]
fn walk_application<C: TyChange>(
    alloc: Global,
    f: &Ty,
    a: &Ty,
    change: &C,
    depth: u64,
) -> Result<Ty, Mem>
    ensures { IfOk result (λ t. t ≡ walked_ty (C.variable_at change.now) depth (TyTree.Apply f.now a.now)) }
{
    let f = walk_type(alloc, f, change, depth)?;
    let a = walk_type(alloc, a, change, depth)?;
    Ty::make(alloc, TyNode::Apply(f, a))
}

// The fields, each with the change made in it.
#[cycle(walk)]
#[tactic(auto, using(crate::proofs::Steps::walk_rows))]
fn walk_fields<C: TyChange>(
    alloc: Global,
    fields: &TyFields,
    change: &C,
    depth: u64,
) -> Result<TyFields, Mem>
    ensures { IfOk result (λ f. row f ≡ walked_row (C.variable_at change.now) depth (row fields.now)) }
{
    let mut walked = TyFields::with_capacity(alloc, fields.items().len())?;
    for field in fields.items() {
        let part = walk_type(alloc, &field.1, change, depth)?;
        walked.push((field.0.share()?, part))?;
    }
    Ok(walked)
}
