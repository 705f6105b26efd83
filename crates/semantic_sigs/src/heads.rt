// Changes of the variables in types: raised, lowered, moved, or normal types put in for them.
ghost use Rattle.std.specs.Prelude.{◌≡◌, ◌↔◌, ◌+◌, ℕ, IfOk, IsTrue};
ghost use Rattle.omega_types.specs.Ty.{Var};
ghost use Rattle.semantic_sigs.specs.Inner.Change.{change_of};
ghost use Rattle.semantic_sigs.specs.Inner.Changes.{stands, sunk, ty_in};
ghost use Rattle.type_normal.specs.Inner.Moved.{moved, or_stays};

use omega_kinds::Mem;
use std::alloc::Global;
use type_normal::{NormalTy, lower_from, put_types, raise, renumber};

// What happens to the free variables: each index rises or falls by a number; or the innermost variables, as many as
// there are types, are replaced by these, the first for the outermost of them, and each other index falls by their number;
// or each variable that has a new index in the list, which begins with the innermost one's, gets it.
#[derive(Clone, Copy)]
pub(crate) enum Change<'a> {
    Raise(u64),
    Lower(u64),
    Put(&'a [NormalTy]),
    Move(&'a [Option<u64>]),
}

impl Change<'_> {
    // Whether each variable stays as it is.
    pub(crate) fn is_still(self) -> bool
        ensures { IsTrue result → (i : ℕ) → change_of self.entry i ≡ stands (Var i) }
    {
        match self {
            Change::Raise(by) | Change::Lower(by) => by == 0,
            Change::Put(types) => types.is_empty(),
            Change::Move(places) => keeps_each(places),
        }
    }
}

// Whether each variable keeps its index: one that has a place has its own.
fn keeps_each(places: &[Option<u64>]) -> bool
    ensures { IsTrue result ↔ ((i : ℕ) → moved places.now i ≡ i) }
{
    for i in 0..places.len() {
        if !keeps(places[i], i as u64) {
            return false;
        }
    }
    true
}

// Whether the variable with this index keeps it.
fn keeps(place: Option<u64>, index: u64) -> bool
    ensures { IsTrue result ↔ (or_stays index place ≡ index) }
{
    match place {
        Some(new) => new == index,
        None => true,
    }
}

// A normal type, changed below `depth` binders.
pub(crate) fn change_ty(
    alloc: Global,
    ty: &NormalTy,
    change: Change<'_>,
    depth: u64,
) -> Result<NormalTy, Mem>
    ensures { IfOk result (λ t. t ≡ ty_in (sunk depth (change_of change.entry)) ty.now) }
{
    match change {
        Change::Raise(by) => raise(alloc, ty, by, depth),
        Change::Lower(by) => lower_from(alloc, ty, by, depth),
        Change::Put(types) => put_types(alloc, ty, types, depth),
        Change::Move(places) => renumber(alloc, ty, places, depth),
    }
}

// The sum of two numbers. `Err` where it would pass the last number.
pub(crate) fn sum(left: u64, right: u64) -> Result<u64, Mem>
    ensures { IfOk result (λ n. n ≡ left + right) }
{
    left.checked_add(right).ok_or(Mem)
}
