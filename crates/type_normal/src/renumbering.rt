// New indexes for the variables of normal types.
ghost use Rattle.std.specs.Prelude.{◌≡◌, IfOk, IsTrue};
ghost use Rattle.omega_types.specs.Ty.{Var};
ghost use Rattle.type_normal.specs.Inner.Lifted.{lifted, renumbered};
ghost use Rattle.type_normal.specs.Inner.Moved.{moved, place_in};

use crate::normal_ty::{NormalTy, as_normal, plain};
use omega_kinds::Mem;
use omega_types::{Ty, TyChange, TyNode, is_closed, walk_type};
use std::alloc::Global;

// New indexes, of which some may be missing, in a list that begins with the innermost variable's.
#[derive(Clone, Copy)]
struct Renumbering<'a> {
    places: &'a [Option<u64>],
}

impl TyChange for Renumbering<'_> {
    ghost variable_at = { λ s depth index. Var (lifted depth (moved s.places.now) index) };

    fn is_unchanged(&self, ty: &Ty, depth: u64) -> bool {
        is_closed(ty, depth)
    }

    fn change_variable(&self, alloc: Global, index: u64, depth: u64) -> Result<Ty, Mem> {
        let new = new_index(self.places, depth, index)?;
        Ty::make(alloc, TyNode::Var(new))
    }
}

/// The type below `depth` binders with a new index for each free variable from outside them that has one in `places`, a
/// list that begins with the innermost variable's; each other variable keeps its index. The new indexes are those of
/// outside the binders. `Err` is out of memory, also where an index would pass the last number.
///
/// Pierce, "Types and Programming Languages", section 6.2, Shifting and substitution, of which it is the general case.
pub fn renumber(
    alloc: Global,
    ty: &NormalTy,
    places: &[Option<u64>],
    depth: u64,
) -> Result<NormalTy, Mem>
    ensures { IfOk result (λ t. t ≡ renumbered places.now depth ty.now) }
{
    Ok(as_normal(walk_type(alloc, plain(ty), &Renumbering { places }, depth)?))
}

// The new index of a variable below `depth` binders.
#[tactic(auto, using(crate::proofs::LiftedSteps::index_steps))]
fn new_index(places: &[Option<u64>], depth: u64, index: u64) -> Result<u64, Mem>
    ensures { IfOk result (λ new. new ≡ lifted depth (moved places.now) index) }
{
    if index < depth {
        return Ok(index);
    }
    match place_of(places, index - depth) {
        Some(new) => new.checked_add(depth).ok_or(Mem),
        None => Ok(index),
    }
}

// The place of a variable, `None` where it has none.
#[tactic(auto, using(crate::proofs::LiftedSteps::place_steps))]
fn place_of(places: &[Option<u64>], index: u64) -> Option<u64>
    ensures { result ≡ place_in places.now index }
{
    places.get(index as usize).copied().flatten()
}
