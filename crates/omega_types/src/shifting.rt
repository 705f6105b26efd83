// Shifts of types.
ghost use Rattle.std.specs.Prelude.{◌≡◌, IfOk, IsTrue};
ghost use Rattle.omega_types.specs.Ty.{Var};
ghost use Rattle.omega_types.specs.Index.{bump, shift};

use crate::tree::{Ty, TyNode};
use crate::walking::{TyChange, is_closed, walk_type};
use omega_kinds::Mem;
use std::alloc::Global;

// A number, added to each free index.
#[derive(Clone, Copy)]
struct Raise {
    by: u64,
}

impl TyChange for Raise {
    ghost variable_at = { λ s depth index. Var (bump s.by depth index) };

    fn is_unchanged(&self, ty: &Ty, depth: u64) -> bool {
        is_closed(ty, depth)
    }

    #[tactic(auto, using(crate::proofs::Steps::shift_steps))]
    fn change_variable(&self, alloc: Global, index: u64, depth: u64) -> Result<Ty, Mem> {
        if index < depth {
            return Ty::make(alloc, TyNode::Var(index));
        }
        Ty::make(alloc, TyNode::Var(index.checked_add(self.by).ok_or(Mem)?))
    }
}

/// The type with `by` added to each free index that is at least `from`.
/// `Err` is out of memory, also where an index would pass the last number.
///
/// Pierce, "Types and Programming Languages", section 6.2, Shifting and substitution.
#[tactic(auto, using(crate::proofs::Steps::shift_steps))]
pub fn shift(alloc: Global, ty: &Ty, by: u64, from: u64) -> Result<Ty, Mem>
    ensures { IfOk result (λ t. t ≡ shift by from ty.now) }
{
    if by == 0 {
        return ty.share();
    }
    walk_type(alloc, ty, &Raise { by }, from)
}
