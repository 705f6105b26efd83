// Substitution in types.
ghost use Rattle.std.specs.Prelude.{◌≡◌, ◌-◌, IfOk, IsTrue};
ghost use Rattle.omega_types.specs.Index.{put, shift, substitute_at};

use crate::shifting::shift;
use crate::tree::{Ty, TyNode};
use crate::walking::{TyChange, is_closed, walk_type};
use omega_kinds::Mem;
use std::alloc::Global;

// A type for the variable `index`, and each greater index lowered by one.
#[derive(Clone, Copy)]
struct Put<'a> {
    index: u64,
    arg: &'a Ty,
}

impl TyChange for Put<'_> {
    ghost variable_at = { λ s at index. put at (shift (at - s.index) 0 s.arg.now) index };

    fn is_unchanged(&self, ty: &Ty, at: u64) -> bool {
        is_closed(ty, at)
    }

    #[tactic(auto, using(crate::proofs::Steps::put_steps))]
    fn change_variable(&self, alloc: Global, index: u64, at: u64) -> Result<Ty, Mem> {
        if index == at {
            shift(alloc, self.arg, at.saturating_sub(self.index), 0)
        } else if index < at {
            Ty::make(alloc, TyNode::Var(index))
        } else {
            Ty::make(alloc, TyNode::Var(index - 1))
        }
    }
}

/// The type with `arg` for the variable `index`, and each greater index lowered by one.
/// `arg` stands in the context of the result, and is shifted under each binder that it comes below.
/// `Err` is out of memory, also where an index would pass the last number.
///
/// Pierce, "Types and Programming Languages", section 6.2, Shifting and substitution.
pub fn substitute(alloc: Global, body: &Ty, index: u64, arg: &Ty) -> Result<Ty, Mem>
    ensures { IfOk result (λ t. t ≡ substitute_at index arg.now body.now) }
{
    walk_type(alloc, body, &Put { index, arg }, index)
}
