// Lowering of normal types.
ghost use Rattle.std.specs.Prelude.{◌≡◌, ℕ, ◌<◌, ◌-◌, ◌++◌, IfOk, IsTrue, List, length};
ghost use Rattle.omega_kinds.specs.Kind.{Kind as KindTree};
ghost use Rattle.omega_types.specs.Index.{shift};
ghost use Rattle.omega_types.specs.Mentions.{Mentions, lower};
ghost use Rattle.omega_types.specs.Normality.{Normal};
ghost use Rattle.omega_types.specs.Ty.{Var};
ghost use Rattle.type_normal.specs.Inner.Lifted.{lifted, lower_from};

use crate::normal_ty::{NormalTy, as_normal, plain};
use omega_kinds::Mem;
use omega_types::{Ty, TyChange, TyNode, is_closed, walk_type};
use std::alloc::Global;

// A number by which each free index falls, but not below 0.
#[derive(Clone, Copy)]
struct Lowering {
    by: u64,
}

impl TyChange for Lowering {
    ghost variable_at = { λ s depth index. Var (lifted depth (λ i. i - s.by) index) };

    fn is_unchanged(&self, ty: &Ty, depth: u64) -> bool {
        is_closed(ty, depth)
    }

    fn change_variable(&self, alloc: Global, index: u64, depth: u64) -> Result<Ty, Mem> {
        if index < depth {
            return Ty::make(alloc, TyNode::Var(index));
        }
        let outer = (index - depth).saturating_sub(self.by);
        Ty::make(alloc, TyNode::Var(depth + outer))
    }
}

/// The type with each free index less by `by`, an index below `by` becoming 0. Where it mentions no index below `by`, it
/// is a type which, raised by `by` from 0, is the given one, and it is normal in the context without the `by` innermost
/// variables. `Err` is out of memory.
pub fn lower(alloc: Global, ty: &NormalTy, by: u64) -> Result<NormalTy, Mem>
    ensures value { IfOk result (λ t. t ≡ lower by ty.now) }
    ensures raised { IfOk result (λ t. ((i : ℕ) → i < by → Mentions i ty.now → ⊥) → shift by 0 t ≡ ty.now) }
    ensures normal { IfOk result (λ t. (inner ctx : List KindTree) (k : KindTree) → length inner ≡ by → Normal (inner ++ ctx) ty.now k → ((i : ℕ) → i < by → Mentions i ty.now → ⊥) → Normal ctx t k) }
{
    lower_from(alloc, ty, by, 0)
}

/// The type with each free index that is at least `from` less by `by`, but no less than `from`.
/// `Err` is out of memory.
pub fn lower_from(alloc: Global, ty: &NormalTy, by: u64, from: u64) -> Result<NormalTy, Mem>
    ensures { IfOk result (λ t. t ≡ lower_from by from ty.now) }
{
    Ok(as_normal(walk_type(alloc, plain(ty), &Lowering { by }, from)?))
}
