// Function types of normal types.
ghost use Rattle.std.specs.Prelude.{◌≡◌, IfOk};
ghost use Rattle.omega_types.specs.Ty.{Ty as TyTree};

use crate::comparing::same;
use crate::normal_ty::{NormalTy, as_normal, plain};
use omega_kinds::Mem;
use omega_types::{Ty, TyNode};
use std::alloc::Global;

/// The type of functions from one type to another. Where both are the same tree, that tree is kept once for both sides, so
/// what is done to it is done once. `Err` is out of memory.
pub fn function_type(alloc: Global, from: &NormalTy, to: &NormalTy) -> Result<NormalTy, Mem>
    ensures { IfOk result (λ t. t ≡ TyTree.Arrow from.now to.now) }
{
    if same(from, to) {
        return Ok(as_normal(Ty::to_itself(alloc, plain(from).share()?)?));
    }
    let node = TyNode::Arrow(plain(from).share()?, plain(to).share()?);
    Ok(as_normal(Ty::make(alloc, node)?))
}
