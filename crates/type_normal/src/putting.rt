// Normal types put in for the innermost variables of a normal type, all at once, with the normal form of the result.
ghost use Rattle.std.specs.Prelude.{◌≡◌, IfOk, List, length};
ghost use Rattle.omega_kinds.specs.Kind.{Kind as KindTree};
ghost use Rattle.omega_types.specs.Binders.{NormalForms, extend, puts, unders};
ghost use Rattle.omega_types.specs.Normalises.{NormalForm};
ghost use Rattle.omega_types.specs.Normality.{Normal};
ghost use Rattle.omega_types.specs.Substitution.{substitute};
ghost use Rattle.omega_types.specs.Ty.{Var};
ghost use Rattle.type_normal.specs.Inner.Heads.{putting, sunk, ty_in};

use crate::normal_ty::{NormalTy, as_normal, plain};
use crate::placing::{Coming, place};
use omega_kinds::Mem;
use std::alloc::Global;

/// A type below `depth` binders, with normal types put in for the innermost variables outside these binders, one for
/// each, the first for the outermost, whatever types they are. Where the types have the kinds of the variables in the
/// context `ctx` outside of both, and the type is normal under both, it is the normal form of the substitution under the
/// binders `inner`. `Err` is out of memory, also where an index would pass the last number.
pub fn put_types(
    alloc: Global,
    ty: &NormalTy,
    types: &[NormalTy],
    depth: u64,
) -> Result<NormalTy, Mem>
    ensures value { IfOk result (λ t. t ≡ ty_in (sunk depth (putting types.now)) ty.now) }
    ensures normal { IfOk result (λ t. (inner ctx ks : List KindTree) (k : KindTree) → length inner ≡ depth → NormalForms ctx types.now ks types.now → Normal (extend (extend ctx ks) inner) ty.now k → NormalForm (extend ctx inner) (substitute (unders inner (puts types.now Var)) ty.now) k t) }
{
    Ok(as_normal(place(alloc, plain(ty), &Coming::Many(types), depth)?))
}
