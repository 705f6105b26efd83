// Types in normal form.
ghost use Rattle.std.specs.Prelude.{◌≡◌, IfOk, List};
ghost use Rattle.omega_kinds.specs.Kind.{Kind as KindTree};
ghost use Rattle.omega_types.specs.Index.{bump, shift};
ghost use Rattle.omega_types.specs.Normality.{Normal};
ghost use Rattle.omega_types.specs.Normalises.{Maps};

use omega_kinds::Mem;
use omega_types::{Ty, shift};
use std::alloc::Global;
use std::marker::Model;

/// A type in normal form, beta-normal and eta-long, in the context in which it stands.
/// Contracts see it as its plain tree, and say in which contexts it is normal.
///
/// Harper and Pfenning, "On equivalence and canonical forms in the LF type theory" (2005), has such forms as canonical ones.
#[derive(Drop)]
pub struct NormalTy {
    inner: Ty,
}

impl Model for NormalTy {
    ghost use Rattle.omega_types.specs.Ty.{Ty as TyTree};
    ghost use Rattle.omega_types.specs.Inner.Code.{ty_code};

    ghost Value = { TyTree };

    ghost coded = { ty_code };

    ghost view = { λ n. n.inner };
}

impl NormalTy {
    /// The same type, with its parts shared. `Err` is out of memory.
    pub fn share(&self) -> Result<NormalTy, Mem>
        ensures { IfOk result (λ t. t ≡ self.now) }
    {
        Ok(NormalTy {
            inner: self.inner.share()?,
        })
    }
}

/// The type itself, the same tree. Takes no memory.
pub fn plain(ty: &NormalTy) -> &Ty
    ensures { result.now ≡ ty.now }
{
    &ty.inner
}

/// A type that is normal in some context, the same tree: it is normal in each context in which the argument is.
/// Takes no memory.
pub fn as_normal(ty: Ty) -> NormalTy
    ensures { result ≡ ty }
{
    NormalTy { inner: ty }
}

/// The type with `by` added to each free index that is at least `from`. It is normal in each context to which the shift
/// takes one of the argument's. `Err` is out of memory, also where an index would pass the last number.
pub fn raise(alloc: Global, ty: &NormalTy, by: u64, from: u64) -> Result<NormalTy, Mem>
    ensures value { IfOk result (λ t. t ≡ shift by from ty.now) }
    ensures normal { IfOk result (λ t. (ctx other : List KindTree) (k : KindTree) → Maps ctx other (bump by from) → Normal ctx ty.now k → Normal other t k) }
{
    Ok(as_normal(shift(alloc, plain(ty), by, from)?))
}
