// Hereditary substitution.
ghost use Rattle.std.specs.Prelude.{◌≡◌, IfOk, List};
ghost use Rattle.omega_kinds.specs.Kind.{Kind as KindTree};
ghost use Rattle.omega_kinds.specs.View.{kind_tree};
ghost use Rattle.omega_types.specs.Index.{substitute_at, Inserts};
ghost use Rattle.omega_types.specs.Normality.{Normal};
ghost use Rattle.omega_types.specs.Normaliser.{hsubst};
ghost use Rattle.omega_types.specs.Normalises.{NormalForm};

use crate::normal_ty::{NormalTy, as_normal, plain};
use crate::placing::{Coming, place};
use omega_kinds::{Kind, Mem};
use omega_types::Ty;
use std::alloc::Global;

/// The normal form of a type in which `arg`, of kind `kind`, is put for the variable `index`, and each greater index is
/// lowered by one. `arg` stands in the context of the result. Each operator that `arg` brings to an argument is applied
/// to it at once, at the kind of the argument, which is a part of `kind`: so the result is normal again.
/// A part that mentions neither the variable nor a greater index is given back as it is. `Err` is out of memory.
///
/// Keller and Altenkirch, "Hereditary substitutions for simple types, formalized" (2010).
pub fn hsubst(
    alloc: Global,
    body: &NormalTy,
    index: u64,
    arg: &NormalTy,
    kind: &Kind,
) -> Result<NormalTy, Mem>
    ensures value { IfOk result (λ t. t ≡ hsubst (kind_tree kind.now) index arg.now body.now) }
    ensures normal { IfOk result (λ t. (ctx more : List KindTree) (l : KindTree) → Inserts (kind_tree kind.now) index ctx more → Normal ctx arg.now (kind_tree kind.now) → Normal more body.now l → NormalForm ctx (substitute_at index arg.now body.now) l t) }
{
    Ok(as_normal(fill_whole(alloc, plain(body), index, plain(arg), kind)?))
}

/// The hereditary substitution of any type for a variable of a kind, as the definitions have it.
/// `Err` is out of memory.
pub(crate) fn fill_whole(
    alloc: Global,
    body: &Ty,
    index: u64,
    arg: &Ty,
    kind: &Kind,
) -> Result<Ty, Mem>
    ensures { IfOk result (λ t. t ≡ hsubst (kind_tree kind.now) index arg.now body.now) }
{
    place(alloc, body, &Coming::One(index, arg, kind), 0)
}
