// The normal forms of types that are written in a term.
ghost use Rattle.std.specs.Prelude.{◌≡◌, IfOk};
ghost use Rattle.std.specs.Option.{option_map};
ghost use Rattle.omega_kinds.specs.View.{kind_tree};
ghost use Rattle.omega_types.specs.Inner.Scope.{scope_of};
ghost use Rattle.omega_types.specs.KindIn.{kind_in};
ghost use Rattle.omega_node_laws.specs.Found.{normal_at as normal_at_of};

use crate::normality::is_normal;
use omega_kinds::{Kind, Mem, same_kind};
use omega_types::{Ty, kind_of};
use std::alloc::Global;
use type_normal::{NormalTy, as_normal, normal};

// The kind of a type, and none where it has none.
fn find_kind(alloc: Global, ctx: &[Kind], ty: &Ty) -> Result<Option<Kind>, Mem>
    ensures { IfOk result (λ o. option_map kind_tree o ≡ kind_in (scope_of ctx.now) ty.now) }
{
    kind_of(alloc, ctx, ty)
}

// The normal form of a type that may not be normal yet, and none where it has not the kind.
fn normalised(alloc: Global, ctx: &[Kind], ty: &Ty, kind: &Kind) -> Result<Option<NormalTy>, Mem>
    ensures { IfOk result (λ o. o ≡ normal_at_of (scope_of ctx.now) ty.now (kind_tree kind.now)) }
{
    match find_kind(alloc, ctx, ty)? {
        Some(found) => {
            if same_kind(&found, kind) {
                Ok(Some(normal(alloc, ctx, ty, kind)?))
            } else {
                Ok(None)
            }
        }
        None => Ok(None),
    }
}

// A normal type as it is.
fn kept(ty: &Ty) -> Result<NormalTy, Mem>
    ensures { IfOk result (λ t. t ≡ ty.now) }
{
    Ok(as_normal(ty.share()?))
}

/// The normal form of a type, and none where it has not the kind. A type that is normal is given back as it is.
/// `Err` is out of memory.
pub(crate) fn normal_at(
    alloc: Global,
    ctx: &[Kind],
    ty: &Ty,
    kind: &Kind,
) -> Result<Option<NormalTy>, Mem>
    ensures { IfOk result (λ o. o ≡ normal_at_of (scope_of ctx.now) ty.now (kind_tree kind.now)) }
{
    if is_normal(alloc, ctx, ty, kind)? {
        Ok(Some(kept(ty)?))
    } else {
        normalised(alloc, ctx, ty, kind)
    }
}
