// The coercions to signatures that hide types.
ghost use Rattle.std.specs.Prelude.{◌≡◌, IfOk};
ghost use Rattle.omega_terms.specs.Term.{Call, Lam, Var};
ghost use Rattle.omega_shorthands.specs.Inner.Packed.{opened, pack_up as pack_up_of};
ghost use Rattle.coercion_terms.specs.Inner.Rows.{HasAbsType, HasMatchType, IsAbsPart, IsMatchPart};

use omega_kinds::Mem;
use omega_shorthands::{opens, pack_up, variable};
use omega_terms::{Term, TermNode};
use omega_types::Ty;
use std::alloc::Global;
use type_normal::NormalTy;

/// The coercion of a signature that hides nothing, whose encoding is `from`, to one that hides types, whose encoding
/// `to` begins with one `some` for each of `types`, the outermost for the first. `inner` coerces to the right side's
/// body at `types`. A `to` that begins with fewer `some` is packed no further than these. `Err` is out of memory.
pub fn match_part(
    alloc: Global,
    from: &Ty,
    types: &[NormalTy],
    inner: &Term,
    to: &Ty,
) -> Result<Term, Mem>
    ensures exact { IfOk result (λ e. e ≡ Lam from.now (pack_up_of types.now (Call inner.now (Var 0)) to.now)) }
    ensures value { IfOk result (λ e. IsMatchPart from.now types.now inner.now to.now e) }
    ensures typed { IfOk result (λ e. HasMatchType from.now types.now inner.now to.now e) }
{
    let body = coerced(alloc, types, inner, to)?;
    Term::make(alloc, TermNode::Lam(from.share()?, body))
}

/// The coercion of a signature that hides so many types, at least one, whose encoding is `from`. Under these `types`,
/// `inner` and `to` stand, as in the coercion of a signature that hides nothing, and `to` may begin with fewer `some` as
/// there. For a `count` of 0 it is a `let` at the type `from`. `Err` is out of memory.
pub fn abs_part(
    alloc: Global,
    from: &Ty,
    count: u64,
    types: &[NormalTy],
    inner: &Term,
    to: &Ty,
) -> Result<Term, Mem>
    ensures exact { IfOk result (λ e. e ≡ Lam from.now (opened count (Var 0) from.now (pack_up_of types.now (Call inner.now (Var 0)) to.now))) }
    ensures value { IfOk result (λ e. IsAbsPart from.now count types.now inner.now to.now e) }
    ensures typed { IfOk result (λ e. HasAbsType from.now count types.now inner.now to.now e) }
{
    let body = coerced(alloc, types, inner, to)?;
    let opened = opens(alloc, count, variable(alloc, 0)?, from, body)?;
    Term::make(alloc, TermNode::Lam(from.share()?, opened))
}

// The innermost variable coerced, and types hidden in it.
fn coerced(alloc: Global, types: &[NormalTy], inner: &Term, to: &Ty) -> Result<Term, Mem>
    ensures { IfOk result (λ e. e ≡ pack_up_of types.now (Call inner.now (Var 0)) to.now) }
{
    let called = Term::make(alloc, TermNode::Call(inner.share()?, variable(alloc, 0)?))?;
    pack_up(alloc, types, &called, to)
}
