// The hidden types of a signature: as types of their own scope, and kept out of what stands outside.
ghost use Rattle.std.specs.Prelude.{◌≡◌, ◌↔◌, length, IfOk, IsTrue, MatchOption};
ghost use Rattle.omega_kinds.specs.View.{kind_tree};
ghost use Rattle.omega_types.specs.Binders.{vars};
ghost use Rattle.omega_types.specs.EtaLong.{eta};
ghost use Rattle.omega_types.specs.Index.{shift};
ghost use Rattle.omega_types.specs.Ty.{Var};
ghost use Rattle.module_rules.specs.Inner.Shown.{MentionsHidden, SigMentionsHidden, IsOutside, SigIsOutside};

use omega_kinds::{Kind, Kinds, Mem};
use omega_types::{Ty, TyNode};
use semantic_sigs::{Sig, Witnesses, lower_sig, sig_mentions};
use std::alloc::Global;
use type_normal::{NormalTy, lower, mentions, normal, raise};

// How many binders these are.
pub(crate) fn count_of(kinds: &Kinds) -> u64
    ensures { result ≡ length kinds.now }
{
    kinds.items().len() as u64
}

// The variables that binders of these kinds bind, below all of them, in normal form. `Err` is out of memory.
pub(crate) fn own_types(alloc: Global, kinds: &Kinds) -> Result<Witnesses, Mem>
    ensures { IfOk result (λ ts. ts ≡ vars kinds.now) }
{
    let list = kinds.items();
    let mut types = Witnesses::new(alloc);
    let mut inner = list.len() as u64;
    for kind in list {
        inner -= 1;
        let own = own_type(alloc, kind, inner)?;
        types.push(own)?;
    }
    Ok(types)
}

// The variable of a kind below so many further binders, in normal form. `Err` is out of memory.
fn own_type(alloc: Global, kind: &Kind, inner: u64) -> Result<NormalTy, Mem>
    ensures { IfOk result (λ t. t ≡ shift inner 0 (eta (kind_tree kind.now) (Var 0))) }
{
    let variable = Ty::make(alloc, TyNode::Var(0))?;
    let scope = [kind.share()?];
    let innermost = normal(alloc, &scope, &variable, kind)?;
    raise(alloc, &innermost, inner, 0)
}

// Whether the type mentions one of so many innermost variables.
fn mentions_hidden(ty: &NormalTy, count: u64) -> bool
    ensures { IsTrue result ↔ MentionsHidden count ty.now }
{
    let mut index = 0;
    while index < count {
        if mentions(ty, index) {
            return true;
        }
        index += 1;
    }
    false
}

// The type as it stands outside of so many innermost variables; `None` exactly where it mentions one of them.
// `Err` is out of memory.
pub(crate) fn outside(alloc: Global, ty: &NormalTy, count: u64) -> Result<Option<NormalTy>, Mem>
    ensures { IfOk result (λ o. MatchOption o (MentionsHidden count ty.now) (λ n. IsOutside count ty.now n)) }
{
    if mentions_hidden(ty, count) {
        return Ok(None);
    }
    let lowered = lower(alloc, ty, count)?;
    Ok(Some(lowered))
}

// Whether the signature mentions one of so many innermost variables.
fn sig_mentions_hidden(sig: &Sig, count: u64) -> bool
    ensures { IsTrue result ↔ SigMentionsHidden count sig.now }
{
    let mut index = 0;
    while index < count {
        if sig_mentions(sig, index) {
            return true;
        }
        index += 1;
    }
    false
}

// The same for a signature.
pub(crate) fn outside_sig(alloc: Global, sig: &Sig, count: u64) -> Result<Option<Sig>, Mem>
    ensures { IfOk result (λ o. MatchOption o (SigMentionsHidden count sig.now) (λ n. SigIsOutside count sig.now n)) }
{
    if sig_mentions_hidden(sig, count) {
        return Ok(None);
    }
    let lowered = lower_sig(alloc, sig, count)?;
    Ok(Some(lowered))
}
