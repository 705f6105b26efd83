// The first variable of a signature that may be taken.
ghost use Rattle.std.specs.Prelude.{◌≡◌, ◌↔◌, ◌+◌, Some, None, length, IfOk, IsTrue, slice_get};
ghost use Rattle.semantic_sigs.specs.Inner.Fields.{sig_row};
ghost use Rattle.packages.specs.Inner.First.{first as first_of, first_row, first_type as first_type_of, barred, blocks};

use omega_kinds::{Effect, Kinds, Mem};
use omega_types::Ty;
use semantic_sigs::{Sig, SigFields, SigNode, sig_mentions};
use sig_roots::rooted;
use type_normal::plain;

// The index of the first variable on the way through a signature, in the order of paths, that is rooted there and not
// taken yet, and where no functor parameter on the way mentions one that is not taken yet. The signature stands below the
// `depth` variables of these functors; a variable that is taken has a place.
#[cycle(first)]
pub(crate) fn first(sig: &Sig, depth: u64, places: &[Option<u64>]) -> Result<Option<u64>, Mem>
    ensures { IfOk result (λ found. found ≡ first_of places.now depth sig.now) }
{
    match sig.node() {
        SigNode::Typ(ty, _) => first_type(plain(ty), depth, places),
        SigNode::Str(fields) => first_field(fields, depth, places),
        SigNode::Fun {
            effect,
            kinds,
            param,
            result,
        } => match effect {
            Effect::Pure => {
                let inner = inside(depth, kinds)?;
                if is_barred(param, inner, places) {
                    return Ok(None);
                }
                first(result.body(), inner, places)
            }
            Effect::Impure => Ok(None),
        },
        SigNode::Val(_) => Ok(None),
        SigNode::Meta(_) => Ok(None),
    }
}

// The same for the parts of a structure.
#[cycle(first)]
#[tactic(auto, using(crate::proofs::Steps::field_steps))]
fn first_field(fields: &SigFields, depth: u64, places: &[Option<u64>]) -> Result<Option<u64>, Mem>
    ensures { IfOk result (λ found. found ≡ first_row places.now depth (sig_row fields.now)) }
{
    for field in fields.items() {
        if let Some(index) = first(&field.1, depth, places)? {
            return Ok(Some(index));
        }
    }
    Ok(None)
}

// The same for a type.
pub(crate) fn first_type(ty: &Ty, depth: u64, places: &[Option<u64>]) -> Result<Option<u64>, Mem>
    ensures { IfOk result (λ found. found ≡ first_type_of places.now depth ty.now) }
{
    match rooted(ty, depth)? {
        Some(index) if is_untaken(index, places) => Ok(Some(index)),
        _ => Ok(None),
    }
}

// Whether there is a variable of this index that is not taken yet.
fn is_untaken(index: u64, places: &[Option<u64>]) -> bool
    ensures { IsTrue result ↔ slice_get places.now index ≡ Some None }
{
    matches!(places.get(index as usize), Some(None))
}

// Whether a functor's parameter, below `depth` variables of functors, mentions a variable that is not taken yet. Takes no
// memory.
#[tactic(auto, using(crate::proofs::Steps::barred_steps))]
pub(crate) fn is_barred(param: &Sig, depth: u64, places: &[Option<u64>]) -> bool
    ensures { result ≡ barred places.now depth param.now }
{
    let mut index = depth;
    for place in places {
        if param.bound() <= index {
            return false;
        }
        if is_blocking(place, param, index) {
            return true;
        }
        index += 1;
    }
    false
}

// Whether the parameter mentions the variable of this index, which has no place.
#[tactic(auto, using(crate::proofs::Steps::block_steps))]
fn is_blocking(place: &Option<u64>, param: &Sig, index: u64) -> bool
    ensures { result ≡ blocks place.now index param.now }
{
    place.is_none() && sig_mentions(param, index)
}

// The number of variables below those of a functor, `depth` being outside.
pub(crate) fn inside(depth: u64, kinds: &Kinds) -> Result<u64, Mem>
    ensures { IfOk result (λ inner. inner ≡ length kinds.now + depth) }
{
    (kinds.items().len() as u64).checked_add(depth).ok_or(Mem)
}
