// Which free variables a signature mentions.
ghost use Rattle.std.specs.Prelude.{◌≡◌, ◌↔◌, ◌+◌, IsTrue};
ghost use Rattle.sig_definitions.specs.Signatures.SigMentions.{MentionsSig};
ghost use Rattle.type_normal.specs.Inner.Least.{is_first};
ghost use Rattle.semantic_sigs.specs.Inner.Fields.{sig_row};
ghost use Rattle.semantic_sigs.specs.Inner.Least.{least_sig, least_abs, least_sig_row};

use crate::tree::{Abs, Sig, SigFields, SigNode};
use type_normal::{least_free, lesser};

/// Whether the index is free in the signature. Takes no memory.
pub fn sig_mentions(sig: &Sig, index: u64) -> bool
    ensures { IsTrue result ↔ MentionsSig index sig.now }
{
    is_first(least_in_sig(sig, index))
}

/// How far above `from` the least free index of the signature is that is at least `from`; `None` where there is none.
/// What comes after an occurrence of `from` itself is not looked at. Takes no memory.
#[cycle(least)]
pub fn least_in_sig(sig: &Sig, from: u64) -> Option<u64>
    ensures { result ≡ least_sig from sig.now }
{
    match sig.node() {
        SigNode::Val(ty) => least_free(ty, from),
        SigNode::Typ(ty, _) => least_free(ty, from),
        SigNode::Meta(abs) => least_in_abs(abs, from),
        SigNode::Str(fields) => least_in_sig_fields(fields, from),
        SigNode::Fun {
            kinds,
            param,
            result,
            ..
        } => {
            let count = kinds.items().len() as u64;
            let least = least_under(param, from, count);
            if is_first(least) {
                return least;
            }
            lesser(least, least_abs_under(result, from, count))
        }
    }
}

// The same for an abstract signature.
#[cycle(least)]
fn least_in_abs(abs: &Abs, from: u64) -> Option<u64>
    ensures { result ≡ least_abs from abs.now }
{
    least_under(abs.body(), from, abs.kinds().items().len() as u64)
}

// The same below `count` binders, for indexes from outside them.
#[cycle(least)]
fn least_under(sig: &Sig, from: u64, count: u64) -> Option<u64>
    ensures { result ≡ least_sig (count + from) sig.now }
{
    if sig.bound().saturating_sub(count) <= from {
        return None;
    }
    least_in_sig(sig, count + from)
}

// The same for an abstract signature.
#[cycle(least)]
fn least_abs_under(abs: &Abs, from: u64, count: u64) -> Option<u64>
    ensures { result ≡ least_abs (count + from) abs.now }
{
    if abs.bound().saturating_sub(count) <= from {
        return None;
    }
    least_in_abs(abs, count + from)
}

// The same for the parts of a structure.
#[cycle(least)]
fn least_in_sig_fields(fields: &SigFields, from: u64) -> Option<u64>
    ensures { result ≡ least_sig_row from (sig_row fields.now) }
{
    let mut least = None;
    for field in fields.items() {
        if is_first(least) {
            return least;
        }
        least = lesser(least, least_in_sig(&field.1, from));
    }
    least
}

// Whether no lesser number can be found: the index looked for is itself free.
fn is_first(least: Option<u64>) -> bool
    ensures { result ≡ is_first least }
{
    matches!(least, Some(0))
}
