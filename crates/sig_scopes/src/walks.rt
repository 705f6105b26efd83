// Walks over signatures that look at each type.
ghost use Rattle.std.specs.Prelude.{◌≡◌, ◌+◌, ◌^◌, ◌<◌, ◌≤◌, MatchOption, IsTrue, length};
ghost use Rattle.semantic_sigs.specs.Inner.Fields.{sig_row};
ghost use Rattle.sig_text.specs.Inner.SigInScope.{AbsInScope};
ghost use Rattle.sig_scopes.specs.Inner.SigDepth.{abs_depth};
ghost use Rattle.sig_scopes.specs.Inner.SigScoped.{abs_scoped, sig_scoped, sig_row_scoped};

use omega_kinds::Kinds;
use omega_scopes::ty_in_scope;
use semantic_sigs::{Abs, Sig, SigFields, SigNode};
use type_normal::plain;

/// Whether each variable of the signature is among so many type variables in scope and has a level below 2^64, and
/// below each list of binders the number in scope is below 2^64. It may be false also where 2^64 variables or more are
/// in scope below a binder of a type in it. Takes no memory.
pub fn abs_in_scope(types: u64, abs: &Abs) -> bool
    ensures sound { IsTrue result → AbsInScope types abs.now }
    ensures complete { AbsInScope types abs.now → types + abs_depth abs.now < 2 ^ 64 → IsTrue result }
{
    fits_abs(types, abs)
}

// Whether each variable of the abstract signature is in scope.
#[cycle(sigs)]
fn fits_abs(types: u64, abs: &Abs) -> bool
    ensures { result ≡ abs_scoped types abs.now }
{
    match below(types, abs.kinds()) {
        Some(inner) => fits_sig(inner, abs.body()),
        None => false,
    }
}

// Whether each variable of the signature is in scope.
#[cycle(sigs)]
fn fits_sig(types: u64, sig: &Sig) -> bool
    ensures { result ≡ sig_scoped types sig.now }
{
    match sig.node() {
        SigNode::Val(ty) => ty_in_scope(types, plain(ty)),
        SigNode::Typ(ty, _) => ty_in_scope(types, plain(ty)),
        SigNode::Meta(abs) => fits_abs(types, abs),
        SigNode::Str(fields) => fits_fields(types, fields),
        SigNode::Fun {
            kinds,
            param,
            result,
            ..
        } => match below(types, kinds) {
            Some(inner) => fits_sig(inner, param) && fits_abs(inner, result),
            None => false,
        },
    }
}

// Whether each variable of the fields is in scope.
#[cycle(sigs)]
fn fits_fields(types: u64, fields: &SigFields) -> bool
    ensures { result ≡ sig_row_scoped types (sig_row fields.now) }
{
    for field in fields.items() {
        if !fits_sig(types, &field.1) {
            return false;
        }
    }
    true
}

// How many variables are in scope below these binders; `None` exactly where they are 2^64 or more.
fn below(types: u64, kinds: &Kinds) -> Option<u64>
    ensures { MatchOption result (2 ^ 64 ≤ types + length kinds.now) (λ inner. (inner ≡ types + length kinds.now) × (inner < 2 ^ 64)) }
{
    types.checked_add(kinds.items().len() as u64)
}
