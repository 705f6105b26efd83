// Matches that were made, so that a look-up through a functor and the comparison of that functor make one match.
ghost use Rattle.std.specs.Prelude.{◌≡◌, ◌↔◌, IfOk, IsTrue, MatchOption, Ok};
ghost use Rattle.sig_definitions.specs.Signatures.Sig.{Abs as AbsTree, Sig as SigTree};
ghost use Rattle.sig_match.specs.Inner.Made.{AllHold, IsKey};
ghost use Rattle.sig_match.specs.Inner.Outcomes.{EachMatch};

use crate::refusal::Matched;
use omega_kinds::Mem;
use semantic_sigs::{Abs, Sig, encode, encode_sig};
use std::alloc::Global;
use type_normal::{NormalTy, as_normal, same};

/// What a match is known by: how many type variables are in scope, and the encodings of its sides, which tell the sides.
#[derive(Drop)]
pub(crate) struct Key {
    pub(crate) depth: u64,
    pub(crate) left: NormalTy,
    pub(crate) right: NormalTy,
}

/// A match that was made.
#[derive(Drop)]
pub(crate) struct Made {
    pub(crate) key: Key,
    pub(crate) matched: Matched,
}

/// The key of the match of these sides.
pub(crate) fn key_of(alloc: Global, depth: u64, left: &Sig, right: &Abs) -> Result<Key, Mem>
    ensures { IfOk result (λ key. IsKey depth left.now right.now key) }
{
    Ok(Key {
        depth,
        left: as_normal(encode_sig(left)?),
        right: as_normal(encode(alloc, right)?),
    })
}

/// The match of a key, if it was made.
pub(crate) fn known<'a>(made: &'a [Made], key: &Key) -> Option<&'a Matched>
    requires { AllHold made.now }
    ensures { MatchOption result (Unit {0}) (λ m. (s : SigTree) (x : AbsTree) → IsKey key.now.depth s x key.now → EachMatch key.now.depth s x (Ok m.now)) }
{
    for one in made {
        if same_key(&one.key, key) {
            return Some(&one.matched);
        }
    }
    None
}

// Whether two keys are the same.
fn same_key(one: &Key, other: &Key) -> bool
    ensures { IsTrue result ↔ (one.now ≡ other.now) }
{
    one.depth == other.depth && same(&one.left, &other.left) && same(&one.right, &other.right)
}

/// One more match that was made, with its key.
pub(crate) fn keep(made: &mut Vec<Made>, key: Key, matched: Matched) -> Result<(), Mem>
    requires holds { AllHold made.old.items }
    requires one { (s : SigTree) × (x : AbsTree) × IsKey key.depth s x key × EachMatch key.depth s x (Ok matched) }
    ensures { AllHold made.new.items }
{
    made.push(Made { key, matched })?;
    Ok(())
}
