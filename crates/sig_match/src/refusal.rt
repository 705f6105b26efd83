// What matching answers.
use omega_kinds::Mem;
use omega_terms::Term;
use semantic_sigs::{Path, Why, Witnesses};

/// What a match gives: a type for each hidden one of the right side, in their order, and the coercion from the left side
/// to the right side's body at these types.
#[derive(Drop)]
pub struct Matched {
    pub types: Witnesses,
    pub coercion: Term,
}

/// Why two signatures do not match. `NoRoot`: the hidden type of this number, counted from 0, has no type on the left
/// along its least root path; both are those of the match at the last functor's part or signature part on the way there,
/// with which the path begins. `Clash`: the parts at the path do not agree; the types of the reason stand where so many
/// type variables are in scope. `Mem` is out of memory.
#[derive(Drop)]
pub enum MatchRefusal {
    NoRoot { index: u64, path: Path },
    Clash { types: u64, path: Path, why: Why },
    Mem,
}

impl From<Mem> for MatchRefusal {
    ghost use Rattle.std.specs.Prelude.{◌≡◌};
    ghost use Rattle.sig_match.specs.Inner.Refusals.{want_of_memory};

    ghost from_gives = { λ _ e. e ≡ want_of_memory };

    fn from(_refused: Mem) -> MatchRefusal {
        MatchRefusal::Mem
    }
}
