// A whole text.
ghost use Rattle.std.specs.Prelude.{◌≡◌, ◌⊎◌, Result, Ok, Err, None, false, IfOk};
ghost use Rattle.omega_types.specs.Ty.{Ty as TyTree};
ghost use Rattle.omega_terms.specs.Term.{Term as TermTree};
ghost use Rattle.omega_terms.specs.InScope.{TyInScope, TermInScope};
ghost use Rattle.omega_terms.specs.declared.version.Version.{Version as VersionTree};
ghost use Rattle.omega_terms.specs.OmegaText.{version_text};
ghost use Rattle.omega_spelling.specs.Spelled.{TySpelled};
ghost use Rattle.omega_spelling.specs.TermReading.{TermSpelled};
ghost use Rattle.omega_spelling.specs.Omega.{version_at, omega_at};
ghost use Rattle.omega_spelling.specs.Refusals.{is_version, other_version, is_too_deep};
ghost use Rattle.omega_read.specs.Inner.Gives.{Gives, GivesAll};
ghost use Rattle.omega_read.specs.ReadAs.{ReadAs, RefusedAs};

use crate::depth::too_deep;
use crate::left::{Left, Stop};
use crate::numbers::digits_len;
use crate::terms::term_of;
use crate::types::ty_of;
use crate::wide::{any_wide, with_zeros};
use omega_terms::{Term, Version};
use omega_types::Ty;
use std::alloc::Global;
use thiserror::Error;

/// Why bytes are refused as Omega text: the first that holds, in the order `Version`, `TooDeep`, `Wide`, `NotOmega`.
#[derive(Clone, Copy, Debug, PartialEq, Eq, Error)]
pub enum ReadRefusal {
    /// The bytes are no Omega text, and no other refusal holds.
    #[error("the bytes are no Omega text")]
    NotOmega,
    /// The bytes begin with `omega `, one or more digits other than `1` and `2` alone, and a line end.
    #[error("the text has another version")]
    Version,
    /// With each number replaced by 0 the bytes are Omega text, and some number is outside signed 64 bits.
    #[error("a number is outside signed 64 bits")]
    Wide,
    /// In some prefix of the bytes more than 4,000 parentheses are open outside texts.
    #[error("more than 4,000 parentheses are open at once")]
    TooDeep,
    /// Want of memory.
    #[error("memory ran out")]
    Mem,
}

// Whether digits and what is behind them are the number of another version and a line end.
fn is_other(digits: &[u8], rest: &[u8]) -> bool
    ensures { result ≡ other_version (digits.now, rest.now) }
{
    match (digits, rest) {
        ([], _) => false,
        ([_, ..], []) => false,
        ([d], [e, ..]) => *e == b'\n' && *d != b'1' && *d != b'2',
        ([_, _, ..], [e, ..]) => *e == b'\n',
    }
}

// Whether the text has another version.
#[tactic(auto, unfolding(omega_spelling::specs::Refusals::is_version))]
fn has_other_version(bytes: &[u8]) -> bool
    ensures { result ≡ is_version bytes.now }
{
    let mut left = Left { rest: bytes };
    if !left.eat(b"omega ") {
        return false;
    }
    let n = digits_len(left.rest);
    let (digits, rest) = left.rest.split_at(n);
    is_other(digits, rest)
}

// The version that the first line names.
#[tactic(auto, unfolding(omega_spelling::specs::Omega::version_at))]
fn version_of(left: &mut Left<'_>) -> Result<Version, Stop>
    ensures { Gives (λ v. v) result left.new.rest.now (version_at left.old.rest.now) }
{
    if left.eat(b"omega 1\n") {
        return Ok(Version::First);
    }
    if left.eat(b"omega 2\n") {
        return Ok(Version::Second);
    }
    Err(Stop::NotOmega)
}

// The type and the term of a whole text, with at most 4,000 parentheses open at once.
#[tactic(auto, unfolding(omega_spelling::specs::Omega::omega_at))]
fn omega_of(alloc: Global, bytes: &[u8]) -> Result<(Ty, Term), Stop>
    ensures { GivesAll (λ x. x) result (omega_at bytes.now) }
{
    let mut left = Left { rest: bytes };
    let version = version_of(&mut left)?;
    let ty = ty_of(alloc, version, 4000, 0, &mut left)?;
    left.expect_bytes(b"\n")?;
    let term = term_of(alloc, version, 4000, 0, 0, &mut left)?;
    left.expect_bytes(b"\n")?;
    match left.rest {
        [] => Ok((ty, term)),
        [_, ..] => Err(Stop::NotOmega),
    }
}

// Why bytes are refused that have no other version, are not too deep, and are not read.
#[tactic(auto, using(crate::proofs::Wholes::wholes))]
fn refusal_of(alloc: Global, bytes: &[u8]) -> ReadRefusal
    requires version { is_version bytes.now ≡ false }
    requires shallow { is_too_deep bytes.now ≡ false }
    requires unread { omega_at bytes.now ≡ None }
    ensures { RefusedAs bytes.now result }
{
    if !any_wide(bytes) {
        return ReadRefusal::NotOmega;
    }
    match with_zeros(alloc, bytes) {
        Err(_) => ReadRefusal::Mem,
        Ok(zeroed) => match omega_of(alloc, &zeroed) {
            Ok(_) => ReadRefusal::Wide,
            Err(Stop::Mem) => ReadRefusal::Mem,
            Err(Stop::NotOmega) => ReadRefusal::NotOmega,
        },
    }
}

/// The type and the term whose Omega text the bytes are, in the version that the first line names. `Ok` comes exactly where they are such a text and no more
/// than 4,000 parentheses are open in it; each refusal but out of memory exactly where it is the first that holds.
/// Both are closed, so that they can be written again.
#[tactic(auto, using(crate::proofs::Wholes::wholes))]
pub fn read(alloc: Global, bytes: &[u8]) -> Result<(Ty, Term), ReadRefusal>
    ensures answer { ReadAs bytes.now result }
    ensures scope { IfOk result (λ x. TyInScope 0 x.0 × TermInScope 0 0 x.1) }
{
    if has_other_version(bytes) {
        return Err(ReadRefusal::Version);
    }
    if too_deep(bytes) {
        return Err(ReadRefusal::TooDeep);
    }
    match omega_of(alloc, bytes) {
        Ok(read) => Ok(read),
        Err(Stop::Mem) => Err(ReadRefusal::Mem),
        Err(Stop::NotOmega) => Err(refusal_of(alloc, bytes)),
    }
}

/// A text of either version with at most 4,000 open parentheses, whose labels, texts and numbers have a spelling, is
/// read back to the same type and term, unless memory runs out. What is written is the text of the second version.
pub fn read_back()
    ensures { (v : VersionTree) (t : TyTree) (e : TermTree) → TySpelled v 0 t → TermSpelled v 0 0 e
        → is_too_deep (version_text v t e) ≡ false
        → (answer : Result (TyTree × TermTree) ReadRefusal) → ReadAs (version_text v t e) answer
        → (answer ≡ Ok (t, e)) ⊎ (answer ≡ Err ReadRefusal.Mem) }
{}
