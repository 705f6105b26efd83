// Labels read from text.
ghost use Rattle.std.specs.Prelude.{◌≡◌, ◌≤◌, length, take, drop, map};
ghost use Rattle.omega_spelling.specs.Reading.{run, in_name, begins_name, is_keyword, is_one_of, is_name, hidden_at, name_at, label_at};
ghost use Rattle.omega_read.specs.Inner.Gives.{Gives};

use crate::left::{Left, Stop};
use omega_kinds::{Label, name_of};
use std::alloc::Global;

fn begins(b: u8) -> bool
    ensures { result ≡ begins_name b }
{
    b.is_ascii_alphabetic() || b == b'_'
}

fn goes_on(b: u8) -> bool
    ensures { result ≡ in_name b }
{
    begins(b) || b.is_ascii_digit() || b == b'\''
}

// How many bytes of a name stand at the start.
#[tactic(auto, using(crate::proofs::Runs::runs))]
fn name_len(bytes: &[u8]) -> usize
    ensures run { run in_name bytes.now ≡ (take result bytes.now, drop result bytes.now) }
    ensures within { result ≤ length bytes.now }
{
    for (i, b) in bytes.iter().enumerate() {
        if !goes_on(*b) {
            return i;
        }
    }
    bytes.len()
}

// Whether the bytes are one of these words.
fn is_any(words: &[&str], bytes: &[u8]) -> bool
    ensures { result ≡ is_one_of (map (λ w. w.now) words.now) bytes.now }
{
    for word in words {
        if word.as_bytes() == bytes {
            return true;
        }
    }
    false
}

// Whether a name is a keyword.
#[tactic(auto, unfolding(omega_spelling::specs::Reading::is_keyword))]
fn is_reserved(bytes: &[u8]) -> bool
    ensures { result ≡ is_keyword bytes.now }
{
    is_any(
        &[
            "val",
            "type",
            "module",
            "signature",
            "include",
            "struct",
            "sig",
            "end",
            "let",
            "in",
            "fun",
            "gen",
            "fix",
            "if",
            "then",
            "else",
            "pack",
            "unpack",
            "from",
            "where",
            "true",
            "false",
            "Int",
            "Bool",
            "Text",
            "Type",
            "case",
            "of",
            "inj",
            "data",
            "roll",
            "unroll",
        ],
        bytes,
    )
}

fn is_plain_name(bytes: &[u8]) -> bool
    ensures { result ≡ is_name bytes.now }
{
    match bytes {
        [] => false,
        [first, ..] => begins(*first) && !is_reserved(bytes),
    }
}

// A hidden name, behind its percent sign.
#[tactic(auto, unfolding(omega_spelling::specs::Reading::hidden_at))]
fn hidden_of(alloc: Global, left: &mut Left<'_>) -> Result<Label, Stop>
    ensures { Gives (λ l. l) result left.new.rest.now (hidden_at left.old.rest.now) }
{
    match left.rest {
        [] => Err(Stop::NotOmega),
        [d, rest @ ..] => {
            if !d.is_ascii_digit() {
                return Err(Stop::NotOmega);
            }
            let name = name_of(alloc, &[b'%', *d])?;
            left.rest = rest;
            Ok(Label::Name(name))
        }
    }
}

#[tactic(auto, unfolding(omega_spelling::specs::Reading::name_at))]
fn plain_of(alloc: Global, left: &mut Left<'_>) -> Result<Label, Stop>
    ensures { Gives (λ l. l) result left.new.rest.now (name_at left.old.rest.now) }
{
    let n = name_len(left.rest);
    let (bytes, rest) = left.rest.split_at(n);
    if !is_plain_name(bytes) {
        return Err(Stop::NotOmega);
    }
    let name = name_of(alloc, bytes)?;
    left.rest = rest;
    Ok(Label::Name(name))
}

// A label.
#[tactic(auto, unfolding(omega_spelling::specs::Reading::label_at))]
pub fn label_of(alloc: Global, left: &mut Left<'_>) -> Result<Label, Stop>
    ensures { Gives (λ l. l) result left.new.rest.now (label_at left.old.rest.now) }
{
    if left.eat(b".val") {
        return Ok(Label::Val);
    }
    if left.eat(b".typ") {
        return Ok(Label::Typ);
    }
    if left.eat(b".sig") {
        return Ok(Label::Sig);
    }
    if left.eat(b".app") {
        return Ok(Label::App);
    }
    if left.eat(b".gen") {
        return Ok(Label::Gen);
    }
    if left.eat(b"%") {
        return hidden_of(alloc, left);
    }
    plain_of(alloc, left)
}
