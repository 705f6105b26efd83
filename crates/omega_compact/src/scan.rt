// From bytes to tokens.
ghost use Rattle.std.specs.Prelude.{◌≡◌, ◌≤◌, ◌<◌, ◌+◌, ◌∷◌, [], length, take, drop, slice_index, true, MatchOption, IfOk};
ghost use Rattle.omega_compact.specs.Inner.Escapes.{ends, escapes};
ghost use Rattle.omega_compact.specs.Inner.Plain.{plain_left, plain_tokens, token_before};
ghost use Rattle.omega_compact.specs.Tokens.{Between, Comment, InWord, InText, Word, Quoted, Unended, tokens_from, tokens_of};
ghost use Rattle.omega_compact.specs.Tokens as the;

use crate::token::Token;
use omega_kinds::Mem;
use std::alloc::Global;

// What stands at the start of bytes: a token, or none where a blank or a comment does, and the bytes behind it.
#[derive(Clone, Copy)]
struct Front<'a> {
    token: Option<Token<'a>>,
    rest: &'a [u8],
}

// Whether a byte is a tab, a line end or a blank.
fn is_blank(b: u8) -> bool
    ensures { result ≡ the.is_blank b }
{
    b == b' ' || b == b'\n' || b == b'\t' || b == b'\r'
}

// Whether a byte may stand in a word.
fn is_in_word(b: u8) -> bool
    ensures { result ≡ the.in_word b }
{
    !(is_blank(b) || b == b'(' || b == b')' || b == b'"' || b == b';')
}

// How many bytes at the start belong to a comment that has begun, without the end of its line.
#[tactic(auto, using(crate::proofs::Scans::comments))]
fn comment_len(bytes: &[u8]) -> usize
    ensures tokens { tokens_from Comment bytes.now ≡ tokens_from Between (drop result bytes.now) }
    ensures within { result ≤ length bytes.now }
{
    for (i, b) in bytes.iter().enumerate() {
        if *b == b'\n' {
            return i;
        }
    }
    bytes.len()
}

// How many bytes at the start belong to a word that has begun.
#[tactic(auto, using(crate::proofs::Scans::words))]
fn word_len(bytes: &[u8]) -> usize
    ensures tokens { tokens_from InWord bytes.now ≡ Word (take result bytes.now) ∷ tokens_from Between (drop result bytes.now) }
    ensures within { result ≤ length bytes.now }
{
    for (i, b) in bytes.iter().enumerate() {
        if !is_in_word(*b) {
            return i;
        }
    }
    bytes.len()
}

// Whether a byte ends a text, behind a backslash that escapes it or not.
fn ends_text(is_escaped: bool, b: u8) -> bool
    ensures { result ≡ ends is_escaped b }
{
    !is_escaped && b == b'"'
}

// Whether a byte escapes the one behind it.
fn escapes_next(is_escaped: bool, b: u8) -> bool
    ensures { result ≡ escapes is_escaped b }
{
    !is_escaped && b == b'\\'
}

// How many bytes stand before the quote that ends a text that has begun, or none where no quote ends it.
#[tactic(auto, using(crate::proofs::Scans::texts))]
fn text_len(bytes: &[u8]) -> Option<usize>
    ensures { MatchOption result
        (tokens_from InText bytes.now ≡ Unended bytes.now ∷ [])
        (λ n. (n < length bytes.now) × (tokens_from InText bytes.now ≡ Quoted (take n bytes.now) ∷ tokens_from Between (drop (n + 1) bytes.now))) }
{
    let mut is_escaped = false;
    for (i, b) in bytes.iter().enumerate() {
        if ends_text(is_escaped, *b) {
            return Some(i);
        }
        is_escaped = escapes_next(is_escaped, *b);
    }
    None
}

// What stands behind the quote that begins a text.
fn text_front(bytes: &[u8]) -> Front<'_>
    ensures tokens { tokens_from InText bytes.now ≡ token_before (plain_left result.token) (tokens_from Between result.rest.now) }
    ensures less { length result.rest.now ≤ length bytes.now }
{
    match text_len(bytes) {
        Some(n) => Front {
            token: Some(Token::Quoted(&bytes[..n])),
            rest: &bytes[n + 1..],
        },
        None => Front {
            token: Some(Token::Unended(bytes)),
            rest: &bytes[bytes.len()..],
        },
    }
}

// What stands at the start of bytes that begin with a word.
#[tactic(auto, using(crate::proofs::Scans::fronts))]
fn word_front(bytes: &[u8]) -> Front<'_>
    requires some { 0 < length bytes.now }
    requires first { the.in_word (slice_index bytes.now 0) ≡ true }
    ensures tokens { tokens_from Between bytes.now ≡ token_before (plain_left result.token) (tokens_from Between result.rest.now) }
    ensures less { length result.rest.now < length bytes.now }
{
    let (word, rest) = bytes.split_at(1 + word_len(&bytes[1..]));
    Front {
        token: Some(Token::Word(word)),
        rest,
    }
}

// What stands at the start of bytes, of which there are some.
#[tactic(auto, using(crate::proofs::Scans::fronts))]
fn front_of(bytes: &[u8]) -> Front<'_>
    requires { 0 < length bytes.now }
    ensures tokens { tokens_from Between bytes.now ≡ token_before (plain_left result.token) (tokens_from Between result.rest.now) }
    ensures less { length result.rest.now < length bytes.now }
{
    let behind = &bytes[1..];
    match bytes[0] {
        b'(' => Front {
            token: Some(Token::Open),
            rest: behind,
        },
        b')' => Front {
            token: Some(Token::Close),
            rest: behind,
        },
        b'"' => text_front(behind),
        b';' => Front {
            token: None,
            rest: &behind[comment_len(behind)..],
        },
        first if is_blank(first) => Front {
            token: None,
            rest: behind,
        },
        _ => word_front(bytes),
    }
}

/// The tokens of bytes. `Err` is out of memory.
#[tactic(auto, unfolding(crate::specs::Tokens::tokens_of), using(crate::proofs::Scans::all_read))]
pub fn tokens(alloc: Global, bytes: &[u8]) -> Result<Vec<Token<'_>>, Mem>
    ensures { IfOk result (λ v. plain_tokens v.items ≡ tokens_of bytes.now) }
{
    let mut tokens = Vec::new(alloc);
    let mut rest = bytes;
    while !rest.is_empty() {
        let front = front_of(rest);
        if let Some(token) = front.token {
            tokens.push(token)?;
        }
        rest = front.rest;
    }
    Ok(tokens)
}
