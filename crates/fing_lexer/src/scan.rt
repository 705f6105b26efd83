// What stands at the start of some bytes.
ghost use Rattle.std.specs.Prelude.{◌≡◌, ◌<◌, length, slice_index, true, false, IfOk};
ghost use Rattle.std.specs.Char.{is_ascii_digit};
ghost use Rattle.fing_lexer.specs.Lexeme as plain;
ghost use Rattle.fing_lexer.specs.Tokens.{skipped};
ghost use Rattle.fing_lexer.specs.Inner.Lexing.{StandsAs, EndsText, IsOther};

use crate::bytes::{
    digits, digits_len, is_name_start, long_mark, name_len, negative, positive, short_mark,
    skip_len, spelled, word,
};
use crate::token::What;
use omega_kinds::{Mem, Name, name_of};
use std::alloc::Global;

/// What can stand at the start of some bytes, of which there is at least one:
/// a blank or a comment, a token, a number out of range, a `"` that begins no text,
/// or another byte that begins no token.
#[derive(Drop)]
pub enum Front {
    Skip(usize),
    Found(usize, What),
    Wide,
    NoText,
    NoByte,
}

// A keyword or a name.
fn name_front(alloc: Global, bytes: &[u8]) -> Result<Front, Mem>
    requires some { 0 < length bytes.now }
    requires first { plain.is_name_start (slice_index bytes.now 0) ≡ true }
    ensures { IfOk result (λ f. StandsAs bytes.now f) }
{
    let len = 1 + name_len(&bytes[1..]);
    match word(&bytes[..len]) {
        Some(word) => Ok(Front::Found(len, What::Word(word))),
        None => {
            let name = name_of(alloc, &bytes[..len])?;
            Ok(Front::Found(len, What::Ident(name)))
        }
    }
}

// A number with no sign.
fn number_front(bytes: &[u8]) -> Front
    requires some { 0 < length bytes.now }
    requires other { plain.is_name_start (slice_index bytes.now 0) ≡ false }
    requires first { is_ascii_digit (slice_index bytes.now 0) ≡ true }
    ensures { StandsAs bytes.now result }
{
    let len = 1 + digits_len(&bytes[1..]);
    match digits(&bytes[..len]) {
        Some(value) => Front::Found(len, positive(value)),
        None => Front::Wide,
    }
}

// A number behind `~`, or a `~` alone, which is no token.
fn negative_front(bytes: &[u8]) -> Front
    requires some { 0 < length bytes.now }
    requires first { slice_index bytes.now 0 ≡ 126 }
    ensures { StandsAs bytes.now result }
{
    let len = digits_len(&bytes[1..]);
    if len == 0 {
        return Front::NoByte;
    }
    match digits(&bytes[1..1 + len]) {
        Some(value) => Front::Found(1 + len, negative(value)),
        None => Front::Wide,
    }
}

// A text behind its first quote: how many bytes it takes up to its closing quote, and its meaning.
fn text_behind(alloc: Global, bytes: &[u8]) -> Result<Option<(usize, Name)>, Mem>
    ensures { IfOk result (λ t. EndsText bytes.now t) }
{
    let mut meaning = Vec::new(alloc);
    let mut at = 0;
    while at < bytes.len() {
        if bytes[at] == b'"' {
            return Ok(Some((at + 1, name_of(alloc, &meaning)?)));
        }
        let Some((byte, len)) = spelled(&bytes[at..]) else {
            return Ok(None);
        };
        meaning.push(byte)?;
        at += len;
    }
    Ok(None)
}

// A text, or a `"` that begins none.
fn text_front(alloc: Global, bytes: &[u8]) -> Result<Front, Mem>
    requires some { 0 < length bytes.now }
    requires first { slice_index bytes.now 0 ≡ 34 }
    ensures { IfOk result (λ f. StandsAs bytes.now f) }
{
    match text_behind(alloc, &bytes[1..])? {
        Some((len, text)) => Ok(Front::Found(1 + len, What::Text(text))),
        None => Ok(Front::NoText),
    }
}

// A mark, or no token.
fn mark_front(bytes: &[u8]) -> Front
    requires some { 0 < length bytes.now }
    requires skip { skipped bytes.now ≡ 0 }
    requires other { IsOther (slice_index bytes.now 0) }
    ensures { StandsAs bytes.now result }
{
    if let Some(mark) = long_mark(bytes) {
        return Front::Found(2, What::Mark(mark));
    }
    match short_mark(bytes[0]) {
        Some(mark) => Front::Found(1, What::Mark(mark)),
        None => Front::NoByte,
    }
}

/// What stands at the start of the bytes. `Err` is out of memory.
pub fn scan_front(alloc: Global, bytes: &[u8]) -> Result<Front, Mem>
    requires { 0 < length bytes.now }
    ensures { IfOk result (λ f. StandsAs bytes.now f) }
{
    let skip = skip_len(bytes);
    if skip > 0 {
        return Ok(Front::Skip(skip));
    }
    let first = bytes[0];
    if is_name_start(first) {
        name_front(alloc, bytes)
    } else if first.is_ascii_digit() {
        Ok(number_front(bytes))
    } else if first == b'~' {
        Ok(negative_front(bytes))
    } else if first == b'"' {
        text_front(alloc, bytes)
    } else {
        Ok(mark_front(bytes))
    }
}
