// From tokens to compact text.
ghost use Rattle.std.specs.Prelude.{◌≡◌, ◌+◌, ◌<◌, ◌^◌, ◌++◌, IfOk, OnOk};
ghost use Rattle.omega_compact.specs.Inner.Plain.{plain, plain_left, plain_tokens};
ghost use Rattle.omega_compact.specs.Spelling.{before, compacted, ending, gap, open_after, spelled, token_text};
ghost use Rattle.omega_compact.specs.Spelling as the;

use crate::scan::tokens;
use crate::token::Token;
use omega_kinds::Mem;
use std::alloc::Global;

// Whether a token is the word that begins the first line.
fn is_omega(token: Token<'_>) -> bool
    ensures { result ≡ the.is_omega (plain token.entry) }
{
    match token {
        Token::Word(bytes) => bytes == b"omega".as_slice(),
        _ => false,
    }
}

// Whether a token opens a form.
fn is_open(token: Token<'_>) -> bool
    ensures { result ≡ the.is_open (plain token.entry) }
{
    match token {
        Token::Open => true,
        _ => false,
    }
}

// Whether a token closes a form.
fn is_close(token: Token<'_>) -> bool
    ensures { result ≡ the.is_close (plain token.entry) }
{
    match token {
        Token::Close => true,
        _ => false,
    }
}

// What stands between two tokens, where so many parentheses are open.
fn gap_between(depth: usize, left: Token<'_>, right: Token<'_>) -> &'static [u8]
    ensures { result.now ≡ gap depth (plain left.entry) (plain right.entry) }
{
    if is_open(left) || is_close(right) {
        b""
    } else if depth == 0 && !is_omega(left) {
        b"\n"
    } else {
        b" "
    }
}

// What stands before a token, behind another one or behind none.
fn gap_before(depth: usize, left: Option<Token<'_>>, token: Token<'_>) -> &'static [u8]
    ensures { result.now ≡ before depth (plain_left left.entry) (plain token.entry) }
{
    match left {
        None => b"",
        Some(left) => gap_between(depth, left, token),
    }
}

// What stands behind the last token.
fn gap_at_end(left: Option<Token<'_>>) -> &'static [u8]
    ensures { result.now ≡ ending (plain_left left.entry) }
{
    match left {
        None | Some(Token::Unended(_)) => b"",
        Some(_) => b"\n",
    }
}

// How many parentheses are open behind a token.
fn open_behind(depth: usize, token: Token<'_>) -> usize
    requires { depth + 1 < 2 ^ 64 }
    ensures { result ≡ open_after depth (plain token.entry) }
{
    match token {
        Token::Open => depth + 1,
        Token::Close => depth.saturating_sub(1),
        _ => depth,
    }
}

// Puts a token behind a text.
fn put_token(text: &mut Vec<u8>, token: Token<'_>) -> Result<(), Mem>
    ensures { OnOk result (text.new.items ≡ text.old.items ++ token_text (plain token.entry)) }
{
    match token {
        Token::Open => text.push(b'(')?,
        Token::Close => text.push(b')')?,
        Token::Word(bytes) => text.extend_from_slice(bytes)?,
        Token::Quoted(bytes) => {
            text.push(b'"')?;
            text.extend_from_slice(bytes)?;
            text.push(b'"')?;
        }
        Token::Unended(bytes) => {
            text.push(b'"')?;
            text.extend_from_slice(bytes)?;
        }
    }
    Ok(())
}

// The compact text of tokens. `Err` is out of memory.
#[tactic(auto, unfolding(crate::specs::Spelling::spelled))]
fn spell(alloc: Global, tokens: &[Token<'_>]) -> Result<Vec<u8>, Mem>
    ensures { IfOk result (λ v. v.items ≡ spelled (plain_tokens tokens.now)) }
{
    let mut text = Vec::new(alloc);
    let mut depth = 0usize;
    let mut left = None;
    for token in tokens {
        text.extend_from_slice(gap_before(depth, left, *token))?;
        put_token(&mut text, *token)?;
        depth = open_behind(depth, *token);
        left = Some(*token);
    }
    text.extend_from_slice(gap_at_end(left))?;
    Ok(text)
}

/// The compact text of a text: its tokens with exactly the blanks and line ends that Omega text has between them.
/// `Err` is out of memory.
pub fn compact(alloc: Global, bytes: &[u8]) -> Result<Vec<u8>, Mem>
    ensures { IfOk result (λ text. text.items ≡ compacted bytes.now) }
{
    let tokens = tokens(alloc, bytes)?;
    spell(alloc, &tokens)
}
