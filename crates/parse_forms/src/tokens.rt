// Names, numbers and places out of tokens.
ghost use Rattle.std.specs.Prelude.{◌≡◌, IfOk};
ghost use Rattle.fing_syntax.specs.Inner.Leaves.{place, spelled};
ghost use Rattle.fing_syntax.specs.Place.{up_to as through};
ghost use Rattle.parse_grammar.specs.Parts as part;
ghost use Rattle.parse_grammar.specs.Forms.{hidden as hidden_name};

use fing_lexer::{Token, What};
use fing_syntax::SpanName;
use fing_text::Span;
use omega_kinds::{Mem, Name, name_of};
use std::alloc::Global;

/// From the first byte of one place to the last byte of a later one.
pub fn up_to(first: Span, last: Span) -> Span
    ensures { place result ≡ through (place first) (place last) }
{
    Span {
        from: first.from,
        to: last.to,
    }
}

/// The bytes of a name or a text, and none of another token. `Err` is want of memory.
pub fn bytes_in(alloc: Global, what: &What) -> Result<Name, Mem>
    ensures { IfOk result (λ n. n ≡ part.bytes_in what.now) }
{
    match what {
        What::Ident(name) => name.share(),
        What::Text(text) => text.share(),
        _ => name_of(alloc, &[]),
    }
}

/// The number of a numeral, and 0 of another token.
pub fn number_in(what: &What) -> i64
    ensures { result ≡ part.number_in what.now }
{
    match what {
        What::Int(number) => *number,
        _ => 0,
    }
}

/// The name that a token spells, where it stands. `Err` is want of memory.
pub fn named(alloc: Global, token: &Token) -> Result<SpanName, Mem>
    ensures { IfOk result (λ n. spelled n ≡ part.named token.now) }
{
    Ok(SpanName {
        name: bytes_in(alloc, &token.what)?,
        span: token.span,
    })
}

// The name of these bytes, at this place. No source can spell it where the bytes are those of no identifier, as `%0`.
// `Err` is want of memory.
pub(crate) fn hidden(alloc: Global, bytes: &[u8], span: Span) -> Result<SpanName, Mem>
    ensures { IfOk result (λ n. spelled n ≡ hidden_name bytes.now (place span)) }
{
    Ok(SpanName {
        name: name_of(alloc, bytes)?,
        span,
    })
}
