// Tokens of a program in which a phrase is bound before a name that nothing has.
use crate::found::{Found, Sort};
use fing_lexer::{Mark, Token, What, Word};
use fing_text::Span;
use omega_kinds::{Mem, name_of};
use std::alloc::Global;

/// The name to which the phrase is bound. No source can spell it.
pub const BOUND: &str = "%it";

// The name of a value that is bound just before. No source can spell it.
const FRONT: &str = "%front";

/// The name that nothing has. No source can spell it.
pub const MISSING: &str = "%missing";

// A token without its place.
#[derive(Clone, Copy)]
enum Piece {
    Word(Word),
    Mark(Mark),
    Name(&'static str),
}

// `from (struct val %front = ..`
const BEFORE: [Piece; 7] = [
    Piece::Word(Word::KwFrom),
    Piece::Mark(Mark::LeftParen),
    Piece::Word(Word::KwStruct),
    Piece::Word(Word::KwVal),
    Piece::Name(FRONT),
    Piece::Mark(Mark::Equal),
    Piece::Word(Word::KwTrue),
];

// `module %missing = %missing end).%missing`
const AFTER: [Piece; 8] = [
    Piece::Word(Word::KwModule),
    Piece::Name(MISSING),
    Piece::Mark(Mark::Equal),
    Piece::Name(MISSING),
    Piece::Word(Word::KwEnd),
    Piece::Mark(Mark::RightParen),
    Piece::Mark(Mark::Dot),
    Piece::Name(MISSING),
];

/// The tokens of a program where a phrase of it is replaced by `from (struct val %front = true B module %missing = %missing
/// end).%missing`, in which B binds the phrase to `%it`. Every phrase may be replaced so. `Err` is out of memory.
pub fn planted(alloc: Global, tokens: &[Token], found: Found) -> Result<Vec<Token>, Mem> {
    let mut made = Vec::new(alloc);
    for token in tokens {
        let span = token.span;
        if span.from == found.span.from {
            push_all(alloc, &mut made, &BEFORE, span)?;
            push_all(alloc, &mut made, &binding(found.sort), span)?;
        }
        made.push(share(token)?)?;
        if span.to == found.span.to {
            push_all(alloc, &mut made, &AFTER, span)?;
        }
    }
    Ok(made)
}

// The same token.
fn share(token: &Token) -> Result<Token, Mem> {
    let what = match &token.what {
        What::Word(word) => What::Word(*word),
        What::Mark(mark) => What::Mark(*mark),
        What::Ident(name) => What::Ident(name.share()?),
        What::Int(number) => What::Int(*number),
        What::Text(text) => What::Text(text.share()?),
    };
    Ok(Token {
        what,
        span: token.span,
    })
}

// What a binding of a sort begins with.
fn binding(sort: Sort) -> [Piece; 3] {
    let word = match sort {
        Sort::Value => Word::KwVal,
        Sort::Type => Word::KwType,
        Sort::Module => Word::KwModule,
        Sort::Signature => Word::KwSignature,
    };
    [
        Piece::Word(word),
        Piece::Name(BOUND),
        Piece::Mark(Mark::Equal),
    ]
}

// Adds tokens at a place.
fn push_all(
    alloc: Global,
    tokens: &mut Vec<Token>,
    pieces: &[Piece],
    span: Span,
) -> Result<(), Mem> {
    for piece in pieces {
        let what = what_of(alloc, *piece)?;
        tokens.push(Token { what, span })?;
    }
    Ok(())
}

// What a token is.
fn what_of(alloc: Global, piece: Piece) -> Result<What, Mem> {
    match piece {
        Piece::Word(word) => Ok(What::Word(word)),
        Piece::Mark(mark) => Ok(What::Mark(mark)),
        Piece::Name(name) => Ok(What::Ident(name_of(alloc, name.as_bytes())?)),
    }
}
