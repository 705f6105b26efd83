// Tokens: keywords, marks, names, numbers and texts, each with its place.
use fing_text::Span;
use omega_kinds::Name;

/// A keyword. Each is named after its spelling, and `Type` is `KwKind`.
#[derive(Clone, Copy, Debug, PartialEq, Eq)]
pub enum Word {
    KwVal,
    KwType,
    KwModule,
    KwSignature,
    KwInclude,
    KwStruct,
    KwSig,
    KwEnd,
    KwLet,
    KwIn,
    KwFun,
    KwGen,
    KwFix,
    KwIf,
    KwThen,
    KwElse,
    KwPack,
    KwUnpack,
    KwFrom,
    KwWhere,
    KwTrue,
    KwFalse,
    KwInt,
    KwBool,
    KwText,
    KwKind,
    KwCase,
    KwOf,
    KwInj,
    KwData,
    KwRoll,
    KwUnroll,
}

/// A mark: `( ) { } [ ] . , : :> = => -> # + - * / % < ==`, in this order.
#[derive(Clone, Copy, Debug, PartialEq, Eq)]
pub enum Mark {
    LeftParen,
    RightParen,
    LeftBrace,
    RightBrace,
    LeftBracket,
    RightBracket,
    Dot,
    Comma,
    Colon,
    Seal,
    Equal,
    DoubleArrow,
    Arrow,
    Hash,
    Plus,
    Minus,
    Star,
    Slash,
    Percent,
    Less,
    EqualEqual,
}

/// What a token is. A text is its meaning, the bytes that its escapes stand for put in their place.
#[derive(Debug, Drop)]
pub enum What {
    Word(Word),
    Mark(Mark),
    Ident(Name),
    Int(i64),
    Text(Name),
}

/// A token and the bytes of the source that it takes.
#[derive(Debug, Drop)]
pub struct Token {
    pub what: What,
    pub span: Span,
}
