// What phrases give that are no trees of their own: kinds, tails of declarations, refinements.
use fing_syntax::{Exp, SigEx, SpanName, TyEx};
use fing_text::Span;
use omega_kinds::Kind;

/// A kind and the place of its last token.
#[derive(Drop)]
pub struct KindPart {
    pub kind: Kind,
    pub last: Span,
}

/// The part of a declaration of a type behind its name.
#[derive(Drop)]
pub enum TypeTail {
    Open,
    Is(TyEx),
    Has(KindPart),
}

/// A refinement: the type at the path `first`, then `rest`, is made equal to `ty`.
#[derive(Drop)]
pub struct Where {
    pub first: SpanName,
    pub rest: Vec<SpanName>,
    pub ty: TyEx,
}

/// A signature behind `:>` or `:`.
#[derive(Drop)]
pub enum Ascription {
    Sealed(SigEx),
    Shown(SigEx),
}

/// What follows `fun` in an expression.
#[derive(Drop)]
pub enum Abstraction {
    Value(SpanName, TyEx, Exp),
    Type(SpanName, Kind, Exp),
}
