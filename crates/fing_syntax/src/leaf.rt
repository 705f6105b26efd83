// Names where they stand, and operators.
use fing_text::Span;
use omega_kinds::Name;

/// A name and the place of the token that spells it. A hidden name has the place of the form that makes it.
#[derive(Drop)]
pub struct SpanName {
    pub name: Name,
    pub span: Span,
}

/// An operator between two expressions.
#[derive(Clone, Copy, Debug, PartialEq, Eq)]
pub enum Op {
    Add,
    Sub,
    Mul,
    Div,
    Rem,
    Less,
    Equal,
}
