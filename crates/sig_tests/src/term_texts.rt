// Closed types and terms by their texts.
use crate::literals::closed;
use fing_text::MemSink;
use omega_kinds::Kind;
use omega_read::read;
use omega_scopes::{term_in_scope, ty_in_scope};
use omega_terms::{Term, TermNode};
use omega_types::Ty;
use omega_write::{write_term, write_ty};
use semantic_sigs::{Kinded, Typed};
use std::alloc::Global;
use std::test::Fail;
use type_normal::{NormalTy, as_normal};

/// The closed term of this text.
pub fn term(alloc: Global, text: &str) -> Result<Term, Fail> {
    let whole = format!(in alloc; "omega 2\nint\n{text}\n")?;
    let (_, term) = read(alloc, whole.as_bytes())?;
    Ok(term)
}

/// What is below so many outermost binders `tfn`.
pub fn below(binders: u32, term: &Term) -> &Term {
    match (binders, term.node()) {
        (1.., TermNode::TyLam(_, body)) => below(binders - 1, body),
        _ => term,
    }
}

/// Whether the term is closed and has this text.
pub fn has_text(alloc: Global, term: &Term, text: &str) -> Result<bool, Fail> {
    if !term_in_scope(0, 0, term) {
        return Ok(false);
    }
    let mut sink = MemSink::new(alloc, 256, 64, Vec::new(alloc))?;
    let is_whole = write_term(&mut sink, 0, 0, term).is_ok();
    Ok(is_whole && sink.bytes() == text.as_bytes())
}

/// Whether the type is closed and has this text.
pub fn type_has_text(alloc: Global, ty: &Ty, text: &str) -> Result<bool, Fail> {
    if !ty_in_scope(0, ty) {
        return Ok(false);
    }
    let mut sink = MemSink::new(alloc, 1024, 64, Vec::new(alloc))?;
    let is_whole = write_ty(&mut sink, 0, ty).is_ok();
    Ok(is_whole && sink.bytes() == text.as_bytes())
}

/// The closed normal type of this text.
pub fn normal(alloc: Global, text: &str) -> Result<NormalTy, Fail> {
    Ok(as_normal(closed(alloc, text)?))
}

/// A type of values.
pub fn values(alloc: Global, text: &str) -> Result<Kinded, Fail> {
    Ok(Kinded {
        ty: normal(alloc, text)?,
        kind: Kind::Star,
    })
}

/// The term of this text, with the type of this one.
pub fn exp(alloc: Global, ty: &str, text: &str) -> Result<Typed, Fail> {
    Ok(Typed {
        ty: normal(alloc, ty)?,
        term: term(alloc, text)?,
    })
}
