// Types and terms by their texts. A text is closed, so one with free variables stands below binders, which are taken off.
use omega_read::read;
use omega_terms::{Term, TermNode};
use omega_types::{Ty, TyNode};
use std::alloc::Global;
use std::test::Fail;

/// The text of a type and a term with these texts, as it is written.
pub fn whole(alloc: Global, ty: &str, term: &str) -> Result<String, Fail> {
    Ok(format!(in alloc; "omega 2\n{ty}\n{term}\n")?)
}

/// Their text in the first version.
pub fn first_version(alloc: Global, ty: &str, term: &str) -> Result<String, Fail> {
    Ok(format!(in alloc; "omega 1\n{ty}\n{term}\n")?)
}

/// So many fronts, then an inner part, then as many ends.
pub fn nested(
    alloc: Global,
    levels: usize,
    front: &str,
    inner: &str,
    end: &str,
) -> Result<String, Fail> {
    let fronts = front.repeat(alloc, levels)?;
    let ends = end.repeat(alloc, levels)?;
    Ok(format!(in alloc; "{fronts}{inner}{ends}")?)
}

/// The type of this text.
pub fn ty(alloc: Global, text: &str) -> Result<Ty, Fail> {
    let (ty, _) = read(alloc, whole(alloc, text, "0")?.as_bytes())?;
    Ok(ty)
}

/// The term of this text.
pub fn term(alloc: Global, text: &str) -> Result<Term, Fail> {
    let (_, term) = read(alloc, whole(alloc, "int", text)?.as_bytes())?;
    Ok(term)
}

/// What is below the outermost binders `some` of a type.
pub fn below_somes(ty: &Ty) -> &Ty {
    match ty.node() {
        TyNode::Ex(_, body) => below_somes(body),
        _ => ty,
    }
}

/// What is below so many outermost binders `fn` and `tfn` of a term.
pub fn below_functions(binders: u64, term: &Term) -> &Term {
    match (binders, term.node()) {
        (1.., TermNode::Lam(_, body)) => below_functions(binders - 1, body),
        (1.., TermNode::TyLam(_, body)) => below_functions(binders - 1, body),
        _ => term,
    }
}
