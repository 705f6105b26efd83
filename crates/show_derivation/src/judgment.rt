// Judgments: what the rules derive for phrases.
ghost use Rattle.show_derivation.specs.Inner.Derived.{IsDerived};

use crate::declaring::declaration;
use crate::scope::Scope;
use fing_refusals::Refusal;
use fing_syntax::{Bind, BindWhat, Decl, Exp, Mod, SigEx, TyEx};
use fing_text::Span;
use show_paper::Conclusion;
use std::alloc::Global;

/// What the rules derive for a phrase at a place, in the scope of so many type variables.
#[derive(Drop)]
pub struct Judgment {
    pub at: Span,
    pub types: u64,
    pub conclusion: Conclusion,
    pub ghost derived: { ∥ IsDerived at conclusion ∥₁ },
}

impl Judgment {
    /// What is derived, by the judgments of elaboration, for some phrase at the place in some good environment.
    pub fn conclusion(&self) -> &Conclusion
        ensures { ∥ IsDerived self.now.at result.now ∥₁ }
    {
        &self.conclusion
    }
}

/// What is derived for a type in a scope. `Err` is its refusal, or out of memory, as for all that follows.
#[tactic(auto, using(crate::proofs::Derivings::derived))]
pub(crate) fn of_type(
    alloc: Global,
    scope: &mut Scope,
    phrase: &TyEx,
) -> Result<Judgment, Refusal> {
    let types = scope.types();
    let found = scope.ty(alloc, phrase)?;
    Ok(Judgment {
        at: phrase.span,
        types,
        conclusion: Conclusion::Type(found.ty, found.kind),
    })
}

/// What is derived for an expression.
#[tactic(auto, using(crate::proofs::Derivings::derived))]
pub(crate) fn of_value(
    alloc: Global,
    scope: &mut Scope,
    phrase: &Exp,
) -> Result<Judgment, Refusal> {
    let types = scope.types();
    let found = scope.value(alloc, phrase)?;
    Ok(Judgment {
        at: phrase.span,
        types,
        conclusion: Conclusion::Value(found.ty),
    })
}

/// What is derived for a module.
#[tactic(auto, using(crate::proofs::Derivings::derived))]
pub(crate) fn of_module(
    alloc: Global,
    scope: &mut Scope,
    phrase: &Mod,
) -> Result<Judgment, Refusal> {
    let types = scope.types();
    let found = scope.module(alloc, phrase)?;
    Ok(Judgment {
        at: phrase.span,
        types,
        conclusion: Conclusion::Module(found.effect, found.sig),
    })
}

/// What is derived for a signature.
#[tactic(auto, using(crate::proofs::Derivings::derived))]
pub(crate) fn of_signature(
    alloc: Global,
    scope: &mut Scope,
    phrase: &SigEx,
) -> Result<Judgment, Refusal> {
    let types = scope.types();
    let found = scope.signature(alloc, phrase)?;
    Ok(Judgment {
        at: phrase.span,
        types,
        conclusion: Conclusion::Signature(found),
    })
}

/// What is derived for a declaration.
#[tactic(auto, using(crate::proofs::Derivings::derived))]
pub(crate) fn of_declaration(
    alloc: Global,
    scope: &mut Scope,
    phrase: &Decl,
) -> Result<Judgment, Refusal> {
    let types = scope.types();
    let found = declaration(alloc, scope, phrase)?;
    Ok(Judgment {
        at: phrase.span,
        types,
        conclusion: Conclusion::Signature(found),
    })
}

/// What is derived for a binding; for an `include`, what it includes.
#[tactic(auto, using(crate::proofs::Derivings::derived))]
pub(crate) fn of_binding(
    alloc: Global,
    scope: &mut Scope,
    phrase: &Bind,
) -> Result<Judgment, Refusal> {
    if let BindWhat::Include(whole) = &phrase.what {
        return of_module(alloc, scope, whole);
    }
    let types = scope.types();
    let (name, found) = scope.binding(alloc, phrase)?;
    Ok(Judgment {
        at: phrase.span,
        types,
        conclusion: Conclusion::Binding(name, found.effect, found.sig),
    })
}
