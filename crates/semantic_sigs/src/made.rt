// What elaboration makes of phrases, and why two signatures clash.
use crate::tree::Abs;
use crate::witnesses::Witnesses;
use omega_kinds::{Effect, Kind};
use omega_terms::Term;
use type_normal::NormalTy;

/// What is made of a module: its effect, its signature and its term. Where it is pure, `types` are the types of the
/// variables that its signature hides, beside the term; an impure one has none, and they are packed into its term. So
/// elaboration makes it: the fields are public, and no invariant says it.
///
/// Rossberg, Russo and Dreyer, "F-ing modules", section 7, Applicative functors; the types beside the term are this
/// project's own.
#[derive(Drop)]
pub struct Module {
    pub effect: Effect,
    pub sig: Abs,
    pub types: Witnesses,
    pub term: Term,
}

/// What is made of an expression: its type, of kind `*`, and its term.
#[derive(Drop)]
pub struct Typed {
    pub ty: NormalTy,
    pub term: Term,
}

/// What is made of a type: the type, and its kind.
#[derive(Drop)]
pub struct Kinded {
    pub ty: NormalTy,
    pub kind: Kind,
}

/// Why the parts of two signatures at one place do not agree: they have different forms, the left one is missing, an
/// impure functor meets a pure one, or the two types, left and right, differ.
#[derive(Drop)]
pub enum Why {
    Form,
    Missing,
    Effect,
    Types(NormalTy, NormalTy),
}
