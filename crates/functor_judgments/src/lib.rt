// Applicative functors: the hidden types of a pure body are lifted over the parameter.
// Specifications and their laws only; the calls that follow them stand in a crate of their own above.
// Stands on sig_definitions and sig_premise_laws.
// Proved: the rule has exactly one conclusion, under the conditions of the call that follows it (`pure_functors`).
#![tactic(auto)]

ghost use Rattle.functor_judgments.specs.OneOutcome.{OnePureFunctor};

/// A functor with a pure body gives exactly one module, where both signatures have normal types, which is what the call of
/// the rule asks; the rule is never refused.
///
/// Rossberg, Russo and Dreyer, "F-ing modules", section 7.
pub fn pure_functors()
    ensures { OnePureFunctor }
{}
