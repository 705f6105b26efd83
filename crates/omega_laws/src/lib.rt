// What typing says of reduction, and what a checker that synthesises types finds.
// Stands on omega_terms.
// Proved: steps keep types, no term reached from a typed one is stuck, each budget has exactly one outcome (`reduction`);
// synthesis finds exactly the types that the typing rules give, and one in normal form (`synthesis`).
#![tactic(auto)]

ghost use Rattle.omega_laws.specs.Reduction.{TypesAreUnique, StepsKeepTypes, ReachedIsTyped, BudgetsHaveOutcomes};
ghost use Rattle.omega_laws.specs.Synthesis.{SynthesisIsExact, OneTypeIsSynthesised};

/// The types of a term are convertible; a step keeps the type; a term reached from a closed typed one has its type and
/// is not stuck; and each budget of steps has exactly one outcome for such a term, which is 'spent' exactly where the
/// term reached in that many steps is no value.
///
/// Preservation and progress: Pierce, "Types and Programming Languages", chapters 11, 20, 23, 24 and 30.
pub fn reduction()
    ensures unique { TypesAreUnique }
    ensures keep { StepsKeepTypes }
    ensures reached { ReachedIsTyped }
    ensures outcomes { BudgetsHaveOutcomes }
{}

/// A term has a type of kind `*` exactly where that type's normal form is synthesised for it, and one type at most is
/// synthesised.
pub fn synthesis()
    ensures exact { SynthesisIsExact }
    ensures one { OneTypeIsSynthesised }
{}
