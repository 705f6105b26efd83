// Each phrase and each program has exactly one outcome or exactly one refusal.
// Stands on elab_laws.
// Proved (`elaboration_is_exact`): outcomes are equal, refusals are equal, an outcome and a refusal exclude each other, and
// there is one of both; the rules as lists of steps say the same as the inductive rules; the types that refusals tell are
// normal and in scope.
#![tactic(auto)]

ghost use Rattle.elab_exact.specs.Claims.{StepsSayTheRules, EachAnswered, OutcomesEqual, Exclusive, RefusalsEqual, Total, EachProgram, AnswersExact, RefusalsAreGood};

/// The steps of each rule give just what the inductive rules derive; each task in a good environment, and each program,
/// has exactly one outcome or exactly one refusal; whoever answers only outcomes that are derived and refusals that
/// stand answers just these; and the types that a program's refusal tells are normal in a context of as many type
/// variables as it tells.
pub fn elaboration_is_exact()
    ensures rules { StepsSayTheRules }
    ensures answered { EachAnswered }
    ensures outcomes { OutcomesEqual }
    ensures exclusive { Exclusive }
    ensures refusals { RefusalsEqual }
    ensures total { Total }
    ensures programs { EachProgram }
    ensures answers { AnswersExact }
    ensures good { RefusalsAreGood }
{}
