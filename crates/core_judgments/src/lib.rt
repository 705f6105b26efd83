// The rules of types and expressions, sums and recursive types among them: what each makes of premises that are elaborated
// already, and how it is refused.
// Specifications and their laws only; the calls that follow them stand in a crate of their own above.
// Stands on sig_definitions and sig_laws.
// Proved: each rule has exactly one conclusion or exactly one refusal (`type_rules`, `expression_rules`,
// `data_rules`).
#![tactic(auto)]

ghost use Rattle.core_judgments.specs.OneOutcome.{OneBase, OneArrow, OneAll, OneOperator, OneApplied, OneRecordType, OneLiteral, OneFunction, OneTypeFunction, OneCall, OneInstance, OneGet, OneIf, OneOperation, OneFix, OneRecord, OneSum, OneLabel, OneInjection, OneCase, OneMu, OneRoll, OneUnroll};

/// Each rule of types gives exactly one type and kind, or has exactly one refusal, its first condition that fails; that
/// of application where operator and argument have kinds in the context.
pub fn type_rules()
    ensures base { OneBase }
    ensures arrow { OneArrow }
    ensures all { OneAll }
    ensures operator { OneOperator }
    ensures applied { OneApplied }
    ensures record_type { OneRecordType }
{}

/// Each rule of expressions gives exactly one type and term, or has exactly one refusal, its first condition that
/// fails; that of instances where the function's type and the argument have kinds in the context.
pub fn expression_rules()
    ensures literal { OneLiteral }
    ensures function { OneFunction }
    ensures type_function { OneTypeFunction }
    ensures call { OneCall }
    ensures instance { OneInstance }
    ensures get { OneGet }
    ensures conditional { OneIf }
    ensures operation { OneOperation }
    ensures fixpoint { OneFix }
    ensures record { OneRecord }
    ensures sum { OneSum }
    ensures label { OneLabel }
    ensures injection { OneInjection }
    ensures case_of { OneCase }
{}

/// Each rule of recursive types gives exactly one type and kind, or one type and term, or has exactly one refusal, its
/// first condition that fails; those of rolling and unrolling where the recursive type has a kind in the context.
pub fn data_rules()
    ensures mu { OneMu }
    ensures roll { OneRoll }
    ensures unroll { OneUnroll }
{}
