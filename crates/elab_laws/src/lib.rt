// What elaboration derives is well typed, well formed and ordered explicit.
// Stands on elab_judgments, omega_laws, sig_match_laws and sig_norm_laws.
// Proved: the whole term of a program has the type of its whole signature by the typing rules and is never stuck
// (`typed`); written signatures are ordered explicit, and derived modules well formed (`derived_signatures`).
#![tactic(auto)]

ghost use Rattle.elab_laws.specs.Typed.{WholeIsTyped, SigOfProgramIsNormal, TypeIsKinded, ExpressionIsTyped, SignatureIsNormal, ModuleIsTyped, WholeIsNormal, WholeIsNeverStuck, WholeIsSynthesised, PureModuleIsTyped, ExpressionIsNormal, ModuleIsNormal};
ghost use Rattle.elab_laws.specs.Formed.{TypesHaveKinds, ExpsHaveTypes, WrittenAreExplicit, ModulesAreWellFormed, PureTypesHaveKinds, ProgramsAreWellFormed, ProgramTypesHaveKinds};

/// The whole term of each derived program has the encoding of its whole signature as its type, each type in it being
/// normal where it stands; no term reached from it is stuck; a checker finds that type and no other; and in a well formed
/// environment of normal types each derived type has its kind and is normal, each expression's term has its type, which
/// is normal, each module's packed term has its type, a pure module's hidden types have their kinds, and a module's
/// signature, the types that it keeps and each type in its term are normal.
///
/// Rossberg, Russo and Dreyer, "F-ing modules", section 4 and section 7, soundness of elaboration.
pub fn typed()
    ensures whole { WholeIsTyped }
    ensures program { SigOfProgramIsNormal }
    ensures kinded { TypeIsKinded }
    ensures expression { ExpressionIsTyped }
    ensures signature { SignatureIsNormal }
    ensures whole_module { ModuleIsTyped }
    ensures normal_whole { WholeIsNormal }
    ensures never_stuck { WholeIsNeverStuck }
    ensures synthesised { WholeIsSynthesised }
    ensures pure_module { PureModuleIsTyped }
    ensures normal_expression { ExpressionIsNormal }
    ensures normal_module { ModuleIsNormal }
{}

/// In a well formed environment each derived type has its kind, each type of an expression has kind `*`, each written
/// signature is ordered explicit, each module's signature is well formed, and the types that a pure module hides have
/// the kinds that its signature says; a whole program's signature is well formed, and the types that it hides have the
/// kinds that the signature says.
pub fn derived_signatures()
    ensures types { TypesHaveKinds }
    ensures exps { ExpsHaveTypes }
    ensures sigs { WrittenAreExplicit }
    ensures modules { ModulesAreWellFormed }
    ensures hidden { PureTypesHaveKinds }
    ensures programs { ProgramsAreWellFormed }
    ensures program_types { ProgramTypesHaveKinds }
{}
