// The laws of semantic signatures: substitution, normal forms, encoding, lifting and coercions.
// Stands on sig_definitions.
// Proved: substitution keeps shapes, parts, root paths, well-formedness and explicitness (`substitution`); each signature
// has one normal form, and encodings are convertible exactly where the signatures are (`normal_signatures`); each coercion
// has the type that its rule says (`coercions`).
#![tactic(auto)]

ghost use Rattle.sig_laws.specs.SigLaws.{SubstituteId, SubstituteTwice, SubstituteAgree, SizeKept, PartKept, RootKept, WellFormedKept, ResultsKept, ExplicitKept, WellFormedConv, NormalSigGives, EncNormal, EncInjective, ConvExactly, ConvAbsExactly, OperatorFound};
ghost use Rattle.sig_laws.specs.LiftingLaws.{LiftingKinds, LiftingMaps};
ghost use Rattle.sig_laws.specs.CoercionTypes.{SubIsTyped, SubAbsIsTyped, MatchIsTyped};
ghost use Rattle.sig_laws.specs.EncodingLaws.{EncSubstitute, EncAbsSubstitute, EncRename, EncAbsRename, EncKind, EncAbsKind};

/// Encoding goes along with substitution and renaming, and the encoding of a well formed signature has kind `*`.
pub fn encoding()
    ensures substitute { EncSubstitute }
    ensures abs_substitute { EncAbsSubstitute }
    ensures rename { EncRename }
    ensures abs_rename { EncAbsRename }
    ensures kind { EncKind }
    ensures abs_kind { EncAbsKind }
{}

/// Substitution in signatures composes, depends only on the variables mentioned, and keeps the size, the parts, the root
/// paths, and what is well formed or ordered explicit.
pub fn substitution()
    ensures same { SubstituteId }
    ensures twice { SubstituteTwice }
    ensures agree { SubstituteAgree }
    ensures size { SizeKept }
    ensures part { PartKept }
    ensures root { RootKept }
    ensures formed { WellFormedKept }
    ensures results { ResultsKept }
    ensures explicit { ExplicitKept }
{}

/// Conversion keeps signatures well formed; each well formed signature has exactly one normal form, whose encoding is
/// normal; signatures of one encoding are the same; two well formed signatures, and two that hide types, are convertible
/// exactly where their encodings are; and at most one normal operator, applied to the variables of binders, is convertible
/// to a given normal type.
pub fn normal_signatures()
    ensures conv { WellFormedConv }
    ensures normal { NormalSigGives }
    ensures enc { EncNormal }
    ensures injective { EncInjective }
    ensures exactly { ConvExactly }
    ensures abs_exactly { ConvAbsExactly }
    ensures operator { OperatorFound }
{}

/// What stands under a functor's parameter and then its result's hidden types gets types of the same kinds under the
/// lifted hidden types and then the parameter.
pub fn lifting_laws()
    ensures kinds { LiftingKinds }
    ensures maps { LiftingMaps }
{}

/// The coercion of subtyping leads from the encoding of the left side to that of the right side; so for signatures that
/// hide types; and that of a match leads to the right side's body at the types found, which have the right kinds.
///
/// Rossberg, Russo and Dreyer, "F-ing modules", section 4, Signature matching.
pub fn coercions()
    ensures sub { SubIsTyped }
    ensures sub_abs { SubAbsIsTyped }
    ensures match_at { MatchIsTyped }
{}
