// Subtyping of signatures is transitive, and signatures of one norm are below each other. Specifications and their laws only.
// Stands on sig_match_laws and sig_norm_laws.
// Proved: what is below a signature that is below a third one is below that one (`transitive`); each ordered explicit
// signature of normal types is below its norm and above it, so two that have one norm are below each other, and so are the
// signature parts of them (`one_norm`).
#![tactic(auto)]

ghost use Rattle.sig_transitive_laws.specs.Transitive.{SubTransitive, SubAbsTransitive};
ghost use Rattle.sig_transitive_laws.specs.OneNorm.{NormBelow, OneNormBelow, PartOfOneNorm};

/// Subtyping is transitive, of signatures of normal types and of such that hide types.
///
/// Rossberg, Russo and Dreyer, "F-ing modules", section 4, the relation; the proof is this project's own.
pub fn transitive()
    ensures sub { SubTransitive }
    ensures abs { SubAbsTransitive }
{}

/// An ordered explicit signature of normal types and its norm are below each other. So are two such signatures that have one
/// norm; and a signature part of the one is below a part of the other, by the coercion that the encodings give.
pub fn one_norm()
    ensures norm { NormBelow }
    ensures both { OneNormBelow }
    ensures part { PartOfOneNorm }
{}
