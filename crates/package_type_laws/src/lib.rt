// Package types and the signatures for which they stand.
// Specifications and their laws only.
// Stands on sig_match_laws, sig_norm_laws and sig_package_laws.
// Proved: a signature and its norm match each other (`norms_match`); two package types are the same exactly where the norms
// are, and convertible exactly where the norms are; convertible signatures have convertible ones (`package_types`).
#![tactic(auto)]

ghost use Rattle.package_type_laws.specs.PackageTypes.{NormMatches, NormalNormMatches, OneEncoding, NormsExactly, ConvertibleNorms};

/// An ordered explicit signature and its norm match each other. So they do as signatures of normal types, by coercions.
///
/// Rossberg, Russo and Dreyer, "F-ing modules", section 6; the order of quantifiers is this project's own.
pub fn norms_match()
    ensures any { NormMatches }
    ensures normal { NormalNormMatches }
{}

/// Two signatures that hide types have one encoding only if they are the same. The package types of two ordered explicit
/// signatures are convertible exactly where their norms are; so they are where the two signatures are convertible.
///
/// Rossberg, Russo and Dreyer, "F-ing modules", section 6; the order of quantifiers is this project's own.
pub fn package_types()
    ensures injective { OneEncoding }
    ensures exactly { NormsExactly }
    ensures convertible { ConvertibleNorms }
{}
