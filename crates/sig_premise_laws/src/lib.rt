// What premises of the rules of elaboration determine: lifted signatures, packed terms, instances of terms.
// Stands on sig_laws. Matches are determined in sig_match_laws, and norms in sig_norm_laws.
// Proved (`premises`): there is exactly one of each.
#![tactic(auto)]

ghost use Rattle.sig_premise_laws.specs.Determined.{OneLift, OnePacked, OneInstance};

/// For signatures of normal types there is exactly one lifted signature. Each module of normal types, which have their kinds,
/// and of different names in each structure has exactly one packed term. A term of normal types has exactly one instance at
/// types of the kinds of its innermost type variables.
pub fn premises()
    ensures lift { OneLift }
    ensures packed { OnePacked }
    ensures instance { OneInstance }
{}
