// The laws of matching: its types are unique and are found by look-up along root paths, and it is decided.
// Stands on sig_laws.
// Proved: a match or a refusal exists for each well formed left and ordered explicit right side, never both, and one at
// most (`decided`); functions that a program can follow give just these (`functions`); so it is for signatures with any
// types, by conversion (`any_types`).
#![tactic(auto)]

ghost use Rattle.sig_match_laws.specs.MatchClaims.{OneMatch, OneSub, OneSubAbs, SearchGives, MatchIsLookedUp, OneFound, MatchOrRefusal, OneMatchOrRefusal, SubOrRefusal, SubAbsOrRefusal, NotBoth, OneRefusal, SubNotBoth, SubAbsNotBoth, OneSubRefusal, OneSubAbsRefusal, MatchSigGives, SubSigGives, SubAbsGives, MatchSigStep, SubSigStep, SubAbsStep, LookGives, LaterTypesDoNotMatter};
ghost use Rattle.sig_match_laws.specs.AnyTypes.{MatchesExactly, MatchSigFinds, MatchSigMatches, MatchesSubstitute, SubSubstitute, SubAbsSubstitute, MatchSigRefuses, SubAbsFinds};
ghost use Rattle.sig_match_laws.specs.Examples.{IntIsFound, NothingIsFound};

/// A well formed left side and an ordered explicit right side match at one list of types and by one coercion at most;
/// so for subtyping.
///
/// Rossberg, Russo and Dreyer, "F-ing modules", section 5, Decidability: explicit signatures, here through results of
/// pure functors too.
pub fn one_at_most()
    ensures matching { OneMatch }
    ensures sub { OneSub }
    ensures abs { OneSubAbs }
{}

/// The search gives exactly the least root path of a variable; each type of a match is found by look-up along the least
/// root path of its variable; at most one type is found there; look-up is computed; and what is put in for the variables
/// not yet looked up makes no difference.
pub fn looked_up()
    ensures search { SearchGives }
    ensures whole { MatchIsLookedUp }
    ensures one { OneFound }
    ensures look { LookGives }
    ensures later { LaterTypesDoNotMatter }
{}

/// For each well formed left and ordered explicit right side of normal types a match or a refusal exists, not both, and
/// one refusal at most; so for subtyping of signatures, and of signatures with hidden types.
pub fn decided()
    ensures matching { MatchOrRefusal }
    ensures sub { SubOrRefusal }
    ensures abs { SubAbsOrRefusal }
    ensures exclude { NotBoth }
    ensures one { OneRefusal }
    ensures verdict { OneMatchOrRefusal }
    ensures sub_exclude { SubNotBoth }
    ensures abs_exclude { SubAbsNotBoth }
    ensures one_sub { OneSubRefusal }
    ensures one_abs { OneSubAbsRefusal }
{}

/// The functions of matching and subtyping give exactly the matches and the refusals, and each is one step over calls
/// of the three, as a program makes them.
pub fn functions()
    ensures matching { MatchSigGives }
    ensures sub { SubSigGives }
    ensures abs { SubAbsGives }
    ensures match_step { MatchSigStep }
    ensures sub_step { SubSigStep }
    ensures abs_step { SubAbsStep }
{}

/// Matching on any types, compared by conversion and with types put in as they are, is matching on normal forms; the
/// function decides it; and it is closed under substitution for the variables of the context.
pub fn any_types()
    ensures exactly { MatchesExactly }
    ensures finds { MatchSigFinds }
    ensures matches { MatchSigMatches }
    ensures refuses { MatchSigRefuses }
    ensures abs { SubAbsFinds }
    ensures substitute { MatchesSubstitute }
{}

/// Subtyping of signatures with normal types goes along with types that are put in for variables, normal forms being
/// taken afterwards.
pub fn substituted()
    ensures sub { SubSubstitute }
    ensures abs { SubAbsSubstitute }
{}

/// A structure with `t = Int` matches one that hides t, at Int; an empty structure does not, and the refusal names the
/// variable and its path.
pub fn found_or_not()
    ensures found { IntIsFound }
    ensures missing { NothingIsFound }
{}
