// A signature is below itself, so signature parts of one encoding need no comparison. Specifications and their laws only.
// Stands on sig_match_laws.
// Proved: each well formed signature of normal types is below itself, and its body matches the whole at its own variables
// (`itself`); signature parts whose encodings are the same tree are below each other, by the coercion that the encodings
// give, and are not refused (`same_encoding`).
#![tactic(auto)]

ghost use Rattle.sig_reflexive_laws.specs.Itself.{SelfSub, SelfSubAbs, SelfMatch, OneSelfMatch};
ghost use Rattle.sig_reflexive_laws.specs.SameEncoding.{BelowEachOther, PartGives, OnePart, PartNotRefused, FunctionSkips};

/// Each well formed signature of normal types is below itself, and matches itself at its own variables, which are the
/// only types of such a match where it is ordered explicit.
pub fn itself()
    ensures sub { SelfSub }
    ensures abs { SelfSubAbs }
    ensures matching { SelfMatch }
    ensures one { OneSelfMatch }
{}

/// Two well formed signatures of normal types whose encodings are the same are below each other; a signature part of the
/// one is below a part of the other by the coercion that the encodings give, which is the only one; and neither the
/// relation refuses it nor has the function to compare.
pub fn same_encoding()
    ensures both { BelowEachOther }
    ensures part { PartGives }
    ensures one { OnePart }
    ensures not_refused { PartNotRefused }
    ensures function { FunctionSkips }
{}
