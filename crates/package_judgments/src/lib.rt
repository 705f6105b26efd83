// Packages, modules as first-class values: package types, packing and unpacking.
// Specifications and their laws only; the calls that follow them stand in a crate of their own above.
// Stands on sig_definitions, sig_norm_laws and sig_premise_laws.
// Proved (`package_rules`): each rule has exactly one conclusion or exactly one refusal, under the conditions of the call
// that follows it.
#![tactic(auto)]

ghost use Rattle.package_judgments.specs.OneOutcome.{OnePackType, OnePack, OneUnpack};

/// A package type and a packed module are exactly one, for an ordered explicit signature of normal types, and for normal
/// types of the kinds that a well formed signature of normal types hides. An unpacked one is exactly one, or the two types
/// differ. Nothing is asked but what the calls of the rules ask.
///
/// Rossberg, Russo and Dreyer, "F-ing modules", section 6.
pub fn package_rules()
    ensures pack_type { OnePackType }
    ensures pack { OnePack }
    ensures unpack { OneUnpack }
{}
