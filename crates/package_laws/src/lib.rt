// Signatures that match each other share a package type.
// Specifications and their laws only.
// Stands on package_judgments and sig_package_laws.
// Proved (`package_types`): the rule of package types gives two such signatures one type, under two conditions on root paths.
#![tactic(auto)]

ghost use Rattle.package_laws.specs.SharedType.{OneSharedType};

/// Two ordered explicit signatures of normal types that match each other share a package type under two conditions. The
/// variables of both, and of all signatures inside, are rooted at the same paths; and the parameters of pure functors hide
/// them in one order.
///
/// Rossberg, Russo and Dreyer, "F-ing modules", section 6.
pub fn package_types()
    ensures { OneSharedType }
{}
