// Package types of signatures that match each other.
// Stands on sig_match_laws and sig_norm_laws.
// Proved: under two conditions on root paths they have one package type. For each condition an example has the other one
// alone, and two package types. The norm goes along with renaming.
#![tactic(auto)]

ghost use Rattle.sig_package_laws.specs.PackageTypes.{NormOfRenamed, OnePackageType, OneNormalPackageType, TwoPackageTypes, FlipInOneOrder, OrderMatters, OrderAtSamePaths};

/// The norm of a renamed signature is the renamed norm.
pub fn renamed_norms()
    ensures { NormOfRenamed }
{}

/// Two ordered explicit signatures that match each other have convertible package types under two conditions. Their
/// variables, and those of all signatures inside, are rooted at the same paths; and the parameters of pure functors hide
/// them in one order. Where their types are normal, it is the same package type. Where only the second condition holds, the
/// types can differ (an operator and its flip). They can differ too where only the first one holds (a parameter that
/// declares two types in one order, and one that declares them in the other).
pub fn package_types()
    ensures one { OnePackageType }
    ensures normal { OneNormalPackageType }
    ensures two { TwoPackageTypes }
    ensures one_order { FlipInOneOrder }
    ensures order { OrderMatters }
    ensures same_paths { OrderAtSamePaths }
{}
