// The order of a package's quantifiers exists, is unique and stable.
// Stands on sig_explicit_laws.
// Proved (`norms`): least root paths; each ordered explicit signature has exactly one order of its quantifiers and exactly
// one norm, which is ordered explicit and its own norm.
#![tactic(auto)]

ghost use Rattle.sig_norm_laws.specs.Norms.{RootsFound, OneLeastRoot, OrderExists, OrderUnique, NormExists, NormUnique, OneNorm, NormKeeps, NormOfNorm};

/// Each variable has a least root path or no root path, and one least one at most; each ordered explicit signature has
/// exactly one order of its quantifiers and exactly one norm; the norm is ordered explicit, and its own norm.
pub fn norms()
    ensures roots { RootsFound }
    ensures one_root { OneLeastRoot }
    ensures order { OrderExists }
    ensures one_order { OrderUnique }
    ensures exists { NormExists }
    ensures unique { NormUnique }
    ensures one_norm { OneNorm }
    ensures keeps { NormKeeps }
    ensures again { NormOfNorm }
{}
