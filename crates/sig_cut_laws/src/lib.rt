// A look-up along a path needs only what the path meets. Specifications and their laws only.
// Stands on sig_match_laws.
// Proved (`along`): where all fields beside the path are left out of both sides, the same types are found; what is left is
// as good as the whole, no larger, and the same whether types are put in before or after. It lets a
// look-up through the result of a functor put types into one field.
#![tactic(auto)]

ghost use Rattle.sig_cut_laws.specs.Along.{CutBefore, CutLeft, CutRight, FoundInCut, NoLarger};

/// A type is found along a path exactly where it is found in what the path meets of both sides. What the path meets of a
/// side is as good a side, and no larger. Types may be put in for the hidden ones after the cut.
///
/// Rossberg, Russo and Dreyer, "F-ing modules", section 5, the lookup; the cut is this project's own.
pub fn along()
    ensures found { FoundInCut }
    ensures left { CutLeft }
    ensures right { CutRight }
    ensures before { CutBefore }
    ensures size { NoLarger }
{}
