// The types of the nodes of a term: a list of types that has the normal form of each, as the checker fills it.
// Specifications and their laws only; omega_checker stands on it.
// Stands on type_store (lists of numbered types), omega_laws (synthesis) and type_normal (normal forms).
// Proved: if a list holds the type that is found for each node of a term that has a type, it holds the normal form of each
// type that the typing rules give each node, in the node's own context; a longer list keeps this (`node_types`). For each
// form of term, if the parts have types, what the checker established of them gives it of the whole (`steps`).
#![tactic(auto)]

ghost use Rattle.omega_node_laws.specs.NodeLaws.{HeldGrows, NodesHeld, ClosedNodesHeld};
ghost use Rattle.omega_node_laws.specs.StepLaws.{LeafStep, FunctionStep, FieldsStep, NoBranchStep, BranchStep, LamStep, LetStep, CallStep, TyLamStep, InstStep, GetStep, PackStep, UnpackStep, IfStep, ArithStep, FixStep, InjStep, CaseStep, RollStep, UnrollStep};

/// What a list of types holds of a term's nodes, a longer list holds too. Where it holds the types that are found for the
/// nodes of a term that has a type, it holds the normal form of each node's type; so it does for a closed term.
///
/// This is a law of this project: the checker finds one normal type for each node, and the typing rules give all that are
/// convertible to it.
pub fn node_types()
    ensures grows { HeldGrows }
    ensures nodes { NodesHeld }
    ensures closed { ClosedNodesHeld }
{}

/// One step of a checker that keeps the types of a term's nodes by numbers. From the numbers of the types of the parts, and
/// from the number that the form's rule makes of them, it has the number of the whole's type, and all types of its nodes
/// have numbers. The variables in scope are at the end as they were at the start.
///
/// The steps are this project's own.
pub fn steps()
    ensures leaf { LeafStep }
    ensures function { FunctionStep }
    ensures lam { LamStep }
    ensures let_ { LetStep }
    ensures call { CallStep }
    ensures ty_lam { TyLamStep }
    ensures inst { InstStep }
    ensures fields { FieldsStep }
    ensures get { GetStep }
    ensures pack { PackStep }
    ensures unpack { UnpackStep }
    ensures if_ { IfStep }
    ensures arith { ArithStep }
    ensures fix { FixStep }
    ensures inj { InjStep }
    ensures no_branch { NoBranchStep }
    ensures branch { BranchStep }
    ensures case { CaseStep }
    ensures roll { RollStep }
    ensures unroll { UnrollStep }
{}
