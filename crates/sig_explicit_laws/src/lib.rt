// The operations of elaboration keep signatures ordered explicit.
// Stands on sig_laws.
// Proved (`kept_by_operations`): sequences of declarations, applicative and generative functors, `where type`, instances,
// and signatures that are seen from outside hidden types are ordered explicit again.
#![tactic(auto)]

ghost use Rattle.sig_explicit_laws.specs.Kept.{SequenceKeeps, LiftKeeps, LiftKeepsWellFormed, GenerativeKeeps, FixingKeeps, InstanceKeeps, OutsideKeeps};

/// Ordered explicit are: declarations of different names one after the other, if each part is; the lifted signature of an
/// applicative functor and that of a generative one, if parameter and result are (and the lifted one is well formed where
/// the result is); a signature with a hidden type fixed; one with types put in; and one that mentions no hidden type, seen
/// from outside them.
///
/// Rossberg, Russo and Dreyer, "F-ing modules", section 5 and section 7, where explicit signatures are shown to be kept.
pub fn kept_by_operations()
    ensures sequence { SequenceKeeps }
    ensures lift { LiftKeeps }
    ensures lift_formed { LiftKeepsWellFormed }
    ensures generative { GenerativeKeeps }
    ensures fixing { FixingKeeps }
    ensures instance { InstanceKeeps }
    ensures outside { OutsideKeeps }
{}
