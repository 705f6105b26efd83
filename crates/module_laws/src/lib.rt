// Types put into terms one list after the other are put in at once. Specifications and their laws only.
// Stands on sig_premise_laws and module_judgments.
// Proved: an instance of an instance is an instance (`together`), and what the rule of a sequence makes of a binding and the
// rest, with types put in, is made of the binding with these put in and of the rest with these and the binding's own put in
// (`put_in`). So the rest is gone through once, however many bindings there are before it.
#![tactic(auto)]

ghost use Rattle.module_laws.specs.PutIn.{SequencePutIn};
ghost use Rattle.module_laws.specs.Together.{InstancesCompose, TypesCompose};

/// Types that are put into a term one list after the other are put in at once: an instance of an instance is an instance,
/// and each instance at once is one of these.
pub fn together()
    ensures substitutions { InstancesCompose }
    ensures types { TypesCompose }
{}

/// What the rule of a sequence makes of a pure binding and a pure rest, with types put in: the types that it keeps and its
/// term are made of those of the binding with the types put in, and of those of the rest with the types and then the
/// binding's own put in at once.
pub fn put_in()
    ensures { SequencePutIn }
{}
