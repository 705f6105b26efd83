// The rules of modules and bindings: what each makes of premises that are elaborated already, and how it is refused.
// Specifications and their laws only; the calls that follow them stand in a crate of their own above.
// Stands on sig_definitions and sig_premise_laws.
// Proved (`module_rules`): each rule with a condition or a choice has exactly one conclusion or exactly one refusal, under
// the conditions of the call that follows it.
#![tactic(auto)]

ghost use Rattle.module_judgments.specs.OneOutcome.{OneNamed, OneProjected, OnePureProjected, OneTypePath, OneValuePath, OneSigPath, OneGenerative, OneParts, OneApply, OneInclude, OneEnd, OneSequence, OneSeal, OneValueModule, OneTypeModule, OneSignatureModule};

/// Names, projections, paths, the parts of a functor's signature, applications and includes have exactly one conclusion or
/// exactly one refusal. Generative functors, sealing, single bindings, finished structures and sequences of bindings have
/// exactly one conclusion. Each clause asks what the call of its rule asks, and no more. Of modules it asks normal types,
/// which have their kinds, and different names in each structure. Of applications it asks normal types of the functor's
/// signature, and that the types that are handed in are normal and have the kinds of the parameter's hidden types. Of the
/// names of a finished structure it asks that they are bound; they stand in any order, and with repetitions. Of the parts
/// of pure modules, and of all others, nothing is asked.
pub fn module_rules()
    ensures named { OneNamed }
    ensures projected { OneProjected }
    ensures pure_projected { OnePureProjected }
    ensures type_path { OneTypePath }
    ensures value_path { OneValuePath }
    ensures sig_path { OneSigPath }
    ensures generative { OneGenerative }
    ensures parts { OneParts }
    ensures apply { OneApply }
    ensures include { OneInclude }
    ensures end { OneEnd }
    ensures sequence { OneSequence }
    ensures seal { OneSeal }
    ensures value { OneValueModule }
    ensures type_ { OneTypeModule }
    ensures signature { OneSignatureModule }
{}
