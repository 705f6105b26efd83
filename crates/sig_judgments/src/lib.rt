// The rules of signatures and declarations: what each makes of premises that are elaborated already, and how it is refused.
// Specifications and their laws only; the calls that follow them stand in a crate of their own above.
// Stands on sig_definitions and sig_premise_laws.
// Proved: each rule has exactly one conclusion or exactly one refusal, under the conditions of the call that follows it
// (`signature_rules`).
#![tactic(auto)]

ghost use Rattle.sig_judgments.specs.OneOutcome.{OneValue, OneType, OneAbstract, OneModule, OneSignature, OneInclude, OneDistinct, OneDeclarations, OneGenerative, OneWhere};

/// Each rule of signatures and declarations gives exactly one signature, or has exactly one refusal, its first condition
/// that fails. Those that are never refused give exactly one. A signature with a hidden type fixed has normal types, and so
/// has what it is fixed to; nothing else is asked.
pub fn signature_rules()
    ensures value { OneValue }
    ensures type_ { OneType }
    ensures hidden { OneAbstract }
    ensures module_ { OneModule }
    ensures signature { OneSignature }
    ensures include { OneInclude }
    ensures distinct { OneDistinct }
    ensures declarations { OneDeclarations }
    ensures generative { OneGenerative }
    ensures where_type { OneWhere }
{}
