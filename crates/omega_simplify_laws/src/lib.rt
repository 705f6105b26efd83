// What simplified terms are, and what simplification keeps: a call of a function that gives its argument back is replaced by
// that argument.
// Stands on omega_terms and omega_laws.
// Proved: which functions these are (`flatness`); the simplified term keeps each type, and a closed typed term and its
// simplified one come to the same end, the latter in no more steps (`simplification`); a sealed structure (`example`).
#![tactic(auto)]

ghost use Rattle.omega_simplify_laws.specs.Claims.{PartsAreTested, SimplifiedKeepsTypes, FlatCallsComeBack, SimplifiedComesToo, TermComesToo};
ghost use Rattle.omega_simplify_laws.specs.Example.{SealedRow};

/// The test for a record that is built anew of its own parts: it holds exactly where each field is the part at its label,
/// and the labels are exactly those of the type.
pub fn flatness()
    ensures { PartsAreTested }
{}

/// The simplified term has each type of the term. A call of a flat function on a value comes back to that value. A closed
/// typed term and its simplified one come to the same end, or to none: values with one shown form and one value text, or
/// one fault. The simplified one comes to it in no more steps.
///
/// A simulation of one reduction by another: Leroy, "A formally verified compiler back-end", section 2, where a step of the
/// first is answered by at most one step of the second, and those that are not answered are bounded by a weight.
pub fn simplification()
    ensures types { SimplifiedKeepsTypes }
    ensures returned { FlatCallsComeBack }
    ensures forwards { SimplifiedComesToo }
    ensures backwards { TermComesToo }
{}

/// A sealed structure: its coercion does nothing and goes, and the term comes to its value in 6 steps in place of 11.
pub fn example()
    ensures { SealedRow }
{}
