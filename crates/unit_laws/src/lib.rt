// Separate units: what units mean that are elaborated apart and linked is what the program of all of them means.
// Specifications and their laws only.
// Stands on unit_judgments and elab_exact.
// Proved (`units_apart`): the link of units that are derived apart, each under the names and signatures of those before it, is
// what their program means, and the first refusal is that of the program.
#![tactic(auto)]

ghost use Rattle.unit_laws.specs.Claims.{DerivedIsLinked, DerivedUnderIsGood, EachList, FirstIsRefused, LinkedIsDerived, RefusedIsFirst, SigOfUnit};

/// Where each unit of a list is derived under the names and signatures of the units before it, the list has one link, and it
/// is the one meaning of the list's program. A program that means something is such a link. The first unit that is refused is
/// refused as the program is, and a refusal of the program is that of the first refused unit. A list is either derived or
/// refused. Interfaces of derived units give a good environment. The signature of a unit is the written one, before whose
/// quantifiers stand those of the types that the body hides.
///
/// Rossberg, Russo and Dreyer, "F-ing modules", section 4, bindings.
pub fn units_apart()
    ensures linked { LinkedIsDerived }
    ensures apart { DerivedIsLinked }
    ensures first { FirstIsRefused }
    ensures refused { RefusedIsFirst }
    ensures each { EachList }
    ensures good { DerivedUnderIsGood }
    ensures signature { SigOfUnit }
{}
