// Separate units and their link: interfaces and the environment that they give, the module that the rules of bindings give
// for names bound to modules in order, and the unit that stands under other interfaces than those of the units before it.
// Specifications and their laws only; the calls that follow them stand in a crate of their own above.
// Stands on module_judgments, whose rule for bindings in a row it iterates.
// Proved (`linking`): interfaces of well formed signatures give a good environment; good modules have one link, which is
// good, or one first foreign unit; and linking looks at interfaces alone.
#![tactic(auto)]

ghost use Rattle.unit_judgments.specs.Claims.{InterfacesGiveScopes, InterfacesSuffice, LinkIsExact, LinkIsGood};

/// Interfaces of well formed signatures give a good environment. Units whose modules are good where they stand have exactly
/// one link, or exactly one of them is the first that stands under other interfaces than those of the units before it. The
/// link is good. Another unit of the same interface, under the same interfaces, in the place of one makes no difference to
/// whether the list links.
///
/// Rossberg, Russo and Dreyer, "F-ing modules", section 4, bindings.
pub fn linking()
    ensures scopes { InterfacesGiveScopes }
    ensures exact { LinkIsExact }
    ensures good { LinkIsGood }
    ensures replaced { InterfacesSuffice }
{}
