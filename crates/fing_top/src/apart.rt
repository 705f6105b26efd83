// Units elaborated apart and linked, as a build does it, by the calls `env_of`, `elab_unit` and `link`.
ghost use Rattle.std.specs.Prelude.{◌≡◌, ◌<◌, ◌^◌, ◌++◌, ◌∷◌, [], List, length, vec_len, IfErr, IfOk, OnOk};
ghost use Rattle.omega_terms.specs.Term.{Term};
ghost use Rattle.semantic_sigs.specs.Inner.Made.{module_of};
ghost use Rattle.fing_refusals.specs.Inner.Plain.{Says};
ghost use Rattle.fing_syntax.specs.Units.{UnitTree as Tree};
ghost use Rattle.unit_judgments.specs.Interfaces.{env_of as env_in};
ghost use Rattle.unit_judgments.specs.Link.{Links, UnitModule as ModuleOfUnit, interface_of};
ghost use Rattle.unit_laws.specs.Derived.{DerivedUnder, DerivesUnits, FirstRefused, RefusesUnits, UnitRefused, UnitsMean};
ghost use Rattle.fing_units.specs.Inner.Units.{unit_of, units_of};
ghost use Rattle.fing_top.specs.Inner.Linked.{IsNext};

use fing_elab::elab_unit;
use fing_refusals::Refusal;
use fing_syntax::UnitTree;
use fing_units::{Interfaces, LinkRefusal, UnitModule, env_of, link};
use omega_kinds::Mem;
use semantic_sigs::Module;
use std::alloc::Global;

// A unit elaborated under the interfaces of those before it.
fn elaborated_under(
    alloc: Global,
    under: &Interfaces,
    unit: &UnitTree,
) -> Result<UnitModule, Refusal>
    requires { DerivedUnder under.now }
    ensures means { IfOk result (λ m. IsNext under.now unit.now m) }
    ensures refused { IfErr result (λ e. Says e (UnitRefused (env_in under.now) unit.now)) }
{
    let env = env_of(alloc, under)?;
    let module = elab_unit(alloc, env, unit)?;
    Ok(UnitModule {
        under: under.share(alloc)?,
        name: unit.name.share()?,
        module,
    })
}

// One more unit behind those that were elaborated, and its interface behind theirs.
fn keep(made: &mut Vec<UnitModule>, under: &mut Interfaces, next: UnitModule) -> Result<(), Mem>
    ensures made { OnOk result (made.new.items ≡ made.old.items ++ next ∷ []) }
    ensures under { OnOk result (under.new ≡ under.old ++ interface_of (unit_of next) ∷ []) }
{
    under.push((next.name.share()?, next.module.sig.share()?))?;
    made.push(next)?;
    Ok(())
}

// Each unit elaborated under the interfaces of those before it, or the refusal of the first that is refused.
fn each_apart(alloc: Global, units: &[UnitTree]) -> Result<Vec<UnitModule>, Refusal>
    ensures means { IfOk result (λ made. UnitsMean [] units.now (units_of made.items)) }
    ensures refused { IfErr result (λ e. Says e (FirstRefused [] units.now)) }
{
    let mut made = Vec::new(alloc);
    let mut under = Interfaces::new(alloc);
    for unit in units {
        let next = elaborated_under(alloc, &under, unit)?;
        keep(&mut made, &mut under, next)?;
    }
    Ok(made)
}

// The link of units that were elaborated apart. Each stands under the interfaces of those before it, so none is foreign.
// `Err` is out of memory.
fn link_of(alloc: Global, made: Vec<UnitModule>) -> Result<Module, Mem>
    requires few { vec_len made < 2 ^ 32 }
    requires apart { (us : List Tree) × UnitsMean [] us (units_of made.items) }
    ensures { IfOk result (λ m. Links (units_of made.items) (module_of m)) }
{
    match link(alloc, made) {
        Ok(module) => Ok(module),
        Err(LinkRefusal::Foreign { .. }) => unreachable!(),
        Err(LinkRefusal::Mem) => Err(Mem),
    }
}

/// The module that fewer than 2^32 separate units mean together. Each is elaborated by `elab_unit`, in the environment that
/// `env_of` makes of the names and signatures of those before it. Then `link` links what comes out, of which none is
/// foreign. The module is what the program of the units means, with its effect, signature, hidden types and term. That
/// program binds the name of each unit, in order, to its body, sealed by its signature. `Err` is the refusal of the first
/// unit that is refused, which is that of the program, or out of memory.
///
/// A build makes the three calls itself, and keeps of each unit the `UnitModule`: the interfaces before it, its name and its
/// module. It elaborates a unit anew where the unit has changed, or one of these interfaces. Then it hands all of them to
/// `link`, which names the first that was elaborated under other interfaces than those of the units before it.
///
/// Rossberg, Russo and Dreyer, "F-ing modules", sections 4 and 7, Elaboration, Bindings; separate units are this project's
/// own.
pub fn link_apart(alloc: Global, units: &[UnitTree]) -> Result<Module, Refusal>
    requires { length units.now < 2 ^ 32 }
    ensures linked { IfOk result (λ m. (ms : List ModuleOfUnit) × UnitsMean [] units.now ms × Links ms (module_of m)) }
    ensures derived { IfOk result (λ m. (e : Term) × DerivesUnits units.now (module_of m) e) }
    ensures first { IfErr result (λ e. Says e (FirstRefused [] units.now)) }
    ensures refused { IfErr result (λ e. Says e (RefusesUnits units.now)) }
{
    let made = each_apart(alloc, units)?;
    Ok(link_of(alloc, made)?)
}
