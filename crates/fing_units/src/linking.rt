// The link of units.
ghost use Rattle.std.specs.Prelude.{ℕ, ◌≡◌, ◌↔◌, ◌<◌, ◌^◌, [], IfErr, IfOk, IfSome, IsTrue, MatchOption, length, map, vec_len};
ghost use Rattle.omega_kinds.specs.declared.effect.Effect.TheVariants.{Pure};
ghost use Rattle.omega_terms.specs.Term.{Fields, TermRow};
ghost use Rattle.sig_definitions.specs.Signatures.Sig.{Abs as AbsTree, SigRow, Str, made};
ghost use Rattle.sig_laws.specs.Good.{Names as GoodNames};
ghost use Rattle.semantic_sigs.specs.Inner.Made.{module_of};
ghost use Rattle.module_judgments.specs.Sequence.{Collected};
ghost use Rattle.unit_judgments.specs.Interfaces.{env_of as env_in};
ghost use Rattle.unit_judgments.specs.Link.{Differs, Foreign, Links, OkUnits, interface_of, names_after};
ghost use Rattle.fing_units.specs.Inner.Plain.{foreign_index};
ghost use Rattle.fing_units.specs.Inner.Units.{units_of};

use crate::comparing::same_abs;
use crate::interfaces::Interfaces;
use crate::refusal::LinkRefusal;
use crate::scopes::push_interface;
use crate::unit_module::UnitModule;
use module_rests::Rest;
use module_rules::end_struct;
use omega_kinds::{Mem, Name, same_name};
use semantic_sigs::{Abs, Env, Module};
use sig_rules::NameSet;
use std::alloc::Global;

/// The module that the rules of bindings give for the names of the units bound to their modules in order, and then the end
/// of the structure; it is closed. Each unit's module is well formed, of normal types of their kinds, in the environment of
/// the interfaces under which the unit stands. `Foreign` comes exactly where some unit stands under other interfaces than
/// the names and signatures of the units before it, in number, name or signature, and tells the index of the first such.
/// So a unit may be replaced by another one of its name and signature under the same interfaces.
///
/// Rossberg, Russo and Dreyer, "F-ing modules", sections 4 and 7, Elaboration, Bindings; separate units are this project's
/// own.
pub fn link(alloc: Global, units: Vec<UnitModule>) -> Result<Module, LinkRefusal>
    requires few { vec_len units < 2 ^ 32 }
    requires good { OkUnits (units_of units.items) }
    ensures linked { IfOk result (λ m. Links (units_of units.items) (module_of m)) }
    ensures foreign { IfErr result (λ e. IfSome (foreign_index e) (λ n. Foreign (units_of units.items) n)) }
{
    if let Some(index) = first_foreign(&units) {
        return Err(LinkRefusal::Foreign { index });
    }
    Ok(join(alloc, units)?)
}

// The index of the first unit that stands under other interfaces than those of the units before it; `None` exactly where
// there is none.
fn first_foreign(units: &[UnitModule]) -> Option<u32>
    requires { length units.now < 2 ^ 32 }
    ensures { MatchOption result ((n : ℕ) → Differs (units_of units.now) n → ⊥) (λ n. Foreign (units_of units.now) n) }
{
    for at in 0..units.len() {
        if !stands_under(&units[at].under, &units[..at]) {
            return Some(at as u32);
        }
    }
    None
}

// Whether the interfaces are those of the units.
fn stands_under(under: &Interfaces, before: &[UnitModule]) -> bool
    ensures { IsTrue result ↔ under.now ≡ map interface_of (units_of before.now) }
{
    let items = under.items();
    if items.len() != before.len() {
        return false;
    }
    for i in 0..items.len() {
        let item = &items[i];
        if !shows(&before[i], &item.0, &item.1) {
            return false;
        }
    }
    true
}

// Whether the unit has this name, and its module this signature.
fn shows(unit: &UnitModule, name: &Name, sig: &Abs) -> bool
    ensures { IsTrue result ↔ ((name.now ≡ unit.now.name) × (sig.now ≡ unit.now.module.sig)) }
{
    same_name(name, &unit.name) && same_abs(sig, &unit.module.sig)
}

/// The same for units of which each stands under the interfaces of those before it, as those of one text do. Nothing is
/// compared. `Err` is out of memory.
///
/// Rossberg, Russo and Dreyer, "F-ing modules", sections 4 and 7, Elaboration, Bindings; separate units are this project's
/// own.
#[tactic(auto, using(crate::proofs::Linked::linked_done))]
pub fn join(alloc: Global, units: Vec<UnitModule>) -> Result<Module, Mem>
    requires own { (n : ℕ) → Differs (units_of units.items) n → ⊥ }
    requires good { OkUnits (units_of units.items) }
    ensures { IfOk result (λ m. Links (units_of units.items) (module_of m)) }
{
    let end = end_of(alloc, &units)?;
    let mut rest = Rest::of(alloc, end);
    let mut left = units;
    while let Some(unit) = left.pop() {
        rest = rest.bind(alloc, unit.module)?;
    }
    let whole = rest.join(alloc)?;
    Ok(whole)
}

// The end of a structure of units, in the environment of their interfaces.
fn end_of(alloc: Global, units: &[UnitModule]) -> Result<Module, Mem>
    requires { GoodNames (env_in (map interface_of (units_of units.now))) (names_after [] (units_of units.now)) }
    ensures { IfOk result (λ m. (fs : SigRow) × (es : TermRow) × Collected (env_in (map interface_of (units_of units.now))) (names_after [] (units_of units.now)) fs es × (module_of m ≡ made Pure (AbsTree.Ex [] (Str fs)) [] (Fields es))) }
{
    let mut env = Env::new(alloc);
    let mut names = NameSet::new(alloc);
    for unit in units {
        push_interface(&mut env, &unit.name, &unit.module.sig)?;
        names = names.with(&unit.name)?;
    }
    let list = names.list(alloc)?;
    end_struct(alloc, &env, &list)
}
