// `link`: separate units, each elaborated apart under the names and signatures of those before it, and linked.
ghost use Rattle.std.specs.Prelude.{◌≡◌, ◌≤◌, ◌++◌, ◌∷◌, [], length, false, IfErr, IfOk, OnOk};
ghost use Rattle.semantic_sigs.specs.Inner.Made.{module_of};
ghost use Rattle.fing_refusals.specs.Inner.Plain.{Says};
ghost use Rattle.unit_judgments.specs.Interfaces.{env_of as env_in, sig_in, with_interface};
ghost use Rattle.unit_judgments.specs.Link.{interface_of};
ghost use Rattle.unit_laws.specs.Derived.{DerivedUnder, UnitRefused, UnitsMean, FirstRefused};
ghost use Rattle.unit_laws.specs.Units.{program_of};
ghost use Rattle.fing_units.specs.Inner.Units.{unit_of, units_of};
ghost use Rattle.fing_words.specs.declared.command_line.CommandLine.TheVariants as command;
ghost use Rattle.fing_top.specs.Answer.{limit, AnswersBytes, change, output};
ghost use Rattle.fing_top.specs.Inner.Compiled.{IsConfirmed, IsRefused};
ghost use Rattle.fing_top.specs.Inner.Linked.{IsNext};
ghost use Rattle.fing_top.specs.Meaning.{separate_units, Spells};

use crate::compiling::confirm;
use crate::emitting::put_emission;
use crate::refusing::Refused;
use crate::status::Status;
use fing_elab::unit_in;
use fing_lexer::tokens;
use fing_parser::units;
use fing_refusals::Refusal;
use fing_syntax::{UnitTree, Units};
use fing_text::Sink;
use fing_units::{Interfaces, UnitModule, join, push_interface};
use module_rules::packed;
use omega_checker::Checked;
use omega_kinds::Mem;
use semantic_sigs::Env;
use std::alloc::Global;

// The units that a source's bytes are, or why they are none.
fn parsed(alloc: Global, bytes: &[u8]) -> Result<Units, Refused>
    requires { length bytes.now ≤ limit }
    ensures spelled { IfOk result (λ us. Spells separate_units bytes.now (program_of us)) }
    ensures refused { IfErr result (IsRefused separate_units bytes.now) }
{
    let tokens = tokens(alloc, bytes)?;
    Ok(units(alloc, &tokens)?)
}

// A unit elaborated under the interfaces of those before it, in their environment.
fn next_module(
    alloc: Global,
    env: &mut Env,
    under: &Interfaces,
    unit: &UnitTree,
) -> Result<UnitModule, Refusal>
    requires derived { DerivedUnder under.now }
    requires scope { env.old ≡ env_in under.now }
    ensures means { IfOk result (λ m. IsNext under.now unit.now m) }
    ensures refused { IfErr result (λ e. Says e (UnitRefused (env_in under.now) unit.now)) }
    ensures same { OnOk result (env.new ≡ env.old) }
{
    let module = unit_in(alloc, env, unit)?;
    Ok(UnitModule {
        under: under.share(alloc)?,
        name: unit.name.share()?,
        module,
    })
}

// One more unit behind those that were elaborated, and its interface behind theirs, also in their environment.
fn add(
    made: &mut Vec<UnitModule>,
    under: &mut Interfaces,
    env: &mut Env,
    next: UnitModule,
) -> Result<(), Mem>
    ensures made { OnOk result (made.new.items ≡ made.old.items ++ next ∷ []) }
    ensures under { OnOk result (under.new ≡ under.old ++ interface_of (unit_of next) ∷ []) }
    ensures env { OnOk result (env.new ≡ with_interface env.old next.name (sig_in (module_of next.module))) }
{
    push_interface(env, &next.name, &next.module.sig)?;
    under.push((next.name.share()?, next.module.sig.share()?))?;
    made.push(next)?;
    Ok(())
}

// Units elaborated apart, or the refusal of the first that is refused.
fn elaborated(alloc: Global, units: &[UnitTree]) -> Result<Vec<UnitModule>, Refusal>
    ensures means { IfOk result (λ made. UnitsMean [] units.now (units_of made.items)) }
    ensures refused { IfErr result (λ e. Says e (FirstRefused [] units.now)) }
{
    let mut made = Vec::new(alloc);
    let mut under = Interfaces::new(alloc);
    let mut env = Env::new(alloc);
    for unit in units {
        let next = next_module(alloc, &mut env, &under, unit)?;
        add(&mut made, &mut under, &mut env, next)?;
    }
    Ok(made)
}

// What the checker made of the whole term to which a source's units link, or why the source is refused.
fn linked(alloc: Global, bytes: &[u8]) -> Result<Checked, Refused>
    requires { length bytes.now ≤ limit }
    ensures confirmed { IfOk result (λ j. IsConfirmed separate_units false bytes.now j) }
    ensures refused { IfErr result (IsRefused separate_units bytes.now) }
{
    let units = parsed(alloc, bytes)?;
    let made = elaborated(alloc, &units.units)?;
    // Its memory serves the linker and the checker.
    drop(units);
    // Each stands under the interfaces of those before it, so none is foreign.
    let module = join(alloc, made)?;
    let sig = module.sig.share()?;
    let whole = packed(alloc, module)?;
    Ok(confirm(alloc, &sig, whole)?)
}

/// Answers `link` for all the bytes of a source, of which there are at most 1,048,576, and which are read as separate
/// units: elaborates each unit under the names and signatures of those before it, links them, and writes the Omega text
/// of the encoded signature and the whole term, with status `Ok`, or the line of the first refusal, with `Refused`. These
/// are what `emit` writes of the program that binds the name of each unit to its body, sealed by its signature.
/// `WriteFault` comes in place of either where a write failed, and then a prefix of that text was written; `NoMemory` is
/// want of memory, and then nothing was written. Where the text, whole or a prefix of it, is that of units that mean
/// something, `confirmed` becomes what the checker made of that type and term; on a refusal and with `NoMemory` it stands
/// as it was.
pub fn link<K: Sink>(
    alloc: Global,
    bytes: &[u8],
    sink: &mut K,
    confirmed: &mut Option<Checked>,
) -> Status
    requires { length bytes.now ≤ limit }
    ensures { AnswersBytes command.Link bytes.now
        (output (change (K.told sink.old) (K.told sink.new)) (change confirmed.old confirmed.new)) result }
{
    put_emission(alloc, linked(alloc, bytes), sink, confirmed)
}
