// Separate units.
ghost use Rattle.std.specs.Prelude.{◌≡◌, ◌∷◌, [], List, IfErr, IfOk, IfSome, None, OnOk};
ghost use Rattle.omega_kinds.specs.Kind.{Kind as KindTree};
ghost use Rattle.omega_kinds.specs.Name.{Name as NameTree};
ghost use Rattle.omega_kinds.specs.declared.effect.Effect.TheVariants.{Pure};
ghost use Rattle.omega_terms.specs.Term.{Fields, TermRow};
ghost use Rattle.sig_definitions.specs.Env.{Env as EnvTree};
ghost use Rattle.sig_definitions.specs.Signatures.Sig.{Abs as AbsTree, Module as ModuleTree, SigRow, Str, made};
ghost use Rattle.sig_laws.specs.Good.{Names as GoodNames, OkEnv};
ghost use Rattle.semantic_sigs.specs.Inner.Made.{module_of};
ghost use Rattle.module_judgments.specs.ModRules.{ProjectRefuses};
ghost use Rattle.module_judgments.specs.Projection.{Projected};
ghost use Rattle.module_judgments.specs.Sequence.{Collected};
ghost use Rattle.module_rules.specs.Inner.Plain.{plain_why};
ghost use Rattle.fing_syntax.specs.Inner.Leaves.{place};
ghost use Rattle.fing_syntax.specs.Phrase.{ModAt, ModSeal, Spelled};
ghost use Rattle.elab_judgments.specs.Judgments.Meaning.{ModMeans};
ghost use Rattle.elab_judgments.specs.Refusals.Task.{a_mod};
ghost use Rattle.fing_refusals.specs.Inner.Plain.{Says, want_of_memory};
ghost use Rattle.elab_rules.specs.Inner.Answered.{RefusedAs};
ghost use Rattle.unit_judgments.specs.Interfaces.{with_interface};
ghost use Rattle.unit_laws.specs.Inner.Sealing.{Joins};
ghost use Rattle.unit_laws.specs.Units.{sealed, sealing_name, unit_result, unit_sealing};
ghost use Rattle.fing_elab.specs.Inner.Units.{MeansUnit, UnitIsRefused};

use elab_phrases::{leave, module_in, sealed_in};
use fing_refusals::Refusal;
use fing_syntax::{Mod, SigEx, SpanName, UnitTree};
use fing_text::Span;
use fing_units::push_interface;
use module_rules::{ModRefusal, end_struct, project, seq_bind};
use omega_kinds::{Mem, Name, Names, name_of};
use semantic_sigs::{Abs, Env, Module};
use std::alloc::Global;

/// What a separate unit means in a good environment, as that of the interfaces of units that were elaborated before it: the
/// module of its body sealed by its signature, as the derived form of `body :> sig` has it, whose made phrases stand at the
/// place of the whole unit. Its signature is the written one, before whose quantifiers stand those of the types that the
/// body itself hides. Free variables are those of the environment. `Err` is the refusal of the first condition that fails,
/// those of the body before those of the signature, or want of memory, which is as for programs.
///
/// Rossberg, Russo and Dreyer, "F-ing modules", section 2 (derived forms) and section 4, Elaboration, Modules; separate
/// units are this project's own.
pub fn elab_unit(alloc: Global, env: Env, unit: &UnitTree) -> Result<Module, Refusal>
    requires { OkEnv env }
    ensures means { IfOk result (λ m. MeansUnit env unit.now (module_of m)) }
    ensures refused { IfErr result (λ e. Says e (UnitIsRefused env unit.now)) }
{
    let mut own = env;
    unit_in(alloc, &mut own, unit)
}

/// The same in an environment that is borrowed. It is as it was where there is an answer; after a refusal it is as far as
/// elaboration went. So units one after the other need no environment each.
///
/// Rossberg, Russo and Dreyer, "F-ing modules", section 2 (derived forms) and section 4, Elaboration, Modules; separate
/// units are this project's own.
pub fn unit_in(alloc: Global, env: &mut Env, unit: &UnitTree) -> Result<Module, Refusal>
    requires { OkEnv env.old }
    ensures means { IfOk result (λ m. MeansUnit env.old unit.now (module_of m)) }
    ensures refused { IfErr result (λ e. Says e (UnitIsRefused env.old unit.now)) }
    ensures same { OnOk result (env.new ≡ env.old) }
{
    sealed_body(alloc, env, unit.span, &unit.body, &unit.sig)
}

// A body sealed by a signature, as the derived form has it, whose made phrases stand at a place: both are bound to hidden
// names in a structure, and the second one is its part that is taken.
fn sealed_body(
    alloc: Global,
    env: &mut Env,
    at: Span,
    body: &Mod,
    by: &SigEx,
) -> Result<Module, Refusal>
    requires { OkEnv env.old }
    ensures given { IfOk result (λ m. ModMeans env.old (sealed (place at) body.now by.now) (module_of m)) }
    ensures refused { IfErr result (λ e. RefusedAs env.old (a_mod (sealed (place at) body.now by.now)) e) }
    ensures same { OnOk result (env.new ≡ env.old) }
{
    let found = module_in(alloc, env, body)?;
    let sealing = name_of(alloc, b"%1")?;
    push_interface(env, &sealing, &found.sig)?;
    let made = sealed_name(alloc, env, at, &sealing, by)?;
    let target = name_of(alloc, b"%0")?;
    push_interface(env, &target, &made.sig)?;
    let end = end_of(alloc, env, target.share()?, sealing)?;
    leave_interface(env, &made.sig);
    leave_interface(env, &found.sig);
    match part_of(alloc, found, made, end, &target) {
        Ok(part) => Ok(part),
        Err(refusal) => Err(want(refusal)),
    }
}

// Takes the entries of an interface of this signature away from the end of an environment.
fn leave_interface(env: &mut Env, sig: &Abs)
    ensures { (g : EnvTree) (x : NameTree) → env.old ≡ with_interface g x sig.now → env.new ≡ g }
{
    leave(env, sig.kinds().items().len() + 1);
}

// What a refusal of modules is that has no reason of its own: want of memory.
fn want(refusal: ModRefusal) -> Refusal
    requires { plain_why refusal ≡ None }
    ensures { result ≡ want_of_memory }
{
    match refusal {
        ModRefusal::Mem => Refusal::from(Mem),
        _ => unreachable!(),
    }
}

// `X :> S`, where all of it but S stands at one place.
fn sealed_name(
    alloc: Global,
    env: &mut Env,
    at: Span,
    name: &Name,
    by: &SigEx,
) -> Result<Module, Refusal>
    requires { OkEnv env.old }
    ensures given { IfOk result (λ m. ModMeans env.old (ModAt (place at) (ModSeal (Spelled name.now (place at)) by.now)) (module_of m)) }
    ensures refused { IfErr result (λ e. RefusedAs env.old (a_mod (ModAt (place at) (ModSeal (Spelled name.now (place at)) by.now))) e) }
    ensures same { OnOk result (env.new ≡ env.old) }
{
    let name = name.share()?;
    sealed_in(alloc, env, &SpanName { name, span: at }, by)
}

// The end of a structure of two names.
fn end_of(alloc: Global, env: &Env, first: Name, second: Name) -> Result<Module, Mem>
    requires { GoodNames env.now (first ∷ second ∷ []) }
    ensures { IfOk result (λ m. (fs : SigRow) × (es : TermRow) × Collected env.now (first ∷ second ∷ []) fs es × (module_of m ≡ made Pure (AbsTree.Ex [] (Str fs)) [] (Fields es))) }
{
    let mut names = Names::new(alloc);
    names.push(first)?;
    names.push(second)?;
    end_struct(alloc, env, &names)
}

// The part of a structure of two bindings and their end.
fn part_of(
    alloc: Global,
    first: Module,
    second: Module,
    end: Module,
    name: &Name,
) -> Result<Module, ModRefusal>
    ensures given { IfOk result (λ m. (ctx : List KindTree) → Joins ctx (module_of first) (module_of second) (module_of end) (λ whole. Projected ctx whole name.now (module_of m))) }
    ensures refused { IfErr result (λ e. IfSome (plain_why e) (λ why. (ctx : List KindTree) → Joins ctx (module_of first) (module_of second) (module_of end) (λ whole. ProjectRefuses whole name.now why))) }
{
    let rest = seq_bind(alloc, second, end)?;
    let whole = seq_bind(alloc, first, rest)?;
    project(alloc, whole, name)
}
