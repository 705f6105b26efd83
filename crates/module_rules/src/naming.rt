// A name as a module.
ghost use Rattle.std.specs.Prelude.{◌≡◌, [], IfErr, IfOk, IfSome};
ghost use Rattle.omega_kinds.specs.declared.effect.Effect.TheVariants.{Pure};
ghost use Rattle.sig_definitions.specs.Signatures.Sig.{Abs as AbsTree, made};
ghost use Rattle.semantic_sigs.specs.Inner.Made.{module_of};
ghost use Rattle.module_judgments.specs.ModRules.{NamedGives, NamedRefuses};
ghost use Rattle.module_rules.specs.Inner.Plain.{plain_why};

use crate::refusal::ModRefusal;
use omega_kinds::{Effect, Kinds, Mem, Name};
use omega_terms::Term;
use semantic_sigs::{Abs, Env, Module, Sig, Witnesses};
use std::alloc::Global;

// A pure module that hides nothing. `Err` is out of memory.
pub(crate) fn open_module(alloc: Global, sig: Sig, term: Term) -> Result<Module, Mem>
    ensures { IfOk result (λ m. module_of m ≡ made Pure (AbsTree.Ex [] sig) [] term) }
{
    let sig = Abs::make(alloc, Kinds::new(alloc), sig)?;
    let types = Witnesses::new(alloc);
    Ok(Module {
        effect: Effect::Pure,
        sig,
        types,
        term,
    })
}

/// `X`: what the environment has for the name. `Unbound` comes exactly where it has nothing.
///
/// Rossberg, Russo and Dreyer, "F-ing modules", section 4, as for all calls of this crate.
pub fn named(alloc: Global, env: &Env, name: &Name) -> Result<Module, ModRefusal>
    ensures given { IfOk result (λ m. NamedGives env.now name.now (module_of m)) }
    ensures refused { IfErr result (λ e. IfSome (plain_why e) (λ why. NamedRefuses env.now name.now why)) }
{
    let Some(found) = env.find(alloc, name)? else {
        return Err(ModRefusal::Unbound(name.share()?));
    };
    Ok(open_module(alloc, found.0, found.1)?)
}
