// The environments of interfaces.
ghost use Rattle.std.specs.Prelude.{◌≡◌, IfOk, OnOk};
ghost use Rattle.sig_definitions.specs.Env.{type_vars as type_vars_after};
ghost use Rattle.unit_judgments.specs.Interfaces.{env_of as env_in, with_interface};

use crate::interfaces::Interfaces;
use omega_kinds::{Kinds, Mem, Name};
use semantic_sigs::{Abs, Entry, Env};
use std::alloc::Global;

/// The environment in which a unit under these interfaces is elaborated: for each in order a type variable for each type
/// that its signature hides, and then its name with the rest of the signature. Where each signature is well formed and of
/// normal types under the interfaces before it, the environment is good. `Err` is out of memory.
///
/// Rossberg, Russo and Dreyer, "F-ing modules", section 4, Elaboration, Bindings.
pub fn env_of(alloc: Global, under: &Interfaces) -> Result<Env, Mem>
    ensures { IfOk result (λ g. g ≡ env_in under.now) }
{
    let mut env = Env::new(alloc);
    for item in under.items() {
        push_interface(&mut env, &item.0, &item.1)?;
    }
    Ok(env)
}

/// One more interface at the end of an environment: the types that its signature hides, and then its name. `Err` is out of
/// memory, and the environment may have some of them.
pub fn push_interface(env: &mut Env, name: &Name, sig: &Abs) -> Result<(), Mem>
    ensures { OnOk result (env.new ≡ with_interface env.old name.now sig.now) }
{
    push_type_vars(env, sig.kinds())?;
    env.push(Entry::Named(name.share()?, sig.body().share()?))?;
    Ok(())
}

// Type variables of these kinds, the first one the outermost.
fn push_type_vars(env: &mut Env, kinds: &Kinds) -> Result<(), Mem>
    ensures { OnOk result (env.new ≡ type_vars_after env.old kinds.now) }
{
    for kind in kinds.items() {
        env.push(Entry::TypeVar(kind.share()?))?;
    }
    Ok(())
}
