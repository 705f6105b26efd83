// Pure bindings in a row as one module: each term is gone through once, with the types of all bindings before it.
ghost use Rattle.std.specs.Prelude.{◌≡◌, ◌++◌, map, List, IfOk, OnOk};
ghost use Rattle.omega_kinds.specs.Kind.{Kind as KindTree};
ghost use Rattle.omega_kinds.specs.declared.effect.Effect.TheVariants.{Pure};
ghost use Rattle.sig_definitions.specs.Signatures.Sig.{Module as ModuleTree};
ghost use Rattle.sig_laws.specs.Good.{OkModule};
ghost use Rattle.semantic_sigs.specs.Inner.Changes.{putting, ty_in};
ghost use Rattle.semantic_sigs.specs.Inner.Made.{module_of};
ghost use Rattle.module_rests.specs.Inner.Folded.{Folded};
ghost use Rattle.module_rests.specs.Inner.Gathering.{PutsAll, PutsOwn, effect_of, hidden};

use omega_kinds::{Effect, Kinds, Mem};
use omega_shorthands::let_in;
use omega_terms::Term;
use semantic_sigs::{Abs, Module, Witnesses, encode_sig, instantiate, put_types};
use sig_instances::instance;
use std::alloc::Global;

// Pure modules, each bound under those before it, and a pure module under all of them, as one module. `Err` is out of
// memory, as for all calls of this file.
pub(crate) fn sequence(alloc: Global, steps: &[Module], last: &Module) -> Result<Module, Mem>
    ensures { IfOk result (λ w. (ctx : List KindTree) (m : ModuleTree) → effect_of m ≡ Pure → OkModule ctx m → Folded ctx (map module_of steps.now) (module_of last.now) m → module_of w ≡ m) }
{
    let mut types = Witnesses::new(alloc);
    let term = put_all(alloc, steps, last, &mut types)?;
    let mut kinds = Kinds::new(alloc);
    hide_all(steps, last, &mut kinds)?;
    let body = last.sig.body().share()?;
    let sig = Abs::make(alloc, kinds, body)?;
    Ok(Module {
        effect: Effect::Pure,
        sig,
        types,
        term,
    })
}

// The term of the bindings and the last module with the types of the bindings before them put in; the types that they keep
// are put behind these.
fn put_all(
    alloc: Global,
    steps: &[Module],
    last: &Module,
    types: &mut Witnesses,
) -> Result<Term, Mem>
    ensures { IfOk result (λ e. PutsAll (map module_of steps.now) (module_of last.now) types.old types.new e) }
{
    let Some((first, rest)) = steps.split_first() else {
        return put_own(alloc, last, types);
    };
    let term = put_own(alloc, first, types)?;
    let at = instantiate(alloc, &first.sig, types.items())?;
    let from = encode_sig(&at)?;
    let inner = put_all(alloc, rest, last, types)?;
    let_in(alloc, &from, term, inner)
}

// The term of one module with the types before it put in; its own are put behind these.
fn put_own(alloc: Global, one: &Module, types: &mut Witnesses) -> Result<Term, Mem>
    ensures { IfOk result (λ e. PutsOwn one.now.sig one.now.types one.now.term types.old types.new e) }
{
    let term = instance(alloc, &one.term, types.items())?;
    let own = put_list(alloc, &one.types, types)?;
    append(types, &own)?;
    Ok(term)
}

// Types with those before them put in.
fn put_list(alloc: Global, list: &Witnesses, before: &Witnesses) -> Result<Witnesses, Mem>
    ensures { IfOk result (λ ts. ts ≡ map (ty_in (putting before.now)) list.now) }
{
    let mut types = Witnesses::new(alloc);
    for ty in list.items() {
        let put = put_types(alloc, ty, before.items(), 0)?;
        types.push(put)?;
    }
    Ok(types)
}

// Types behind others.
fn append(types: &mut Witnesses, more: &Witnesses) -> Result<(), Mem>
    ensures { OnOk result (types.new ≡ types.old ++ more.now) }
{
    for ty in more.items() {
        let shared = ty.share()?;
        types.push(shared)?;
    }
    Ok(())
}

// What all of them hide, behind other kinds.
fn hide_all(steps: &[Module], last: &Module, kinds: &mut Kinds) -> Result<(), Mem>
    ensures { OnOk result (kinds.new ≡ kinds.old ++ hidden (map module_of steps.now) (module_of last.now)) }
{
    let Some((first, rest)) = steps.split_first() else {
        return hide(last.sig.kinds(), kinds);
    };
    hide(first.sig.kinds(), kinds)?;
    hide_all(rest, last, kinds)
}

// Kinds behind others.
fn hide(more: &Kinds, kinds: &mut Kinds) -> Result<(), Mem>
    ensures { OnOk result (kinds.new ≡ kinds.old ++ more.now) }
{
    for kind in more.items() {
        let shared = kind.share()?;
        kinds.push(shared)?;
    }
    Ok(())
}
