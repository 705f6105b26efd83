// Sides of a look-up, cut down to what its path meets: types that are put in then go into few fields.
ghost use Rattle.std.specs.Prelude.{◌≡◌, ◌∷◌, [], IfOk, IsTrue, map};
ghost use Rattle.omega_kinds.specs.declared.effect.Effect.TheVariants.{Pure};
ghost use Rattle.semantic_sigs.specs.Inner.Items.{item_of};
ghost use Rattle.semantic_sigs.specs.Inner.View.{kinds_of};
ghost use Rattle.sig_cut_laws.specs.Cut.{CutTo};
ghost use Rattle.sig_definitions.specs.Explicit.SigPath.{Part, Res};

use omega_kinds::{Effect, Kinds, Mem, Name};
use semantic_sigs::{Abs, Functor, Item, Sig, SigFields, SigNode, field};
use std::alloc::Global;

// What a path meets of a signature: of a structure on the path the one field that the path names, and of a pure functor
// its parameter, whole, with what the rest of the path meets of its result.
#[cycle(cutting)]
fn cut(alloc: Global, sig: &Sig, path: &[Item]) -> Result<Sig, Mem>
    ensures { IfOk result (λ c. CutTo (map item_of path.now) sig.now c) }
{
    match path {
        [] => sig.share(),
        [first, rest @ ..] => cut_step(alloc, sig, first, rest),
    }
}

// The same along a path with a first step.
#[cycle(cutting)]
fn cut_step(alloc: Global, sig: &Sig, first: &Item, rest: &[Item]) -> Result<Sig, Mem>
    ensures { IfOk result (λ c. CutTo (item_of first.now ∷ map item_of rest.now) sig.now c) }
{
    match first {
        Item::Part(name) => cut_part(alloc, sig, name, rest),
        Item::Res => cut_result(alloc, sig, rest),
        Item::Arg => sig.share(),
        Item::Meta => sig.share(),
    }
}

// The same along a path into a field.
#[cycle(cutting)]
fn cut_part(alloc: Global, sig: &Sig, name: &Name, rest: &[Item]) -> Result<Sig, Mem>
    ensures { IfOk result (λ c. CutTo (Part name.now ∷ map item_of rest.now) sig.now c) }
{
    let Some(part) = field(sig, name) else {
        return sig.share();
    };
    let part = cut(alloc, part, rest)?;
    let mut fields = SigFields::with_capacity(alloc, 1)?;
    fields.push((name.share()?, part))?;
    Sig::make(alloc, SigNode::Str(fields))
}

/// What a path into the result of a functor meets of a signature. `Err` is out of memory.
#[cycle(cutting)]
pub(crate) fn cut_result(alloc: Global, sig: &Sig, rest: &[Item]) -> Result<Sig, Mem>
    ensures { IfOk result (λ c. CutTo (Res ∷ map item_of rest.now) sig.now c) }
{
    let Some(functor) = sig.as_functor() else {
        return sig.share();
    };
    if !hides_nothing(&functor) {
        return sig.share();
    }
    let body = cut(alloc, functor.target.body(), rest)?;
    let result = Abs::make(alloc, Kinds::new(alloc), body)?;
    let whole = SigNode::Fun {
        effect: functor.effect,
        kinds: functor.kinds.share(alloc)?,
        param: functor.param.share()?,
        result,
    };
    Sig::make(alloc, whole)
}

// Whether a functor is pure and its result hides no types; each well formed pure one is so.
fn hides_nothing(functor: &Functor<'_>) -> bool
    ensures { IsTrue result → ((functor.now.effect ≡ Pure) × (kinds_of functor.now.target.now ≡ [])) }
{
    matches!(functor.effect, Effect::Pure) && functor.target.kinds().items().is_empty()
}
