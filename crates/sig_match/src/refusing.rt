// Refusals as they are made: at a place, and from inside a part.
ghost use Rattle.std.specs.Prelude.{◌≡◌, ◌∷◌, ◌++◌, [], IfOk, OnOk, Some, map};
ghost use Rattle.semantic_sigs.specs.Inner.Items.{item_of};
ghost use Rattle.sig_definitions.specs.Explicit.SigPath.{Part};
ghost use Rattle.sig_definitions.specs.Matching.MatchRefusal.{Clash as ClashOf, NoRoot as NoRootOf, Types as TypesOf};
ghost use Rattle.sig_match.specs.Inner.Refusals.{Gives, inside, plain_refusal, plain_why};

use crate::refusal::MatchRefusal;
use omega_kinds::{Mem, Name};
use semantic_sigs::{Item, Path, Why};
use std::alloc::Global;
use type_normal::NormalTy;

/// A clash at this very place, where so many type variables are in scope.
pub(crate) fn clash(alloc: Global, types: u64, why: Why) -> MatchRefusal
    ensures { plain_refusal result ≡ Some (ClashOf types [] (plain_why why)) }
{
    MatchRefusal::Clash {
        types,
        path: Path::new(alloc),
        why,
    }
}

/// A clash of two types at this very place.
pub(crate) fn differ(alloc: Global, types: u64, left: &NormalTy, right: &NormalTy) -> MatchRefusal
    ensures { Gives (Some (ClashOf types [] (TypesOf left.now right.now))) (plain_refusal result) }
{
    match why_differ(left, right) {
        Ok(why) => clash(alloc, types, why),
        Err(Mem) => MatchRefusal::Mem,
    }
}

// That two types differ.
fn why_differ(left: &NormalTy, right: &NormalTy) -> Result<Why, Mem>
    ensures { IfOk result (λ why. plain_why why ≡ TypesOf left.now right.now) }
{
    Ok(Why::Types(left.share()?, right.share()?))
}

/// That the hidden type of a number is not found along its root path.
pub(crate) fn no_root(alloc: Global, index: u64, path: &Path) -> MatchRefusal
    ensures { Gives (Some (NoRootOf index path.now)) (plain_refusal result) }
{
    match copied(alloc, path) {
        Ok(path) => MatchRefusal::NoRoot { index, path },
        Err(Mem) => MatchRefusal::Mem,
    }
}

/// A refusal from inside a part.
pub(crate) fn within(alloc: Global, item: Item, refusal: MatchRefusal) -> MatchRefusal
    ensures { Gives (inside (item_of item) (plain_refusal refusal)) (plain_refusal result) }
{
    match refusal {
        MatchRefusal::NoRoot { index, path } => match longer(alloc, item, &path) {
            Ok(path) => MatchRefusal::NoRoot { index, path },
            Err(Mem) => MatchRefusal::Mem,
        },
        MatchRefusal::Clash { types, path, why } => match longer(alloc, item, &path) {
            Ok(path) => MatchRefusal::Clash { types, path, why },
            Err(Mem) => MatchRefusal::Mem,
        },
        MatchRefusal::Mem => MatchRefusal::Mem,
    }
}

/// A refusal from inside a field.
pub(crate) fn within_part(alloc: Global, name: &Name, refusal: MatchRefusal) -> MatchRefusal
    ensures { Gives (inside (Part name.now) (plain_refusal refusal)) (plain_refusal result) }
{
    match name.share() {
        Ok(name) => within(alloc, Item::Part(name), refusal),
        Err(Mem) => MatchRefusal::Mem,
    }
}

// A path with a step before it.
fn longer(alloc: Global, item: Item, path: &Path) -> Result<Path, Mem>
    ensures { IfOk result (λ p. p ≡ item_of item ∷ path.now) }
{
    let mut whole = Path::new(alloc);
    whole.push(item)?;
    append(&mut whole, path.items())?;
    Ok(whole)
}

// The same path.
fn copied(alloc: Global, path: &Path) -> Result<Path, Mem>
    ensures { IfOk result (λ p. p ≡ path.now) }
{
    let mut copy = Path::new(alloc);
    append(&mut copy, path.items())?;
    Ok(copy)
}

// Further steps at the end of a path.
fn append(path: &mut Path, items: &[Item]) -> Result<(), Mem>
    ensures { OnOk result (path.new ≡ path.old ++ map item_of items.now) }
{
    for item in items {
        path.push(item.share()?)?;
    }
    Ok(())
}
