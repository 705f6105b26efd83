// A type that is found, one that is not, and a signature against itself.
ghost use Rattle.std.specs.Prelude.{◌≡◌, [], ◌∷◌, IfOk};
ghost use Rattle.omega_kinds.specs.Kind.{Star};
ghost use Rattle.sig_definitions.specs.Signatures.Sig.{Sig as SigTree, SigRow};
ghost use Rattle.sig_match_laws.specs.Examples.{name_t, with_int as with_int_of, with_nothing as with_nothing_of, hides_t as hides_t_of};

use omega_kinds::{Kind, Kinds, Mem, Name, name_of};
use omega_types::{Ty, TyNode};
use semantic_sigs::{Abs, Env, Item, Path, Sig, SigFields, SigNode, Witnesses};
use sig_match::{MatchRefusal, match_sig, sub_abs};
use std::alloc::Global;
use std::test::Fail;
use type_normal::{NormalTy, as_normal, plain};

fn t(alloc: Global) -> Result<Name, Mem>
    ensures { IfOk result (λ n. n ≡ name_t) }
{
    name_of(alloc, b"t")
}

// {t : [= ty : *]}
fn with_t(alloc: Global, ty: NormalTy) -> Result<Sig, Mem>
    ensures { IfOk result (λ s. s ≡ SigTree.Str (SigRow.More name_t (SigTree.Typ ty Star) SigRow.End)) }
{
    let part = Sig::make(alloc, SigNode::Typ(ty, Kind::Star))?;
    let mut fields = SigFields::new(alloc);
    fields.push((t(alloc)?, part))?;
    Sig::make(alloc, SigNode::Str(fields))
}

// {t : [= int : *]}
fn with_int(alloc: Global) -> Result<Sig, Mem>
    ensures { IfOk result (λ s. s ≡ with_int_of) }
{
    with_t(alloc, as_normal(Ty::make(alloc, TyNode::Int)?))
}

// {}
fn with_nothing(alloc: Global) -> Result<Sig, Mem>
    ensures { IfOk result (λ s. s ≡ with_nothing_of) }
{
    Sig::make(alloc, SigNode::Str(SigFields::new(alloc)))
}

fn one_star(alloc: Global) -> Result<Kinds, Mem>
    ensures { IfOk result (λ ks. ks ≡ Star ∷ []) }
{
    let mut kinds = Kinds::new(alloc);
    kinds.push(Kind::Star)?;
    Ok(kinds)
}

// ex (*) {t : [= a0 : *]}
fn hides_t(alloc: Global) -> Result<Abs, Mem>
    ensures { IfOk result (λ x. x ≡ hides_t_of) }
{
    let body = with_t(alloc, as_normal(Ty::make(alloc, TyNode::Var(0))?))?;
    Abs::make(alloc, one_star(alloc)?, body)
}

fn is_int(types: &Witnesses) -> bool {
    match types.items() {
        [only] => matches!(plain(only).node(), TyNode::Int),
        _ => false,
    }
}

fn is_t(path: &Path) -> bool {
    match path.items() {
        [Item::Part(name)] => name.bytes() == b"t".as_slice(),
        _ => false,
    }
}

fn found(alloc: Global) -> Result<bool, Mem> {
    let env = Env::new(alloc);
    let left = with_int(alloc)?;
    let right = hides_t(alloc)?;
    match match_sig(alloc, &env, &left, &right) {
        Ok(found) => Ok(is_int(&found.types)),
        Err(_) => Ok(false),
    }
}

fn not_found(alloc: Global) -> Result<bool, Mem> {
    let env = Env::new(alloc);
    let left = with_nothing(alloc)?;
    let right = hides_t(alloc)?;
    match match_sig(alloc, &env, &left, &right) {
        Err(MatchRefusal::NoRoot { index, path }) => Ok(index == 0 && is_t(&path)),
        _ => Ok(false),
    }
}

fn against_itself(alloc: Global) -> Result<bool, Mem> {
    let env = Env::new(alloc);
    let left = hides_t(alloc)?;
    let right = hides_t(alloc)?;
    Ok(sub_abs(alloc, &env, &left, &right).is_ok())
}

#[test]
fn matches(rt: HostRuntime) -> Result<(), Fail> {
    assert!(rt; found(rt.alloc())?);
    assert!(rt; not_found(rt.alloc())?);
    assert!(rt; against_itself(rt.alloc())?);
    Ok(())
}
