// Units that are elaborated apart by the calls, and linked.
ghost use Rattle.std.specs.Prelude.{◌≡◌, [], ◌∷◌, IfOk};
ghost use Rattle.sig_laws.specs.Good.{OkEnv};
ghost use Rattle.unit_judgments.specs.Interfaces.{env_of as env_in};
ghost use Rattle.unit_judgments.specs.Link.{OkUnit, interface_of};
ghost use Rattle.fing_units.specs.Inner.Units.{unit_of};

use fing_elab::elab_unit;
use fing_lexer::tokens;
use fing_parser::units;
use fing_syntax::{UnitTree, Units};
use fing_units::{Interfaces, LinkRefusal, UnitModule, env_of, link};
use omega_kinds::Mem;
use std::alloc::Global;
use std::test::Fail;

const A: &str = "module A : sig type t val x : t end = struct type t = Int val x = 5 end";

const B: &str = "module B : sig val y : A.t end = struct val y = A.x end";

// A with another signature, A under another name, A with another body.
const A_SEEN: &str = "module A : sig type t val x : Int end = struct type t = Int val x = 5 end";

const A_RENAMED: &str = "module C : sig type t val x : t end = struct type t = Int val x = 5 end";

const A_ANEW: &str = "module A : sig type t val x : t end = struct type t = Bool val x = true end";

// The units of a text.
fn parsed(alloc: Global, text: &str) -> Result<Units, Fail> {
    let bytes = text.as_bytes();
    if bytes.len() > 1048576 {
        return Err(Fail::new("too many bytes"));
    }
    let tokens = tokens(alloc, bytes)?;
    if tokens.len() > 1048576 {
        return Err(Fail::new("too many tokens"));
    }
    Ok(units(alloc, &tokens)?)
}

// A unit elaborated under interfaces, apart from all others.
fn apart(alloc: Global, under: Interfaces, unit: &UnitTree) -> Result<UnitModule, Fail>
    requires { OkEnv (env_in under) }
    ensures good { IfOk result (λ m. OkUnit (unit_of m)) }
    ensures stands { IfOk result (λ m. m.under ≡ under) }
{
    let env = env_of(alloc, &under)?;
    let module = match elab_unit(alloc, env, unit) {
        Ok(module) => module,
        Err(_) => return Err(Fail::new("refused")),
    };
    let name = unit.name.share()?;
    Ok(UnitModule {
        under,
        name,
        module,
    })
}

// What a unit that stands under no interfaces shows to the next one.
fn shown_by(alloc: Global, unit: &UnitModule) -> Result<Interfaces, Mem>
    ensures { IfOk result (λ i. i ≡ interface_of (unit_of unit.now) ∷ []) }
{
    let mut under = Interfaces::new(alloc);
    under.push((unit.name.share()?, unit.module.sig.share()?))?;
    Ok(under)
}

// The first unit of a text, under no interfaces.
fn first_of(alloc: Global, text: &str) -> Result<UnitModule, Fail>
    ensures good { IfOk result (λ m. OkUnit (unit_of m)) }
    ensures stands { IfOk result (λ m. m.under ≡ []) }
{
    let list = parsed(alloc, text)?;
    let unit = list.units.first().ok_or("no unit")?;
    apart(alloc, Interfaces::new(alloc), unit)
}

// B elaborated under A.
fn under_a(alloc: Global) -> Result<UnitModule, Fail>
    ensures { IfOk result (λ m. OkUnit (unit_of m)) }
{
    let a = first_of(alloc, A)?;
    let list = parsed(alloc, B)?;
    let unit = list.units.first().ok_or("no unit")?;
    let under = shown_by(alloc, &a)?;
    apart(alloc, under, unit)
}

// What becomes of B, which was elaborated under A, behind the first unit of a text: whether they link, and else the index
// of the one that is foreign.
fn linked_behind(alloc: Global, text: &str) -> Result<Option<u32>, Fail> {
    let first = first_of(alloc, text)?;
    let second = under_a(alloc)?;
    let mut list = Vec::new(alloc);
    list.push(first)?;
    list.push(second)?;
    match link(alloc, list) {
        Ok(_) => Ok(None),
        Err(LinkRefusal::Foreign { index }) => Ok(Some(index)),
        Err(LinkRefusal::Mem) => Err(Fail::new("out of memory")),
    }
}

#[test]
fn a_unit_links_behind_the_units_under_which_it_stands(rt: HostRuntime) -> Result<(), Fail> {
    assert!(rt; linked_behind(rt.alloc(), A)? == None);
    assert!(rt; linked_behind(rt.alloc(), A_ANEW)? == None);
    Ok(())
}

#[test]
fn a_unit_is_foreign_behind_others(rt: HostRuntime) -> Result<(), Fail> {
    assert!(rt; linked_behind(rt.alloc(), A_SEEN)? == Some(1));
    assert!(rt; linked_behind(rt.alloc(), A_RENAMED)? == Some(1));
    Ok(())
}

#[test]
fn a_unit_without_those_under_which_it_stands_is_foreign(rt: HostRuntime) -> Result<(), Fail> {
    let mut list = Vec::new(rt.alloc());
    list.push(under_a(rt.alloc())?)?;
    let answer = link(rt.alloc(), list);
    assert!(rt; matches!(answer, Err(LinkRefusal::Foreign { index: 0 })));
    Ok(())
}
