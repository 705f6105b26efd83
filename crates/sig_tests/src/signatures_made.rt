// Worked signatures and environments. Signatures are compared by their encodings, which differ where they do.
use crate::literals::KindLit::Star;
use crate::literals::SigLit::{Fun, Str, Typ, Val};
use crate::literals::TyLit::{Closed, Var};
use crate::literals::{Ex, SigLit, TyLit, abs, closed, sig, ty};
use crate::term_texts::has_text;
use omega_kinds::Effect::Pure;
use omega_kinds::{Kind, Mem, Name, name_of};
use omega_terms::{Term, TermNode};
use semantic_sigs::{
    Abs, Entry, Env, Item, Path, Sig, Witnesses, encode, encode_sig, instantiate, lower_sig, part,
    raise_abs, raise_sig, sig_mentions, type_term,
};
use std::alloc::Global;
use std::test::Fail;
use type_normal::{as_normal, plain, same};

// {t : [= v : *]}, v being the variable of this index
const HOLDING_0: SigLit<'static> = Str(&[("t", Typ(Var(0)))]);

const HOLDING_1: SigLit<'static> = Str(&[("t", Typ(Var(1)))]);

const HOLDING_3: SigLit<'static> = Str(&[("t", Typ(Var(3)))]);

const HOLDING_INT: SigLit<'static> = Str(&[("t", Typ(Closed("int")))]);

const HIDING: Ex<'static> = Ex(&[Star], HOLDING_0);

// functors whose results mention the variable outside of index 0, and of index 1
const FUNCTOR_0: SigLit<'static> = Fun(
    Pure,
    &[Star],
    &HOLDING_0,
    &Ex(&[], Str(&[("t", Typ(Var(1)))])),
);

const FUNCTOR_1: SigLit<'static> = Fun(
    Pure,
    &[Star],
    &HOLDING_0,
    &Ex(&[], Str(&[("t", Typ(Var(2)))])),
);

fn is(found: &Sig, expected: &Sig) -> Result<bool, Mem> {
    let found = as_normal(encode_sig(found)?);
    Ok(same(&found, &as_normal(encode_sig(expected)?)))
}

// Whether the signature is that of the literal.
fn is_lit(alloc: Global, found: &Sig, literal: &SigLit<'_>) -> Result<bool, Fail> {
    let expected = sig(alloc, literal)?;
    Ok(is(found, &expected)?)
}

// Whether the type of the encoding is that of the text.
fn is_encoded(alloc: Global, found: &Abs, text: &str) -> Result<bool, Fail> {
    let expected = as_normal(closed(alloc, text)?);
    Ok(same(&as_normal(encode(alloc, found)?), &expected))
}

const ENCODED: &str = "(some * (rec (t (rec (.typ (all (> * *) (-> (@ a1 a0) (@ a1 a0))))))))";

// A signature that hides a type, and the same raised, which has no variable outside.
#[test]
fn a_type_is_hidden(rt: HostRuntime) -> Result<(), Fail> {
    let hiding = abs(rt.alloc(), &HIDING)?.share()?;
    assert!(rt; is_encoded(rt.alloc(), &hiding, ENCODED)?);
    let raised = raise_abs(rt.alloc(), &hiding, 1, 0)?;
    assert!(rt; is_encoded(rt.alloc(), &raised, ENCODED)?);
    Ok(())
}

fn int_alone(alloc: Global) -> Result<Witnesses, Fail> {
    let mut types = Witnesses::new(alloc);
    types.push(ty(alloc, &Closed("int"))?)?;
    Ok(types.share(alloc)?)
}

// What hides a type, at int.
fn instantiated(alloc: Global) -> Result<Sig, Fail> {
    let hiding = abs(alloc, &HIDING)?;
    let types = int_alone(alloc)?;
    Ok(instantiate(alloc, &hiding, types.items())?)
}

#[test]
fn a_type_is_put_in(rt: HostRuntime) -> Result<(), Fail> {
    let found = instantiated(rt.alloc())?;
    assert!(rt; is_lit(rt.alloc(), &found, &HOLDING_INT)?);
    Ok(())
}

// Signatures, and the same raised by so much from an index.
const RAISED: [(SigLit<'static>, u64, u64, SigLit<'static>); 2] = [
    (HOLDING_1, 2, 1, HOLDING_3),
    // below its own variable a functor is raised from one index later
    (FUNCTOR_0, 1, 0, FUNCTOR_1),
];

fn raised(alloc: Global, literal: &SigLit<'_>, by: u64, from: u64) -> Result<Sig, Fail> {
    let given = sig(alloc, literal)?.share()?;
    Ok(raise_sig(alloc, &given, by, from)?)
}

fn lowered(alloc: Global, literal: &SigLit<'_>, by: u64) -> Result<Sig, Fail> {
    let given = sig(alloc, literal)?;
    Ok(lower_sig(alloc, &given, by)?)
}

#[test]
fn signatures_are_raised_and_lowered(rt: HostRuntime) -> Result<(), Fail> {
    for (given, by, from, expected) in &RAISED {
        let found = raised(rt.alloc(), given, *by, *from)?;
        assert!(rt; is_lit(rt.alloc(), &found, expected)?, "by {by}");
    }
    let found = lowered(rt.alloc(), &HOLDING_3, 3)?;
    assert!(rt; is_lit(rt.alloc(), &found, &HOLDING_0)?);
    Ok(())
}

// Whether the signature mentions the variable of this index.
const MENTIONS: [(SigLit<'static>, u64, bool); 4] = [
    (HOLDING_3, 3, true),
    (HOLDING_3, 1, false),
    (FUNCTOR_1, 1, true),
    (FUNCTOR_1, 0, false),
];

#[test]
fn variables_are_mentioned(rt: HostRuntime) -> Result<(), Fail> {
    for (literal, index, is_there) in &MENTIONS {
        let found = sig(rt.alloc(), literal)?;
        assert_eq!(rt; sig_mentions(&found, *index), *is_there, "at {index}");
    }
    Ok(())
}

fn t(alloc: Global) -> Result<Name, Mem> {
    name_of(alloc, b"t")
}

// t is there, and t in it is not
#[test]
fn parts(rt: HostRuntime) -> Result<(), Fail> {
    let whole = sig(rt.alloc(), &HOLDING_INT)?;
    let once = [t(rt.alloc())?];
    let found = part(&whole, &once).ok_or("no t")?;
    assert!(rt; is_lit(rt.alloc(), found, &Typ(Closed("int")))?);
    let twice = [t(rt.alloc())?, t(rt.alloc())?];
    assert!(rt; part(&whole, &twice).is_none());
    Ok(())
}

#[test]
fn a_path_of_one_step(rt: HostRuntime) -> Result<(), Fail> {
    let mut path = Path::new(rt.alloc());
    path.push(Item::Part(t(rt.alloc())?).share()?)?;
    assert_eq!(rt; path.items().len(), 1);
    Ok(())
}

#[test]
fn the_term_of_a_type_part(rt: HostRuntime) -> Result<(), Fail> {
    let int = ty(rt.alloc(), &Closed("int"))?;
    let term = type_term(rt.alloc(), plain(&int), &Kind::Star)?;
    assert!(rt;
        has_text(
            rt.alloc(),
            &term,
            "(rec (.typ (tfn (> * *) (fn (@ a0 int) x0))))"
        )?
    );
    Ok(())
}

// An entry of an environment.
#[derive(Clone, Copy)]
enum EntryLit {
    TypeVar,
    TypeParam(&'static str),
    Named(&'static str, SigLit<'static>),
    Value(&'static str, TyLit<'static>),
}

// a type variable named t, a module m that has it, a value x of it, and one more type variable
const SCOPE: [EntryLit; 5] = [
    EntryLit::TypeVar,
    EntryLit::TypeParam("t"),
    EntryLit::Named("m", HOLDING_0),
    EntryLit::Value("x", Var(0)),
    EntryLit::TypeVar,
];

fn name(alloc: Global, text: &str) -> Result<Name, Mem> {
    name_of(alloc, text.as_bytes())
}

fn entry(alloc: Global, literal: &EntryLit) -> Result<Entry, Fail> {
    match literal {
        EntryLit::TypeVar => Ok(Entry::TypeVar(Kind::Star)),
        EntryLit::TypeParam(text) => Ok(Entry::TypeParam(name(alloc, text)?)),
        EntryLit::Named(text, literal) => {
            let sig = sig(alloc, literal)?;
            Ok(Entry::Named(name(alloc, text)?, sig))
        }
        EntryLit::Value(text, literal) => {
            let ty = ty(alloc, literal)?;
            Ok(Entry::Value(name(alloc, text)?, ty))
        }
    }
}

fn scope(alloc: Global) -> Result<Env, Fail> {
    let mut env = Env::new(alloc);
    for literal in &SCOPE {
        env.push(entry(alloc, literal)?)?;
    }
    Ok(env)
}

fn find(alloc: Global, env: &Env, text: &str) -> Result<Option<(Sig, Term)>, Mem> {
    let name = name(alloc, text)?;
    env.find(alloc, &name)
}

// Whether the name has the signature.
fn has(alloc: Global, env: &Env, text: &str, expected: &SigLit<'_>) -> Result<bool, Fail> {
    match find(alloc, env, text)? {
        Some((sig, _term)) => is_lit(alloc, &sig, expected),
        None => Ok(false),
    }
}

// Names of the scope with their signatures.
const NAMES: [(&str, SigLit<'static>); 3] = [
    ("t", Typ(Var(1))),
    ("m", HOLDING_1),
    ("x", Val(Var(1))),
];

#[test]
fn names_are_found(rt: HostRuntime) -> Result<(), Fail> {
    let env = scope(rt.alloc())?;
    assert_eq!(rt; env.kinds().len(), 2);
    for (text, expected) in &NAMES {
        assert!(rt; has(rt.alloc(), &env, text, expected)?, "at {text}");
    }
    assert!(rt; find(rt.alloc(), &env, "y")?.is_none());
    Ok(())
}

// The term of m is the variable before the innermost one.
#[test]
fn a_name_has_a_term(rt: HostRuntime) -> Result<(), Fail> {
    let env = scope(rt.alloc())?;
    let (_sig, term) = find(rt.alloc(), &env, "m")?.ok_or("no m")?;
    assert!(rt; matches!(term.node(), TermNode::Var(1)));
    Ok(())
}

// What stands at the place of m is not shifted past the type variable after it; t and x are no modules.
#[test]
fn a_module_at_its_place(rt: HostRuntime) -> Result<(), Fail> {
    let env = scope(rt.alloc())?;
    let m = name(rt.alloc(), "m")?;
    let found = env.standing(rt.alloc(), &m)?.ok_or("no m")?;
    assert_eq!(rt; found.types, 1);
    assert!(rt; matches!(found.term.node(), TermNode::Var(1)));
    assert!(rt; is_lit(rt.alloc(), found.sig, &HOLDING_0)?);
    for text in ["t", "x", "y"] {
        let other = name(rt.alloc(), text)?;
        assert!(rt; env.standing(rt.alloc(), &other)?.is_none(), "at {text}");
    }
    Ok(())
}

// Another m hides the first one until it is taken away.
#[test]
fn a_name_is_hidden(rt: HostRuntime) -> Result<(), Fail> {
    let mut env = scope(rt.alloc())?;
    env.push(entry(rt.alloc(), &EntryLit::Named("m", HOLDING_INT))?)?;
    assert!(rt; has(rt.alloc(), &env, "m", &HOLDING_INT)?);
    assert!(rt; env.pop().is_some());
    assert!(rt; has(rt.alloc(), &env, "m", &HOLDING_1)?);
    assert_eq!(rt; env.kinds().len(), 2);
    Ok(())
}
