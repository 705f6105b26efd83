// The coercions of small signatures, each with its text by hand from its rule. They are closed.
use crate::literals::closed;
use crate::term_texts::has_text;
use coercion_terms::{
    Functors, abs_part, fields_part, functor_part, match_part, meta_part, same_part,
};
use omega_kinds::{Effect, Kind, Kinds, Label, Mem, name_of};
use omega_terms::{Term, TermFields};
use omega_types::{Ty, TyNode};
use std::alloc::Global;
use std::test::Fail;
use type_normal::{NormalTy, as_normal};

fn int(alloc: Global) -> Result<Ty, Mem> {
    Ty::make(alloc, TyNode::Int)
}

fn types(alloc: Global) -> Result<[NormalTy; 1], Mem> {
    Ok([as_normal(int(alloc)?)])
}

// one field x with the coercion
fn fields(alloc: Global, inner: &Term) -> Result<TermFields, Mem> {
    let mut fields = TermFields::new(alloc);
    let label = Label::Name(name_of(alloc, b"x")?);
    fields.push((label, inner.share()?))?;
    Ok(fields)
}

fn one_star(alloc: Global) -> Result<Kinds, Mem> {
    let mut kinds = Kinds::new(alloc);
    kinds.push(Kind::Star)?;
    Ok(kinds)
}

fn functor(alloc: Global, int: &Ty, inner: &Term) -> Result<Term, Mem> {
    let types = types(alloc)?;
    let kinds = one_star(alloc)?;
    let sides = Functors {
        from: int,
        left: Effect::Pure,
        right: Effect::Impure,
        kinds: &kinds,
        param: int,
    };
    functor_part(alloc, &sides, &types, inner, inner)
}

fn matched(alloc: Global, int: &Ty, inner: &Term, to: &Ty) -> Result<Term, Mem> {
    match_part(alloc, int, &types(alloc)?, inner, to)
}

fn opened(alloc: Global, int: &Ty, inner: &Term, to: &Ty) -> Result<Term, Mem> {
    abs_part(alloc, int, 2, &types(alloc)?, inner, to)
}

// The rules of coercions.
#[derive(Clone, Copy)]
enum Rule {
    Same,
    Meta,
    Fields,
    Functor,
    Match,
    Abs,
}

// The coercion by the rule at int, its parts being coerced by the inner term.
fn coercion(alloc: Global, rule: Rule, int: &Ty, inner: &Term) -> Result<Term, Fail> {
    match rule {
        Rule::Same => Ok(same_part(alloc, int)?),
        Rule::Meta => Ok(meta_part(alloc, int, int)?),
        Rule::Fields => Ok(fields_part(alloc, int, fields(alloc, inner)?)?),
        Rule::Functor => Ok(functor(alloc, int, inner)?),
        Rule::Match => Ok(matched(alloc, int, inner, &closed(alloc, "(some * a0)")?)?),
        Rule::Abs => Ok(opened(alloc, int, inner, &closed(alloc, "(some * a0)")?)?),
    }
}

const COERCIONS: [(Rule, &str); 6] = [
    (Rule::Same, "(fn int x0)"),
    (Rule::Meta, "(fn int (rec (.sig (fn int x1))))"),
    (
        Rule::Fields,
        "(fn int (rec (x (call (fn int x1) (get x0 x)))))",
    ),
    (
        Rule::Functor,
        "(fn int (tfn * (fn int (rec (.gen (call (fn int x2) (get (call (inst x0 int) (call (fn int x2) x1)) .app)))))))",
    ),
    (
        Rule::Match,
        "(fn int (pack int (call (fn int x1) x0) (some * a0)))",
    ),
    (
        Rule::Abs,
        "(fn int (open x0 (open x1 (pack int (call (fn int x3) x2) (some * a2)))))",
    ),
];

#[test]
fn coercions(rt: HostRuntime) -> Result<(), Fail> {
    let int = int(rt.alloc())?;
    let inner = same_part(rt.alloc(), &int)?;
    for (rule, text) in COERCIONS {
        let term = coercion(rt.alloc(), rule, &int, &inner)?;
        assert!(rt; has_text(rt.alloc(), &term, text)?, "at {text}");
    }
    Ok(())
}
