// Signatures, types and reasons of refusals as literals, and what is made of them.
ghost use Rattle.std.specs.Prelude.{IsTrue};
ghost use Rattle.semantic_sigs.specs.Inner.Fields.{MayFollow};

use fing_refusals::ElabWhy;
use omega_kinds::{Effect, Kind, Kinds, Mem, Name, arrow, name_of};
use omega_read::read;
use omega_types::{Ty, TyNode};
use semantic_sigs::{Abs, Item, Path, Sig, SigFields, SigNode, Why};
use std::alloc::Global;
use std::test::Fail;
use type_normal::{NormalTy, as_normal};

/// A kind: that of types, `(> * *)`, or `(> * (> * *))`.
#[derive(Clone, Copy)]
pub enum KindLit {
    Star,
    Op,
    Two,
}

/// A type: a variable by its index, an operator at an argument, `(lam * ..)`, or the closed type of an Omega text.
#[derive(Clone, Copy)]
pub enum TyLit<'a> {
    Var(u64),
    Apply(&'a TyLit<'a>, &'a TyLit<'a>),
    Lam(&'a TyLit<'a>),
    Closed(&'a str),
}

/// A signature. The types of type parts are of kind `*`, but for those of `Op` and `Two`, which are of the kinds so called.
#[cycle(literal)]
#[derive(Clone, Copy)]
pub enum SigLit<'a> {
    Val(TyLit<'a>),
    Typ(TyLit<'a>),
    Op(TyLit<'a>),
    Two(TyLit<'a>),
    Meta(&'a Ex<'a>),
    Str(&'a [(&'a str, SigLit<'a>)]),
    Fun(Effect, &'a [KindLit], &'a SigLit<'a>, &'a Ex<'a>),
}

/// An abstract signature: one that hides types of these kinds.
#[cycle(literal)]
#[derive(Clone, Copy)]
pub struct Ex<'a>(pub &'a [KindLit], pub SigLit<'a>);

/// A step of a path.
#[derive(Clone, Copy)]
pub enum ItemLit<'a> {
    Part(&'a str),
    Arg,
    Res,
    Meta,
}

/// Why two parts do not agree.
#[derive(Clone, Copy)]
pub enum ClashLit<'a> {
    Form,
    Missing,
    Effect,
    Types(TyLit<'a>, TyLit<'a>),
}

/// A reason of a refusal.
#[derive(Clone, Copy)]
pub enum WhyLit<'a> {
    Unbound(&'a str),
    NotStructure,
    NoPart(&'a str),
    NotFunctor,
    WrongPath,
    Escapes,
    NoRoot(u64, &'a [ItemLit<'a>]),
    Clash(&'a [ItemLit<'a>], ClashLit<'a>),
    NotArrow(TyLit<'a>),
    NotAll(TyLit<'a>),
    NotRecord(TyLit<'a>),
    NotSum(TyLit<'a>),
    NotData(TyLit<'a>),
    NoField(&'a str),
    NoBranch(&'a str),
    Differ(TyLit<'a>, TyLit<'a>),
    KindDiffer(KindLit, KindLit),
    NotOperator,
    DuplicateField(&'a str),
    Duplicate(&'a str),
    NotAbstract(&'a [ItemLit<'a>]),
    Mem,
}

/// The closed type of an Omega text.
pub fn closed(alloc: Global, text: &str) -> Result<Ty, Fail> {
    let whole = format!(in alloc; "omega 2\n{text}\n0\n")?;
    let (ty, _) = read(alloc, whole.as_bytes())?;
    Ok(ty)
}

/// The kind of a literal.
pub fn kind(alloc: Global, literal: KindLit) -> Result<Kind, Mem> {
    match literal {
        KindLit::Star => Ok(Kind::Star),
        KindLit::Op => arrow(alloc, Kind::Star, Kind::Star),
        KindLit::Two => arrow(alloc, Kind::Star, arrow(alloc, Kind::Star, Kind::Star)?),
    }
}

fn kinds(alloc: Global, literals: &[KindLit]) -> Result<Kinds, Mem> {
    let mut kinds = Kinds::new(alloc);
    for literal in literals {
        kinds.push(kind(alloc, *literal)?)?;
    }
    Ok(kinds)
}

fn plain_ty(alloc: Global, literal: &TyLit<'_>) -> Result<Ty, Fail> {
    match literal {
        TyLit::Var(index) => Ok(Ty::make(alloc, TyNode::Var(*index))?),
        TyLit::Apply(operator, arg) => {
            let operator = plain_ty(alloc, operator)?;
            Ok(Ty::make(alloc, TyNode::Apply(operator, plain_ty(alloc, arg)?))?)
        }
        TyLit::Lam(body) => Ok(Ty::make(alloc, TyNode::Lam(Kind::Star, plain_ty(alloc, body)?))?),
        TyLit::Closed(text) => closed(alloc, text),
    }
}

/// The type of a literal.
pub fn ty(alloc: Global, literal: &TyLit<'_>) -> Result<NormalTy, Fail> {
    Ok(as_normal(plain_ty(alloc, literal)?))
}

// Whether a name comes after those of the fields.
fn may_follow(fields: &[(Name, Sig)], name: &Name) -> bool
    ensures { IsTrue result → MayFollow fields.now name.now }
{
    match fields {
        [] => true,
        [last] => last.0.cmp(name).is_lt(),
        [_, rest @ ..] => may_follow(rest, name),
    }
}

// Adds a field.
fn add(fields: &mut SigFields, name: Name, part: Sig) -> Result<(), Fail> {
    if may_follow(fields.items(), &name) {
        Ok(fields.push((name, part))?)
    } else {
        Err("a field out of order")?
    }
}

/// The signature of a literal.
#[cycle(made)]
pub fn sig(alloc: Global, literal: &SigLit<'_>) -> Result<Sig, Fail> {
    match literal {
        SigLit::Val(of) => Ok(Sig::make(alloc, SigNode::Val(ty(alloc, of)?))?),
        SigLit::Typ(of) => Ok(Sig::make(alloc, SigNode::Typ(ty(alloc, of)?, Kind::Star))?),
        SigLit::Op(of) => {
            let of = ty(alloc, of)?;
            Ok(Sig::make(alloc, SigNode::Typ(of, kind(alloc, KindLit::Op)?))?)
        }
        SigLit::Two(of) => {
            let of = ty(alloc, of)?;
            Ok(Sig::make(alloc, SigNode::Typ(of, kind(alloc, KindLit::Two)?))?)
        }
        SigLit::Meta(of) => Ok(Sig::make(alloc, SigNode::Meta(abs(alloc, of)?))?),
        SigLit::Str(parts) => Ok(Sig::make(alloc, SigNode::Str(fields(alloc, parts)?))?),
        SigLit::Fun(effect, over, param, result) => {
            let kinds = kinds(alloc, over)?;
            let param = sig(alloc, param)?;
            let result = abs(alloc, result)?;
            let effect = *effect;
            Ok(Sig::make(
                alloc,
                SigNode::Fun {
                    effect,
                    kinds,
                    param,
                    result,
                },
            )?)
        }
    }
}

#[cycle(made)]
fn fields(alloc: Global, parts: &[(&str, SigLit<'_>)]) -> Result<SigFields, Fail> {
    let mut found = SigFields::new(alloc);
    for (name, part) in parts {
        let part = sig(alloc, part)?;
        add(&mut found, name_of(alloc, name.as_bytes())?, part)?;
    }
    Ok(found)
}

/// The abstract signature of a literal.
#[cycle(made)]
pub fn abs(alloc: Global, literal: &Ex<'_>) -> Result<Abs, Fail> {
    let body = sig(alloc, &literal.1)?;
    Ok(Abs::make(alloc, kinds(alloc, literal.0)?, body)?)
}

fn item(alloc: Global, literal: ItemLit<'_>) -> Result<Item, Mem> {
    match literal {
        ItemLit::Part(name) => Ok(Item::Part(name_of(alloc, name.as_bytes())?)),
        ItemLit::Arg => Ok(Item::Arg),
        ItemLit::Res => Ok(Item::Res),
        ItemLit::Meta => Ok(Item::Meta),
    }
}

fn path(alloc: Global, items: &[ItemLit<'_>]) -> Result<Path, Mem> {
    let mut path = Path::new(alloc);
    for literal in items {
        path.push(item(alloc, *literal)?)?;
    }
    Ok(path)
}

fn clash(alloc: Global, literal: &ClashLit<'_>) -> Result<Why, Fail> {
    match literal {
        ClashLit::Form => Ok(Why::Form),
        ClashLit::Missing => Ok(Why::Missing),
        ClashLit::Effect => Ok(Why::Effect),
        ClashLit::Types(found, needed) => {
            let found = ty(alloc, found)?;
            Ok(Why::Types(found, ty(alloc, needed)?))
        }
    }
}

// A name of a literal.
fn name(alloc: Global, text: &str) -> Result<Name, Mem> {
    name_of(alloc, text.as_bytes())
}

/// The reason of a literal.
pub fn why(alloc: Global, literal: &WhyLit<'_>) -> Result<ElabWhy, Fail> {
    match literal {
        WhyLit::Unbound(text) => Ok(ElabWhy::Unbound(name(alloc, text)?)),
        WhyLit::NotStructure => Ok(ElabWhy::NotStructure),
        WhyLit::NoPart(text) => Ok(ElabWhy::NoPart(name(alloc, text)?)),
        WhyLit::NotFunctor => Ok(ElabWhy::NotFunctor),
        WhyLit::WrongPath => Ok(ElabWhy::WrongPath),
        WhyLit::Escapes => Ok(ElabWhy::Escapes),
        WhyLit::NoRoot(index, items) => {
            let path = path(alloc, items)?;
            Ok(ElabWhy::NoRoot {
                index: *index,
                path,
            })
        }
        WhyLit::Clash(items, why) => {
            let path = path(alloc, items)?;
            let why = clash(alloc, why)?;
            Ok(ElabWhy::Clash { path, why })
        }
        WhyLit::NotArrow(of) => Ok(ElabWhy::NotArrow(ty(alloc, of)?)),
        WhyLit::NotAll(of) => Ok(ElabWhy::NotAll(ty(alloc, of)?)),
        WhyLit::NotRecord(of) => Ok(ElabWhy::NotRecord(ty(alloc, of)?)),
        WhyLit::NotSum(of) => Ok(ElabWhy::NotSum(ty(alloc, of)?)),
        WhyLit::NotData(of) => Ok(ElabWhy::NotData(ty(alloc, of)?)),
        WhyLit::NoField(text) => Ok(ElabWhy::NoField(name(alloc, text)?)),
        WhyLit::NoBranch(text) => Ok(ElabWhy::NoBranch(name(alloc, text)?)),
        WhyLit::Differ(found, needed) => {
            let found = ty(alloc, found)?;
            Ok(ElabWhy::Differ(found, ty(alloc, needed)?))
        }
        WhyLit::KindDiffer(found, needed) => {
            let found = kind(alloc, *found)?;
            Ok(ElabWhy::KindDiffer(found, kind(alloc, *needed)?))
        }
        WhyLit::NotOperator => Ok(ElabWhy::NotOperator),
        WhyLit::DuplicateField(text) => Ok(ElabWhy::DuplicateField(name(alloc, text)?)),
        WhyLit::Duplicate(text) => Ok(ElabWhy::Duplicate(name(alloc, text)?)),
        WhyLit::NotAbstract(items) => Ok(ElabWhy::NotAbstract(path(alloc, items)?)),
        WhyLit::Mem => Ok(ElabWhy::Mem),
    }
}
