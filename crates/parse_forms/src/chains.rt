// Chains, which group to the left, and arrows, which group to the right.
// Each list that is passed in has its first item last.
ghost use Rattle.std.specs.Prelude.{◌≡◌, IfOk, map, reverse, option_map};
ghost use Rattle.fing_syntax.specs.Inner.Leaves.{place, spelled};
ghost use Rattle.fing_syntax.specs.Phrase.{ModAt, ModProject, ExpAt, ExpGet};
ghost use Rattle.fing_syntax.specs.Place.{up_to as through, arg_span};
ghost use Rattle.fing_syntax.specs.Inner.View.{arg_of, tys as tys_of, ops as operators_of, args as arguments_of};
ghost use Rattle.parse_grammar.specs.Forms as form;
ghost use Rattle.parse_forms.specs.Inner.Part.{kind_in, where_in, ascription_in};

use crate::forms::{apply_mod, seal_mod, show_mod};
use crate::kept::Kept;
use crate::part::{Ascription, KindPart, Where};
use crate::tokens::up_to;
use fing_syntax::{Arg, Exp, ExpWhat, Mod, ModWhat, Op, SigEx, SigWhat, SpanName, TyEx, TyWhat};
use fing_text::Span;
use omega_kinds::{Mem, arrow};
use std::alloc::Global;

/// `K` or `K -> K`. `Err` is want of memory.
pub fn kind_chain(alloc: Global, from: KindPart, to: Option<KindPart>) -> Result<KindPart, Mem>
    ensures { IfOk result (λ k. kind_in k ≡ form.kind_arrow_of (kind_in from) (option_map kind_in to)) }
{
    match to {
        None => Ok(from),
        Some(to) => Ok(KindPart {
            kind: arrow(alloc, from.kind, to.kind)?,
            last: to.last,
        }),
    }
}

/// `T` or `T -> T`. `Err` is want of memory.
pub fn arrow_chain(alloc: Global, from: TyEx, to: Option<TyEx>) -> Result<TyEx, Mem>
    ensures { IfOk result (λ t. t ≡ form.arrow_of from to) }
{
    match to {
        None => Ok(from),
        Some(to) => {
            let span = up_to(from.span, to.span);
            let to = Kept::new(to);
            let from = Box::new(alloc, from)?;
            let to = Box::new(alloc, to.take())?;
            Ok(TyEx {
                span,
                what: TyWhat::Arrow(from, to),
            })
        }
    }
}

/// A type, or the application of an operator to the types of `rest`, of which the first one stands last. `Err` is want
/// of memory.
#[tactic(auto, using(crate::proofs::Chained::ty_alone, crate::proofs::Chained::ty_applied))]
pub fn ty_chain(alloc: Global, first: TyEx, rest: Vec<TyEx>) -> Result<TyEx, Mem>
    ensures { IfOk result (λ t. t ≡ form.ty_chain_of first (tys_of (reverse rest.items))) }
{
    let Some(last) = rest.first() else {
        return Ok(first);
    };
    let span = up_to(first.span, last.span);
    let first = Box::new(alloc, first)?;
    let mut args = rest;
    args.reverse();
    Ok(TyEx {
        span,
        what: TyWhat::Apply(first, args),
    })
}

/// An expression, or a chain of operators of one level: `rest` has each operator with its right side, the first one
/// last. `Err` is want of memory.
#[tactic(auto, using(crate::proofs::Chained::op_alone, crate::proofs::Chained::op_chained))]
pub fn ops_chain(alloc: Global, first: Exp, rest: Vec<(Op, Exp)>) -> Result<Exp, Mem>
    ensures { IfOk result (λ e. e ≡ form.ops_of first (operators_of (reverse rest.items))) }
{
    let Some(last) = rest.first() else {
        return Ok(first);
    };
    let span = up_to(first.span, last.1.span);
    let first = Box::new(alloc, first)?;
    let mut ops = rest;
    ops.reverse();
    Ok(Exp {
        span,
        what: ExpWhat::Ops(first, ops),
    })
}

// The place of an argument.
fn end_of(arg: &Arg) -> Span
    ensures { place result ≡ arg_span (arg_of arg.now) }
{
    match arg {
        Arg::Exp(value) => value.span,
        Arg::Ty(_, span) => *span,
    }
}

/// An expression, or a function with the arguments of `rest`, of which the first one stands last. `Err` is want of
/// memory.
#[tactic(auto, using(crate::proofs::Chained::arg_alone, crate::proofs::Chained::arg_chained))]
pub fn args_chain(alloc: Global, first: Exp, rest: Vec<Arg>) -> Result<Exp, Mem>
    ensures { IfOk result (λ e. e ≡ form.args_of first (arguments_of (reverse rest.items))) }
{
    let Some(last) = rest.first() else {
        return Ok(first);
    };
    let span = up_to(first.span, end_of(last));
    let first = Box::new(alloc, first)?;
    let mut args = rest;
    args.reverse();
    Ok(Exp {
        span,
        what: ExpWhat::Apply(first, args),
    })
}

/// The projection of a name from a module, at this place. `Err` is want of memory.
pub fn projected(alloc: Global, span: Span, whole: Mod, name: SpanName) -> Result<Mod, Mem>
    ensures { IfOk result (λ m. m ≡ ModAt (place span) (ModProject whole (spelled name))) }
{
    let whole = Box::new(alloc, whole)?;
    Ok(Mod {
        span,
        what: ModWhat::Project(whole, name),
    })
}

/// A module with names projected from it one after the other, the last one of the list first. `Err` is want of memory.
pub fn project_all(alloc: Global, whole: Mod, names: Vec<SpanName>) -> Result<Mod, Mem>
    ensures { IfOk result (λ m. m ≡ form.project_all whole (map spelled (reverse names.items))) }
{
    let mut path = whole;
    let mut left = names;
    'chain: while let Some(name) = left.pop() {
        let span = up_to(path.span, name.span);
        path = projected(alloc, span, path, name)?;
    }
    Ok(path)
}

// The field of a record, at this place.
fn selected(alloc: Global, span: Span, whole: Exp, name: SpanName) -> Result<Exp, Mem>
    ensures { IfOk result (λ e. e ≡ ExpAt (place span) (ExpGet whole (spelled name))) }
{
    let whole = Box::new(alloc, whole)?;
    Ok(Exp {
        span,
        what: ExpWhat::Get(whole, name),
    })
}

/// An expression with fields taken from it one after the other, the last one of the list first. `Err` is want of
/// memory.
pub fn get_all(alloc: Global, whole: Exp, names: Vec<SpanName>) -> Result<Exp, Mem>
    ensures { IfOk result (λ e. e ≡ form.get_all whole (map spelled (reverse names.items))) }
{
    let mut field = whole;
    let mut left = names;
    'chain: while let Some(name) = left.pop() {
        let span = up_to(field.span, name.span);
        field = selected(alloc, span, field, name)?;
    }
    Ok(field)
}

/// A module applied to modules one after the other, the last one of the list first. `Err` is want of memory.
pub fn apply_all(alloc: Global, function: Mod, args: Vec<Mod>) -> Result<Mod, Mem>
    ensures { IfOk result (λ m. m ≡ form.apply_all function (reverse args.items)) }
{
    let mut applied = function;
    let mut left = args;
    'chain: while let Some(arg) = left.pop() {
        applied = apply_mod(alloc, applied, arg)?;
    }
    Ok(applied)
}

// A module behind which one signature stands.
fn ascribed(alloc: Global, inner: Mod, ascription: Ascription) -> Result<Mod, Mem>
    ensures { IfOk result (λ m. m ≡ form.ascribe inner (ascription_in ascription)) }
{
    match ascription {
        Ascription::Sealed(sig) => seal_mod(alloc, inner, sig),
        Ascription::Shown(sig) => show_mod(alloc, inner, sig),
    }
}

/// A module with the signatures that stand behind it, one after the other, the last one of the list first. `Err` is
/// want of memory.
pub fn ascribe_all(alloc: Global, inner: Mod, ascriptions: Vec<Ascription>) -> Result<Mod, Mem>
    ensures { IfOk result (λ m. m ≡ form.ascribe_all inner (map ascription_in (reverse ascriptions.items))) }
{
    let mut whole = inner;
    let mut left = ascriptions;
    'chain: while let Some(ascription) = left.pop() {
        whole = ascribed(alloc, whole, ascription)?;
    }
    Ok(whole)
}

// A signature with one refinement.
fn refined(alloc: Global, sig: SigEx, refinement: Where) -> Result<SigEx, Mem>
    ensures { IfOk result (λ g. g ≡ form.refine sig (where_in refinement)) }
{
    let span = up_to(sig.span, refinement.ty.span);
    let refinement = Kept::new(refinement);
    let sig = Box::new(alloc, sig)?;
    let Where { first, rest, ty } = refinement.take();
    Ok(SigEx {
        span,
        what: SigWhat::Refine {
            sig,
            first,
            rest,
            ty,
        },
    })
}

/// A signature with its refinements one after the other, the last one of the list first. `Err` is want of memory.
pub fn refine_all(alloc: Global, sig: SigEx, wheres: Vec<Where>) -> Result<SigEx, Mem>
    ensures { IfOk result (λ g. g ≡ form.refine_all sig (map where_in (reverse wheres.items))) }
{
    let mut whole = sig;
    let mut left = wheres;
    'chain: while let Some(refinement) = left.pop() {
        whole = refined(alloc, whole, refinement)?;
    }
    Ok(whole)
}
