// Signatures, in the notation of the literature.
use crate::kinds::{put_inner, put_kind};
use crate::types::put_type;
use crate::writer::Writer;
use omega_kinds::{Effect, Kind, Kinds, Mem};
use semantic_sigs::{Abs, Sig, SigFields, SigNode};
use show_order::Order;
use type_normal::{NormalTy, plain};

/// Writes a signature, whose components come in an order. `Err` is out of memory.
///
/// Rossberg, Russo and Dreyer, "F-ing modules", section 4, Semantic signatures, and section 7.
#[cycle(sigs)]
#[inline(never)]
pub(crate) fn put_sig(writer: &mut Writer, sig: &Sig, order: Order<'_>) -> Result<(), Mem> {
    match sig.node() {
        SigNode::Val(ty) => put_value(writer, ty),
        SigNode::Typ(ty, kind) => put_constructor(writer, ty, kind),
        SigNode::Meta(abs) => {
            writer.put("[= ")?;
            put_abs(writer, abs, order)?;
            writer.put("]")
        }
        SigNode::Str(fields) => put_structure(writer, fields, order),
        SigNode::Fun { .. } => {
            writer.open()?;
            put_functor(writer, sig, order)?;
            writer.close()
        }
    }
}

// Writes the signature of a value.
fn put_value(writer: &mut Writer, ty: &NormalTy) -> Result<(), Mem> {
    writer.put("[")?;
    put_type(writer, plain(ty))?;
    writer.put("]")
}

// Writes the signature of a type component.
fn put_constructor(writer: &mut Writer, ty: &NormalTy, kind: &Kind) -> Result<(), Mem> {
    writer.put("[= ")?;
    put_type(writer, plain(ty))?;
    writer.put(" : ")?;
    put_kind(writer, kind)?;
    writer.put("]")
}

// Writes the signature of a structure.
#[cycle(sigs)]
#[inline(never)]
#[tactic(auto, using(crate::proofs::ShownBelow::shown_below))]
fn put_structure(writer: &mut Writer, fields: &SigFields, order: Order<'_>) -> Result<(), Mem> {
    let brackets = writer.symbols().record;
    if fields.items().is_empty() {
        return writer.put_empty(brackets);
    }
    let shown = order.arranged(writer.alloc(), fields.items())?;
    writer.open_list(brackets)?;
    let mut is_first = true;
    for field in &shown {
        if !is_first {
            writer.put_comma()?;
        }
        is_first = false;
        writer.put_name(field.0.bytes())?;
        writer.put(" : ")?;
        put_sig(writer, &field.1, order.component(&field.0))?;
    }
    writer.close_list(brackets)
}

// Writes the signature of a functor, and all arrows of its result in the same group.
#[cycle(sigs)]
#[inline(never)]
fn put_functor(writer: &mut Writer, sig: &Sig, order: Order<'_>) -> Result<(), Mem> {
    let SigNode::Fun {
        effect,
        kinds,
        param,
        result,
    } = sig.node()
    else {
        return Ok(());
    };
    put_binders(writer, writer.symbols().all, kinds)?;
    put_parameter(writer, param, order.parameter())?;
    put_arrow(writer, *effect)?;
    put_result(writer, result, order.result())?;
    unbind(writer, kinds);
    Ok(())
}

// Writes the parameter of a functor, a functor in parentheses.
#[cycle(sigs)]
#[inline(never)]
fn put_parameter(writer: &mut Writer, param: &Sig, order: Order<'_>) -> Result<(), Mem> {
    let SigNode::Fun { .. } = param.node() else {
        return put_sig(writer, param, order);
    };
    writer.put("(")?;
    put_sig(writer, param, order)?;
    writer.put(")")
}

// Writes the result of a functor: one that hides nothing and is a functor goes on in the same group.
#[cycle(sigs)]
#[inline(never)]
fn put_result(writer: &mut Writer, abs: &Abs, order: Order<'_>) -> Result<(), Mem> {
    if abs.kinds().items().is_empty()
        && let SigNode::Fun { .. } = abs.body().node()
    {
        return put_functor(writer, abs.body(), order);
    }
    put_abs(writer, abs, order)
}

/// Writes an abstract signature. `Err` is out of memory.
#[cycle(sigs)]
#[inline(never)]
pub(crate) fn put_abs(writer: &mut Writer, abs: &Abs, order: Order<'_>) -> Result<(), Mem> {
    put_binders(writer, writer.symbols().exists, abs.kinds())?;
    put_sig(writer, abs.body(), order)?;
    unbind(writer, abs.kinds());
    Ok(())
}

// Writes the arrow of a functor with this effect.
fn put_arrow(writer: &mut Writer, effect: Effect) -> Result<(), Mem> {
    let symbols = writer.symbols();
    match effect {
        Effect::Pure => writer.put_arrow(symbols.pure_arrow, 2),
        Effect::Impure => writer.put_arrow(symbols.impure_arrow, 2),
    }
}

// Writes a binder of variables of these kinds, which come into scope, with a blank behind it: nothing for none.
fn put_binders(writer: &mut Writer, binder: &str, kinds: &Kinds) -> Result<(), Mem> {
    if kinds.items().is_empty() {
        return Ok(());
    }
    put_variables(writer, binder, kinds)?;
    writer.put_space()
}

/// Writes a binder of variables of these kinds, which come into scope: one a line where they do not fit on one. `Err` is
/// out of memory.
pub(crate) fn put_variables(writer: &mut Writer, binder: &str, kinds: &Kinds) -> Result<(), Mem> {
    writer.open()?;
    writer.put_sign(binder, 1)?;
    let mut is_first = true;
    for kind in kinds.items() {
        if !is_first {
            writer.put_word_break()?;
        }
        is_first = false;
        writer.bind(1);
        writer.put_variable(0)?;
        writer.put_sign(writer.symbols().of_kind, 1)?;
        put_inner(writer, kind)?;
    }
    writer.put(".")?;
    writer.close()
}

// The variables of these kinds leave the scope.
fn unbind(writer: &mut Writer, kinds: &Kinds) {
    writer.unbind(kinds.items().len() as u64);
}
