// Types, in the notation of the literature.
use crate::kinds::put_inner;
use crate::symbols::Pair;
use crate::writer::Writer;
use omega_kinds::{Kind, Mem};
use omega_types::{Ty, TyFields, TyNode};
use show_types::eta_variable;

// Which types stand at a place without parentheses: all, all that need none before an arrow, all that can be applied,
// and those that can be arguments.
#[derive(Clone, Copy, Debug, PartialEq, Eq)]
enum Room {
    Whole,
    BeforeArrow,
    Applied,
    Argument,
}

// Whether a type of this form needs parentheses at a place.
fn needs_parentheses(node: &TyNode, room: Room) -> bool {
    match node {
        TyNode::Arrow(_, _)
        | TyNode::All(_, _)
        | TyNode::Ex(_, _)
        | TyNode::Lam(_, _)
        | TyNode::Mu(_) => room != Room::Whole,
        TyNode::Apply(_, _) => room == Room::Argument,
        _ => false,
    }
}

/// Writes a type. A type constructor in eta-long form is written as the variable that it is. `Err` is out of memory.
pub fn put_type(writer: &mut Writer, ty: &Ty) -> Result<(), Mem> {
    put_at(writer, ty, Room::Whole)
}

// Writes a type at a place.
#[cycle(types)]
#[inline(never)]
fn put_at(writer: &mut Writer, ty: &Ty, room: Room) -> Result<(), Mem> {
    if let TyNode::Lam(_, _) = ty.node()
        && let Some(index) = eta_variable(ty)
    {
        return writer.put_variable(index);
    }
    if !needs_parentheses(ty.node(), room) {
        return put_form(writer, ty);
    }
    writer.put("(")?;
    put_form(writer, ty)?;
    writer.put(")")
}

// Writes a type without parentheses round it.
#[cycle(types)]
#[inline(never)]
fn put_form(writer: &mut Writer, ty: &Ty) -> Result<(), Mem> {
    match ty.node() {
        TyNode::Var(index) => writer.put_variable(*index),
        TyNode::Int => writer.put_word("int"),
        TyNode::Bool => writer.put_word("bool"),
        TyNode::Text => writer.put_word("text"),
        TyNode::Arrow(_, _) => {
            writer.open()?;
            put_arrows(writer, ty)?;
            writer.close()
        }
        TyNode::Fields(fields) => put_fields(writer, fields, writer.symbols().record),
        TyNode::Sum(fields) => put_fields(writer, fields, writer.symbols().sum),
        TyNode::All(kind, body) => put_under(writer, writer.symbols().all, body, kind),
        TyNode::Ex(kind, body) => put_under(writer, writer.symbols().exists, body, kind),
        TyNode::Lam(kind, body) => put_under(writer, writer.symbols().lambda, body, kind),
        TyNode::Mu(body) => put_recursive(writer, body),
        TyNode::Apply(operator, argument) => {
            put_at(writer, operator, Room::Applied)?;
            writer.put_space()?;
            put_at(writer, argument, Room::Argument)
        }
    }
}

// Writes a function type, and all arrows of its result in the same group.
#[cycle(types)]
#[inline(never)]
fn put_arrows(writer: &mut Writer, ty: &Ty) -> Result<(), Mem> {
    let TyNode::Arrow(from, to) = ty.node() else {
        return Ok(());
    };
    put_at(writer, from, Room::BeforeArrow)?;
    writer.put_arrow(writer.symbols().arrow, 1)?;
    match to.node() {
        TyNode::Arrow(_, _) => put_arrows(writer, to),
        _ => put_at(writer, to, Room::Whole),
    }
}

// Writes the fields of a record or a sum in brackets.
#[cycle(types)]
#[inline(never)]
fn put_fields(writer: &mut Writer, fields: &TyFields, brackets: Pair) -> Result<(), Mem> {
    if fields.items().is_empty() {
        return writer.put_empty(brackets);
    }
    writer.open_list(brackets)?;
    let mut is_first = true;
    for field in fields.items() {
        if !is_first {
            writer.put_comma()?;
        }
        is_first = false;
        writer.put_label(&field.0)?;
        writer.put(" : ")?;
        put_at(writer, &field.1, Room::Whole)?;
    }
    writer.close_list(brackets)
}

// Writes a type below a binder of a variable with a kind.
#[cycle(types)]
#[inline(never)]
fn put_under(writer: &mut Writer, binder: &str, body: &Ty, kind: &Kind) -> Result<(), Mem> {
    writer.bind(1);
    writer.put_sign(binder, 1)?;
    writer.put_variable(0)?;
    writer.put_sign(writer.symbols().of_kind, 1)?;
    put_inner(writer, kind)?;
    writer.put(".")?;
    writer.put_space()?;
    put_at(writer, body, Room::Whole)?;
    writer.unbind(1);
    Ok(())
}

// Writes a recursive type.
#[cycle(types)]
#[inline(never)]
fn put_recursive(writer: &mut Writer, body: &Ty) -> Result<(), Mem> {
    writer.bind(1);
    writer.put_sign(writer.symbols().mu, 1)?;
    writer.put_variable(0)?;
    writer.put(".")?;
    writer.put_space()?;
    put_at(writer, body, Room::Whole)?;
    writer.unbind(1);
    Ok(())
}
