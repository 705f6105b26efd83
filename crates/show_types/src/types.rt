// Types, in the syntax of a source.
use crate::kinds::put_kind;
use crate::naming::Naming;
use crate::variables::eta_variable;
use omega_kinds::{Kind, Label, Mem};
use omega_types::{Ty, TyFields, TyNode};
use show_text::Page;

// Which types stand at a place without parentheses: all, all that need none before an arrow, all that can be applied,
// and those that can be arguments.
#[derive(Clone, Copy, Debug, PartialEq, Eq)]
enum Room {
    Whole,
    BeforeArrow,
    Applied,
    Argument,
}

// Whether a type of this form needs parentheses at a place.
fn needs_parentheses(node: &TyNode, room: Room) -> bool {
    match node {
        TyNode::Arrow(_, _) | TyNode::All(_, _) | TyNode::Lam(_, _) | TyNode::Mu(_) => {
            room != Room::Whole
        }
        TyNode::Apply(_, _) => room == Room::Argument,
        TyNode::Ex(_, _) => room == Room::Applied,
        _ => false,
    }
}

/// Writes a type whose free variables have the names of a naming. The names of its bound variables are letters that
/// no variable in scope has. `Err` is out of memory.
pub fn put_ty(page: &mut Page, naming: &mut Naming, ty: &Ty) -> Result<(), Mem> {
    put_at(page, naming, ty, Room::Whole)
}

// Writes a type at a place. An eta-long type constructor is written as the variable that it is.
#[cycle(types)]
fn put_at(page: &mut Page, naming: &mut Naming, ty: &Ty, room: Room) -> Result<(), Mem> {
    if let TyNode::Lam(_, _) = ty.node()
        && let Some(index) = eta_variable(ty)
    {
        return put_variable(page, naming, index);
    }
    if !needs_parentheses(ty.node(), room) {
        return put_form(page, naming, ty);
    }
    page.put(b"(")?;
    put_form(page, naming, ty)?;
    page.put(b")")
}

// Writes a type without parentheses around it.
#[cycle(types)]
fn put_form(page: &mut Page, naming: &mut Naming, ty: &Ty) -> Result<(), Mem> {
    match ty.node() {
        TyNode::Var(index) => put_variable(page, naming, *index),
        TyNode::Int => page.put(b"Int"),
        TyNode::Bool => page.put(b"Bool"),
        TyNode::Text => page.put(b"Text"),
        TyNode::Arrow(from, to) => {
            put_at(page, naming, from, Room::BeforeArrow)?;
            page.put(b" -> ")?;
            put_at(page, naming, to, Room::Whole)
        }
        TyNode::Fields(fields) => put_fields(page, naming, b"{", fields),
        TyNode::Sum(fields) => put_fields(page, naming, b"case {", fields),
        TyNode::All(kind, body) => put_under(page, naming, body, kind, (b"[", b"] -> ")),
        TyNode::Lam(kind, body) => put_under(page, naming, body, kind, (b"fun (", b") => ")),
        TyNode::Ex(_, _) => page.put(b"pack sig .. end"),
        TyNode::Mu(body) => put_recursive(page, naming, body),
        TyNode::Apply(operator, argument) => {
            put_at(page, naming, operator, Room::Applied)?;
            page.put(b" ")?;
            put_at(page, naming, argument, Room::Argument)
        }
    }
}

// Writes the fields of a record or a sum, after what they begin with.
#[cycle(types)]
fn put_fields(
    page: &mut Page,
    naming: &mut Naming,
    front: &[u8],
    fields: &TyFields,
) -> Result<(), Mem> {
    page.put(front)?;
    let mut between: &[u8] = b"";
    for field in fields.items() {
        page.put(between)?;
        page.put(label_text(&field.0))?;
        page.put(b" : ")?;
        put_at(page, naming, &field.1, Room::Whole)?;
        between = b", ";
    }
    page.put(b"}")
}

// Writes a type below a binder of a variable, whose name and kind stand between two texts.
#[cycle(types)]
fn put_under(
    page: &mut Page,
    naming: &mut Naming,
    body: &Ty,
    kind: &Kind,
    words: (&[u8], &[u8]),
) -> Result<(), Mem> {
    naming.add_letter(page.alloc())?;
    page.put(words.0)?;
    put_variable(page, naming, 0)?;
    page.put(b" : ")?;
    put_kind(page, kind)?;
    page.put(words.1)?;
    put_at(page, naming, body, Room::Whole)?;
    naming.pop();
    Ok(())
}

// Writes a recursive type.
#[cycle(types)]
fn put_recursive(page: &mut Page, naming: &mut Naming, body: &Ty) -> Result<(), Mem> {
    naming.add_letter(page.alloc())?;
    page.put(b"rec ")?;
    put_variable(page, naming, 0)?;
    page.put(b" => ")?;
    put_at(page, naming, body, Room::Whole)?;
    naming.pop();
    Ok(())
}

// Writes a variable.
fn put_variable(page: &mut Page, naming: &Naming, index: u64) -> Result<(), Mem> {
    match naming.written(page.alloc(), index)? {
        Some(name) => page.put(name.bytes()),
        None => page.put(b"?"),
    }
}

// The text of a label.
fn label_text(label: &Label) -> &[u8] {
    match label {
        Label::Val => b".val",
        Label::Typ => b".typ",
        Label::Sig => b".sig",
        Label::App => b".app",
        Label::Gen => b".gen",
        Label::Name(name) => name.bytes(),
    }
}
