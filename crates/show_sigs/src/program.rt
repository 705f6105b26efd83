// The signature of a program, and of a phrase in it.
use crate::writer::Writer;
use omega_kinds::{Kind, Mem, Name};
use semantic_sigs::{Abs, SigNode};
use show_order::Order;
use show_text::Page;
use show_types::{Naming, put_kind};

/// Writes the signature of a program, one declaration a line, and then a line for each hidden type. Components come in
/// the order that is given, each once. A hidden type is declared where the first path in this order leads, and has this
/// path as its name everywhere; one that no path leads to is `?N`, with its number. `Err` is out of memory.
///
/// Rossberg, Russo and Dreyer, "F-ing modules", section 5, root paths.
pub fn put_program(page: Page, abs: &Abs, order: Order<'_>) -> Result<Page, Mem> {
    let naming = Naming::new(page.alloc());
    let mut writer = Writer::new(page, naming);
    writer.bind(abs.kinds(), abs.body(), order)?;
    match abs.body().node() {
        SigNode::Str(fields) => writer.put_fields(fields, order)?,
        _ => writer.put_sig(abs.body(), order)?,
    }
    put_all_hidden(&mut writer, abs)?;
    Ok(writer.into_page())
}

/// Writes what a phrase is, where the type variables in scope outside it have these names, the outermost first: a value
/// with its type, a type with its kind, or a module or a signature with components in the order that is given, and then a
/// line for each type that a module hides. `Err` is out of memory.
pub fn put_phrase(
    page: Page,
    names: Vec<Option<Name>>,
    abs: &Abs,
    order: Order<'_>,
) -> Result<Page, Mem> {
    let count = names.len() as u64;
    let naming = Naming::named(page.alloc(), names, count)?;
    let mut writer = Writer::new(page, naming);
    writer.bind(abs.kinds(), abs.body(), order)?;
    if let SigNode::Str(_) | SigNode::Fun { .. } = abs.body().node() {
        writer.page.put(b"module : ")?;
    }
    writer.put_sig(abs.body(), order)?;
    if let SigNode::Typ(_, kind) = abs.body().node() {
        writer.page.put(b" : ")?;
        put_kind(&mut writer.page, kind)?;
    }
    writer.page.put(b"\n")?;
    put_all_hidden(&mut writer, abs)?;
    Ok(writer.into_page())
}

// Writes the lines of the hidden types.
fn put_all_hidden(writer: &mut Writer, abs: &Abs) -> Result<(), Mem> {
    let kinds = abs.kinds().items();
    for (level, kind) in kinds.iter().enumerate() {
        put_hidden(writer, kinds.len(), level, kind)?;
    }
    Ok(())
}

// Writes the line of the hidden type of a level, of which there are so many.
fn put_hidden(writer: &mut Writer, count: usize, level: usize, kind: &Kind) -> Result<(), Mem> {
    writer.page.put(b"hidden: ")?;
    let index = count.saturating_sub(level).saturating_sub(1);
    writer.put_name(index as u64)?;
    if let Kind::Arrow(_, _, _) = kind {
        writer.page.put(b" : ")?;
        put_kind(&mut writer.page, kind)?;
    }
    if !writer.has_name(index as u64) {
        writer.page.put(b", to which no path leads")?;
    }
    writer.page.put(b"\n")
}
