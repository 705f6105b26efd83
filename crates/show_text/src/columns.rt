// Text as a terminal shows it, column by column.
use crate::page::Page;
use omega_kinds::Mem;
use unicode_width::UnicodeWidthChar;

// How far it is from one tab stop to the next.
const TAB: usize = 8;

// The column after a character that begins at a column, both counted from 0. A tab goes to the next tab stop, and a
// control character takes one column, since a replacement is shown for it.
fn column_after(c: char, column: usize) -> usize {
    if c == '\t' {
        return column.saturating_add(TAB - column % TAB);
    }
    column.saturating_add(c.width().unwrap_or(1))
}

// What is shown for a character that is no tab: a replacement for a control character, and else itself.
fn shown(c: char) -> char {
    match c.width() {
        Some(_) => c,
        None => char::REPLACEMENT_CHARACTER,
    }
}

/// The column in which a text ends that begins at a column, both counted from 0. `Err` is out of memory.
pub(crate) fn column_behind(page: &Page, bytes: &[u8], column: usize) -> Result<usize, Mem> {
    let text = String::from_utf8_lossy(page.alloc(), bytes)?;
    let mut column = column;
    for c in text.chars() {
        column = column_after(c, column);
    }
    Ok(column)
}

/// Writes bytes as a terminal shows them from a column on, counted from 0, and gives the column behind them: tabs as
/// spaces, and a replacement character for each piece that is not UTF-8 and for each control character. `Err` is out
/// of memory.
pub fn put_shown(page: &mut Page, bytes: &[u8], column: usize) -> Result<usize, Mem> {
    let text = String::from_utf8_lossy(page.alloc(), bytes)?;
    let mut column = column;
    for c in text.chars() {
        let next = column_after(c, column);
        if c == '\t' {
            page.put_times(b' ', next.saturating_sub(column))?;
        } else {
            page.put_char(shown(c))?;
        }
        column = next;
    }
    Ok(column)
}
