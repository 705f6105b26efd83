// From lines and columns to offsets.
use fing_lexer::Token;
use omega_kinds::Mem;
use show_text::{Page, put_shown};
use std::alloc::Global;

/// The offset of a line and a column, both counted from 1, where a tab goes to the next tab stop and a wide character takes
/// two columns. Of the columns of a token, and of those between two tokens, it is one for all. `None` is a place with
/// no token on its line, there or later. `Err` is out of memory.
pub fn offset_at(
    alloc: Global,
    source: &[u8],
    tokens: &[Token],
    line: u64,
    column: u64,
) -> Result<Option<u32>, Mem> {
    let Some(line) = nth_line(source, line) else {
        return Ok(None);
    };
    let mut page = Page::new(alloc);
    let mut at = line.from;
    let mut reached = 0;
    for token in tokens {
        let from = token.span.from as usize;
        if from < line.from || from >= line.to {
            continue;
        }
        reached = put_piece(&mut page, source, (at, from), reached)?;
        if column <= reached as u64 {
            return Ok(Some(token.span.from.saturating_sub(1)));
        }
        at = token.span.to as usize;
        reached = put_piece(&mut page, source, (from, at), reached)?;
        if column <= reached as u64 {
            return Ok(Some(token.span.from));
        }
    }
    Ok(None)
}

// The offsets of a line's first byte and of its end.
#[derive(Clone, Copy)]
struct Line {
    from: usize,
    to: usize,
}

// The line of a number, counted from 1.
fn nth_line(source: &[u8], number: u64) -> Option<Line> {
    let mut from: usize = 0;
    let mut left = number;
    for line in source.split(|byte| *byte == b'\n') {
        let to = from.saturating_add(line.len());
        if left == 1 {
            return Some(Line { from, to });
        }
        left = left.saturating_sub(1);
        from = to.saturating_add(1);
    }
    None
}

// Writes a piece of a source that begins at a column, and gives the column behind it, both counted from 0.
fn put_piece(
    page: &mut Page,
    source: &[u8],
    piece: (usize, usize),
    column: usize,
) -> Result<usize, Mem> {
    let bytes = source.get(piece.0..piece.1).unwrap_or(b"");
    put_shown(page, bytes, column)
}
