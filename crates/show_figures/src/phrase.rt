// Phrases of a source on one line.
use fing_text::Span;
use omega_kinds::Mem;
use show_text::{Page, put_shown};
use std::alloc::Global;

// How many bytes of a phrase are shown, at most.
const MOST: usize = 60;

/// The first line of the phrase at a place, of at most 60 bytes, with `..` behind it if the phrase is longer. Bytes that are
/// not UTF-8 and control characters are shown as a replacement character. `Err` is out of memory.
pub(crate) fn shown_phrase(alloc: Global, source: &[u8], at: Span) -> Result<Page, Mem> {
    let whole = source.get(at.from as usize..at.to as usize).unwrap_or(b"");
    let line = first_line(whole);
    let mut page = Page::new(alloc);
    put_shown(&mut page, line, 0)?;
    if line.len() < whole.len() {
        page.put(b" ..")?;
    }
    Ok(page)
}

// The first line of some bytes, or less of it, without blanks at its end.
fn first_line(bytes: &[u8]) -> &[u8] {
    let length = bytes.iter().position(|byte| *byte == b'\n');
    let line = bytes.get(..length.unwrap_or(bytes.len())).unwrap_or(bytes);
    let end = cut(line);
    line.get(..end).unwrap_or(line).trim_ascii_end()
}

// How many bytes of a line are shown: no character of UTF-8 is cut.
fn cut(line: &[u8]) -> usize {
    if line.len() <= MOST {
        return line.len();
    }
    let front = line.get(..MOST).unwrap_or(line);
    let tail = front.iter().rev().take_while(|byte| **byte >= 0x80).count();
    MOST.saturating_sub(tail)
}
