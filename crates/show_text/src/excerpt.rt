// The lines of a source, and excerpts of it.
ghost use Rattle.std.specs.Prelude.{◌≡◌, ◌+◌, ◌==◌, count_by, take};

use crate::columns::{column_behind, put_shown};
use crate::page::Page;
use fing_text::Span;
use itoa::Buffer;
use omega_kinds::Mem;

/// Where a byte of a source stands, counted from 1: its line, and its column in a terminal.
#[derive(Clone, Copy, Debug, PartialEq, Eq)]
pub struct Place {
    pub line: u64,
    pub column: u64,
}

/// The line of a source in which an offset stands, without its end: its number, counted from 1, its bytes before the
/// offset, and those from the offset on.
#[derive(Clone, Copy, Debug, PartialEq, Eq)]
pub struct Line<'a> {
    pub number: u64,
    pub before: &'a [u8],
    pub after: &'a [u8],
}

/// The line in which an offset stands. An offset past the end of the source counts as the end.
pub fn line_at(source: &[u8], at: usize) -> Line<'_>
    ensures number { result.number ≡ count_by (λ b. b == 10) (take at source.now) + 1 }
{
    let (front, rest) = source.split_at(at.min(source.len()));
    let ends = front.iter().filter(|byte| **byte == b'\n').count() as u64;
    let length = rest.iter().position(|byte| *byte == b'\n');
    Line {
        number: ends.saturating_add(1),
        before: last_line(front),
        after: &rest[..length.unwrap_or(rest.len())],
    }
}

// What stands behind the last line end, or all where there is none.
fn last_line(bytes: &[u8]) -> &[u8] {
    bytes.split(|byte| *byte == b'\n').last().unwrap_or(bytes)
}

impl Line<'_> {
    // The place of the offset.
    fn place(&self, page: &Page) -> Result<Place, Mem> {
        let column = column_behind(page, self.before, 0)? as u64;
        Ok(Place {
            line: self.number,
            column: column.saturating_add(1),
        })
    }
}

/// Writes where a span of a source stands and what stands there: a line ` --> FILE:LINE:COLUMN`, and the line in
/// which the span begins, with a mark under the part of the span that is on it, one column wide at least. `Err` is
/// out of memory.
pub fn put_excerpt(page: &mut Page, file: &[u8], source: &[u8], span: Span) -> Result<(), Mem> {
    let line = line_at(source, span.from as usize);
    let place = line.place(page)?;
    let mut buffer = Buffer::new();
    let number = buffer.format(place.line).as_bytes();
    page.put(b" --> ")?;
    put_shown(page, file, 0)?;
    page.put(b":")?;
    page.put(number)?;
    page.put(b":")?;
    page.put_number(place.column)?;
    page.put(b"\n")?;
    put_gutter(page, number.len())?;
    page.put(b"\n")?;
    page.put(number)?;
    page.put(b" | ")?;
    let (from, to) = put_line(page, line, span.to.saturating_sub(span.from) as usize)?;
    page.put(b"\n")?;
    put_gutter(page, number.len())?;
    page.put_times(b' ', from.saturating_add(1))?;
    page.put_times(b'^', to.saturating_sub(from).max(1))?;
    page.put(b"\n")
}

// Writes the margin of a line that has no number.
fn put_gutter(page: &mut Page, width: usize) -> Result<(), Mem> {
    page.put_times(b' ', width)?;
    page.put(b" |")
}

// Writes a line, and gives the columns in which so many bytes of it from its offset on begin and end.
fn put_line(page: &mut Page, line: Line<'_>, length: usize) -> Result<(usize, usize), Mem> {
    let (marked, rest) = line.after.split_at(length.min(line.after.len()));
    let from = put_shown(page, line.before, 0)?;
    let to = put_shown(page, marked, from)?;
    put_shown(page, rest, to)?;
    Ok((from, to))
}
