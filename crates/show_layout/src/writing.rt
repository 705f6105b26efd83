// Layouts, written to pages.
use crate::pieces::{Layout, Length, Piece};
use crate::widths::widths;
use omega_kinds::Mem;
use show_text::Page;
use std::mem;

// How many columns a line has.
const WIDTH: usize = 100;
// The most steps by which a line is indented, so that what is written is linear in the layout.
const MOST_STEPS: usize = 30;
// How many columns a step takes.
const STEP: usize = 2;

/// What new lines consist of beside the end of the line.
#[derive(Clone, Copy, Debug, PartialEq, Eq)]
pub struct Lines {
    /// What stands at the end of a line that another one follows.
    pub end: &'static str,
    /// What stands for a step of an indentation, which is two columns wide.
    pub step: &'static str,
}

// A group: whether it stands on one line, and the steps by which new lines round it and in it are indented.
#[derive(Clone, Copy, Debug, PartialEq, Eq)]
struct Group {
    is_flat: bool,
    outside: usize,
    inside: usize,
}

// What is outside all groups.
const WHOLE: Group = Group {
    is_flat: false,
    outside: 0,
    inside: 0,
};

// What is still to be written: the bytes, the widths of the groups, the group that is open and those round it, and
// the column.
#[derive(Drop)]
struct Printer<'a> {
    lines: Lines,
    bytes: &'a [u8],
    widths: Vec<usize>,
    group: Group,
    outer: Vec<Group>,
    column: usize,
}

/// Writes a layout on a page, from the beginning of a line on. A group stands on one line if it fits on what is left of
/// 100 columns, with the text behind it, or if the group round it stands on one line. Else each break of its own is a
/// new line, as is each one outside all groups. No line is indented by more than 30 steps. `Err` is out of memory.
pub fn put_layout(page: &mut Page, layout: &Layout, lines: Lines) -> Result<(), Mem> {
    let mut printer = Printer {
        lines,
        bytes: layout.bytes(),
        widths: widths(layout)?,
        group: WHOLE,
        outer: Vec::new(layout.alloc()),
        column: 0,
    };
    for piece in layout.pieces() {
        printer.put(page, *piece)?;
    }
    Ok(())
}

impl<'a> Printer<'a> {
    // Writes a piece.
    fn put(&mut self, page: &mut Page, piece: Piece) -> Result<(), Mem> {
        match piece {
            Piece::Text(text) => self.put_text(page, text),
            Piece::Break(flat) => self.put_break(page, flat, self.group.inside),
            Piece::Last(flat) => self.put_break(page, flat, self.group.outside),
            Piece::Open(steps) => self.open(steps),
            Piece::Close => {
                self.group = self.outer.pop().unwrap_or(WHOLE);
                Ok(())
            }
        }
    }

    // The next bytes.
    fn take(&mut self, count: usize) -> &'a [u8] {
        let (taken, rest) = self.bytes.split_at(count.min(self.bytes.len()));
        self.bytes = rest;
        taken
    }

    // Writes a text of this length.
    fn put_text(&mut self, page: &mut Page, text: Length) -> Result<(), Mem> {
        self.column = self.column.saturating_add(text.columns);
        page.put(self.take(text.bytes))
    }

    // Writes a place where a line may end: a text of this length, or a new line that is indented by so many steps.
    fn put_break(&mut self, page: &mut Page, flat: Length, steps: usize) -> Result<(), Mem> {
        if self.group.is_flat {
            return self.put_text(page, flat);
        }
        self.take(flat.bytes);
        self.column = steps.saturating_mul(STEP);
        page.put_all(&[self.lines.end.as_bytes(), b"\n"])?;
        for _ in 0..steps {
            page.put(self.lines.step.as_bytes())?;
        }
        Ok(())
    }

    // Begins a group, whose new lines are indented by so many steps more.
    fn open(&mut self, steps: usize) -> Result<(), Mem> {
        let width = self.widths.pop().unwrap_or(0);
        let outside = self.group.inside;
        let inner = Group {
            is_flat: self.group.is_flat || self.column.saturating_add(width) <= WIDTH,
            outside,
            inside: outside.saturating_add(steps).min(MOST_STEPS),
        };
        self.outer.push(mem::replace(&mut self.group, inner))?;
        Ok(())
    }
}
