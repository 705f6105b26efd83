// How wide groups are on one line.
use crate::pieces::{Layout, Piece};
use omega_kinds::Mem;
use std::alloc::Global;

// A place in a layout: how many columns there are from it to the end, all on one line, and how many up to the next
// place where a line may end.
#[derive(Clone, Copy, Debug, PartialEq, Eq)]
struct Place {
    columns: usize,
    text: usize,
}

// The end of the layout.
const END: Place = Place {
    columns: 0,
    text: 0,
};

impl Place {
    // The place before a text of so many columns.
    fn before_text(self, columns: usize) -> Place {
        Place {
            columns: self.columns.saturating_add(columns),
            text: self.text.saturating_add(columns),
        }
    }

    // The place before one where a line may end, with a text of so many columns.
    fn before_break(self, columns: usize) -> Place {
        Place {
            columns: self.columns.saturating_add(columns),
            text: 0,
        }
    }

    // How many columns a group needs that begins here and ends at a place: up to the first place behind it where a
    // line may end.
    fn width_to(self, end: Place) -> usize {
        let inside = self.columns.saturating_sub(end.columns);
        inside.saturating_add(end.text)
    }
}

// What is known of a layout from a place on.
#[derive(Drop)]
struct Scan {
    place: Place,
    // where the groups end that begin further left, the innermost last
    ends: Vec<Place>,
    // the widths of the groups, the first one last
    widths: Vec<usize>,
}

impl Scan {
    // What is known at the end.
    fn new(alloc: Global) -> Scan {
        Scan {
            place: END,
            ends: Vec::new(alloc),
            widths: Vec::new(alloc),
        }
    }

    // Goes on to the left, over a piece.
    fn pass(&mut self, piece: Piece) -> Result<(), Mem> {
        match piece {
            Piece::Text(text) => self.place = self.place.before_text(text.columns),
            Piece::Break(flat) | Piece::Last(flat) => {
                self.place = self.place.before_break(flat.columns);
            }
            Piece::Close => self.ends.push(self.place)?,
            Piece::Open(_) => {
                let end = self.ends.pop().unwrap_or(END);
                self.widths.push(self.place.width_to(end))?;
            }
        }
        Ok(())
    }
}

// How many columns each group of a layout needs on one line, with the text behind it up to the next place where a line
// may end. The group that begins first comes last. `Err` is out of memory.
pub(crate) fn widths(layout: &Layout) -> Result<Vec<usize>, Mem> {
    let mut scan = Scan::new(layout.alloc());
    for piece in layout.pieces().iter().rev() {
        scan.pass(*piece)?;
    }
    Ok(scan.widths)
}
