// Texts with places where a line may end, built from left to right.
ghost use Rattle.std.specs.Prelude.{◌≡◌, ◌&&◌, count_by, nat_lt, nat_le, not};

use omega_kinds::Mem;
use std::alloc::Global;

// The most bytes of a layout, 64 MiB, and the most pieces.
const MOST_BYTES: usize = 67108864;

const MOST_PIECES: usize = 16777216;

// The length of a text: in bytes, and in columns.
#[derive(Clone, Copy, Debug, PartialEq, Eq)]
pub(crate) struct Length {
    pub(crate) bytes: usize,
    pub(crate) columns: usize,
}

// A piece of a layout. The bytes of a text and of a flat break stand with those of the other pieces, in their order.
#[derive(Clone, Copy, Debug, PartialEq, Eq)]
pub(crate) enum Piece {
    Text(Length),
    // a place where a line may end, and the length of its text where it does not
    Break(Length),
    // the same, where a new line is indented as the text round the group
    Last(Length),
    // the beginning of a group, whose new lines are indented by so many steps more
    Open(usize),
    Close,
}

/// A text with places where a line may end, in groups.
///
/// Oppen, "Prettyprinting", 1980; Wadler, "A prettier printer", 2003.
#[derive(Drop)]
pub struct Layout {
    alloc: Global,
    bytes: Vec<u8>,
    pieces: Vec<Piece>,
}

impl Layout {
    /// A layout with nothing in it. Takes no memory.
    pub fn new(alloc: Global) -> Layout {
        Layout {
            alloc,
            bytes: Vec::new(alloc),
            pieces: Vec::new(alloc),
        }
    }

    /// What the layout takes its memory from.
    pub fn alloc(&self) -> Global {
        self.alloc
    }

    /// Adds a text, in which no line ends. A character of UTF-8 takes one column. `Err` is out of memory, also where
    /// the layout would have more than 64 MiB or more than 16,777,216 pieces.
    pub fn put(&mut self, text: &[u8]) -> Result<(), Mem> {
        self.put_as(text, columns(text))
    }

    /// Adds a text, in which no line ends, as one of so many columns. `Err` is as in `put`.
    pub fn put_as(&mut self, text: &[u8], columns: usize) -> Result<(), Mem> {
        let length = self.keep(text, columns)?;
        if let Some(Piece::Text(last)) = self.pieces.last_mut() {
            last.bytes = last.bytes.saturating_add(length.bytes);
            last.columns = last.columns.saturating_add(length.columns);
            return Ok(());
        }
        self.add(Piece::Text(length))
    }

    /// Adds a place where a line may end: there the group has a new line, or this text of so many columns where it
    /// stands on one line. `Err` is as in `put`.
    pub fn put_break(&mut self, flat: &[u8], columns: usize) -> Result<(), Mem> {
        let length = self.keep(flat, columns)?;
        self.add(Piece::Break(length))
    }

    /// Adds a place where a line may end, as `put_break` does. The new line is indented as the text round the group:
    /// it is for the bracket that closes the group. `Err` is as in `put`.
    pub fn put_last(&mut self, flat: &[u8], columns: usize) -> Result<(), Mem> {
        let length = self.keep(flat, columns)?;
        self.add(Piece::Last(length))
    }

    /// Begins a group, whose new lines are indented by so many steps more than the text round it. A group that is
    /// not closed ends with the layout. `Err` is as in `put`.
    pub fn open(&mut self, steps: usize) -> Result<(), Mem> {
        self.add(Piece::Open(steps))
    }

    /// Ends the innermost group that has begun, if there is one. `Err` is as in `put`.
    pub fn close(&mut self) -> Result<(), Mem> {
        self.add(Piece::Close)
    }

    // Adds a piece.
    fn add(&mut self, piece: Piece) -> Result<(), Mem> {
        if self.pieces.len() >= MOST_PIECES {
            return Err(Mem);
        }
        self.pieces.push(piece)?;
        Ok(())
    }

    // Keeps the bytes of a text of so many columns, and gives its length.
    fn keep(&mut self, text: &[u8], columns: usize) -> Result<Length, Mem> {
        if text.len() > MOST_BYTES.saturating_sub(self.bytes.len()) {
            return Err(Mem);
        }
        self.bytes.extend_from_slice(text)?;
        Ok(Length {
            bytes: text.len(),
            columns,
        })
    }

    // The bytes of all texts.
    pub(crate) fn bytes(&self) -> &[u8] {
        self.bytes.as_slice()
    }

    // The pieces, in their order.
    pub(crate) fn pieces(&self) -> &[Piece] {
        self.pieces.as_slice()
    }
}

// How many characters of UTF-8 a text has: its bytes without those that go on a character, 128 to 191.
fn columns(text: &[u8]) -> usize
    ensures { result ≡ count_by (λ b. not (nat_le 128 b && nat_lt b 192)) text.now }
{
    text.iter()
        .filter(|byte| !(128 <= **byte && **byte < 192))
        .count()
}
