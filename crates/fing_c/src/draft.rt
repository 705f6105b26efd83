// The sink that gathers a reply for a page.
ghost use Rattle.std.specs.Prelude.{◌≡◌, ◌↔◌, ◌≤◌, [], IsTrue, length, take, drop};
ghost use Rattle.fing_text.specs.Writes.{Writes};
ghost use Rattle.fing_c.specs.Inner.Drafted.{draft_told};

use fing_text::{Failed, Sink};
use std::alloc::Global;
use std::marker::Model;

// The beginning of a reply, in memory, with room for so many bytes. It grows as it is written. A write fails where the
// draft is full, and where there is no memory. Contracts see what was written, the room as a whole, and the count of
// faults.
#[derive(Drop)]
pub struct Draft {
    bytes: Vec<u8>,
    room: usize,
    faults: u64,
}

impl Model for Draft {
    ghost use Rattle.std.specs.Prelude.{length, ◌≤◌};
    ghost use Rattle.fing_c.specs.Inner.Drafted.{Drafted};

    ghost Value = { Drafted };

    ghost view = { λ d. record { written = d.bytes.items; room = d.room; faults = d.faults } };

    ghost invariant = { λ d. length d.bytes.items ≤ d.room };
}

impl Draft {
    // A draft with room for so many bytes and nothing written. Takes no memory.
    pub fn new(alloc: Global, room: usize) -> Draft
        ensures { result ≡ record { written = []; room = room; faults = 0 } }
    {
        Draft {
            bytes: Vec::new(alloc),
            room,
            faults: 0,
        }
    }

    // Whether no byte goes in any more.
    pub fn is_full(&self) -> bool
        ensures { IsTrue result ↔ (length self.now.written ≡ self.now.room) }
    {
        self.bytes.len() == self.room
    }

    // Copies what was written to the beginning of a page that is as long as the room, and gives how many bytes it has.
    pub fn copy_to(&self, page: &mut [u8]) -> usize
        requires { length page.old ≡ self.now.room }
        ensures within { result ≤ length page.new }
        ensures written { take result page.new ≡ self.now.written }
        ensures rest { drop result page.new ≡ drop result page.old }
    {
        let count = self.bytes.len();
        page[..count].copy_from_slice(&self.bytes);
        count
    }
}

impl Sink for Draft {
    ghost told = { draft_told };

    fn write(&mut self, piece: &[u8]) -> Result<usize, Failed>
        ensures { Writes (draft_told self.old) (draft_told self.new) piece.now result }
    {
        let count = piece.len().min(self.room - self.bytes.len());
        if (count > 0 || piece.is_empty())
            && self.bytes.extend_from_slice(&piece[..count]).is_ok()
        {
            return Ok(count);
        }
        self.faults = self.faults.saturating_add(1);
        Err(Failed)
    }
}
