// A type and a term as Omega text for people.
ghost use Rattle.std.specs.Prelude.{◌≡◌, [], IfOk, IfSome, Some};
ghost use Rattle.omega_compact.specs.Spelling.{compacted};
ghost use Rattle.omega_terms.specs.InScope.{TermInScope, TyInScope};
ghost use Rattle.omega_terms.specs.OmegaText.{omega_text};
ghost use Rattle.show_omega.specs.Inner.Text.{text_told};

use crate::lines::readable;
use fing_text::{Failed, Sink};
use omega_kinds::Mem;
use omega_terms::Term;
use omega_types::Ty;
use omega_write::write_omega;
use std::alloc::Global;

// The most bytes that a text holds: 64 MiB.
const MOST: usize = 67108864;

// A sink in memory that grows with what is written, and fails where it would hold more, or finds no memory.
#[derive(Drop)]
struct Text {
    bytes: Vec<u8>,
    faults: u64,
}

impl Text {
    // A text with nothing in it. Takes no memory.
    fn new(alloc: Global) -> Text
        ensures { text_told result ≡ record { bytes = Some []; faults = 0 } }
    {
        Text {
            bytes: Vec::new(alloc),
            faults: 0,
        }
    }
}

impl Sink for Text {
    ghost told = { text_told };

    fn write(&mut self, piece: &[u8]) -> Result<usize, Failed> {
        if piece.len() <= MOST.saturating_sub(self.bytes.len())
            && self.bytes.extend_from_slice(piece).is_ok()
        {
            return Ok(piece.len());
        }
        self.faults = self.faults.saturating_add(1);
        Err(Failed)
    }
}

// A type and a term as Omega text; `None` where it has more than 64 MiB, or there is no memory for it.
fn omega_bytes(alloc: Global, ty: &Ty, term: &Term) -> Option<Vec<u8>>
    requires ty { TyInScope 0 ty.now }
    requires term { TermInScope 0 0 term.now }
    ensures { IfSome result (λ bytes. bytes.items ≡ omega_text ty.now term.now) }
{
    let mut text = Text::new(alloc);
    write_omega(&mut text, ty, term).ok()?;
    Some(text.bytes)
}

/// A closed type and a closed term as Omega text for people, which is made compact to the one that `emit` writes of
/// them. `Err` is out of memory, also where that text has more than 64 MiB.
pub fn readable_omega(alloc: Global, ty: &Ty, term: &Term) -> Result<Vec<u8>, Mem>
    requires ty { TyInScope 0 ty.now }
    requires term { TermInScope 0 0 term.now }
    ensures { IfOk result (λ shown. compacted shown.items ≡ compacted (omega_text ty.now term.now)) }
{
    match omega_bytes(alloc, ty, term) {
        Some(bytes) => readable(alloc, &bytes),
        None => Err(Mem),
    }
}
