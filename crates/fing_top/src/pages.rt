// The replies of `check` and `emit`, which are gathered on a page and handed to the sink as a whole.
ghost use Rattle.std.specs.Prelude.{◌≡◌, [], IfSome, Some};
ghost use Rattle.fing_text.specs.Writes.{Wrote};
ghost use Rattle.fing_top.specs.Inner.Page.{page_told};
ghost use Rattle.omega_terms.specs.InScope.{TermInScope, TyInScope};
ghost use Rattle.omega_terms.specs.OmegaText.{omega_text};
ghost use Rattle.sig_text.specs.Inner.SigInScope.{AbsInScope};
ghost use Rattle.sig_text.specs.SigText.{elab_text};

use fing_text::{Failed, Sink, WriteFault, put};
use omega_kinds::Effect;
use omega_terms::Term;
use omega_types::Ty;
use omega_write::write_omega;
use semantic_sigs::Abs;
use sig_text::write_elab;
use std::alloc::Global;

// The most bytes that a page holds: 256 MiB.
const PAGE: usize = 268435456;

// A sink in memory that grows with what is written, and fails where it would hold more than a page, or finds no memory.
#[derive(Drop)]
struct Page {
    bytes: Vec<u8>,
    faults: u64,
}

impl Page {
    // A page with nothing on it. Takes no memory.
    fn new(alloc: Global) -> Page
        ensures { page_told result ≡ record { bytes = Some []; faults = 0 } }
    {
        Page {
            bytes: Vec::new(alloc),
            faults: 0,
        }
    }
}

impl Sink for Page {
    ghost told = { page_told };

    fn write(&mut self, piece: &[u8]) -> Result<usize, Failed> {
        if piece.len() <= PAGE.saturating_sub(self.bytes.len())
            && self.bytes.extend_from_slice(piece).is_ok()
        {
            return Ok(piece.len());
        }
        self.faults = self.faults.saturating_add(1);
        Err(Failed)
    }
}

// An effect and a signature on a page; `None` where the page has no room, or there is no memory for it.
fn elab_page(alloc: Global, effect: Effect, sig: &Abs) -> Option<Vec<u8>>
    requires { AbsInScope 0 sig.now }
    ensures { IfSome result (λ bytes. bytes.items ≡ elab_text effect sig.now) }
{
    let mut page = Page::new(alloc);
    write_elab(&mut page, effect, sig).ok()?;
    Some(page.bytes)
}

// A type and a term as Omega text on a page; `None` where the page has no room, or there is no memory for it.
fn omega_page(alloc: Global, ty: &Ty, term: &Term) -> Option<Vec<u8>>
    requires ty { TyInScope 0 ty.now }
    requires term { TermInScope 0 0 term.now }
    ensures { IfSome result (λ bytes. bytes.items ≡ omega_text ty.now term.now) }
{
    let mut page = Page::new(alloc);
    write_omega(&mut page, ty, term).ok()?;
    Some(page.bytes)
}

// Writes an effect and a closed signature on a line: from a page, or else piece by piece.
pub(crate) fn put_elab<K: Sink>(
    alloc: Global,
    sink: &mut K,
    effect: Effect,
    sig: &Abs,
) -> Result<(), WriteFault>
    requires { AbsInScope 0 sig.now }
    ensures { Wrote (K.told sink.old) (K.told sink.new) (elab_text effect sig.now) result }
{
    match elab_page(alloc, effect, sig) {
        Some(bytes) => put(sink, &bytes),
        None => write_elab(sink, effect, sig),
    }
}

// Writes a closed type and a closed term as Omega text: from a page, or else piece by piece.
pub(crate) fn put_omega<K: Sink>(
    alloc: Global,
    sink: &mut K,
    ty: &Ty,
    term: &Term,
) -> Result<(), WriteFault>
    requires ty { TyInScope 0 ty.now }
    requires term { TermInScope 0 0 term.now }
    ensures { Wrote (K.told sink.old) (K.told sink.new) (omega_text ty.now term.now) result }
{
    match omega_page(alloc, ty, term) {
        Some(bytes) => put(sink, &bytes),
        None => write_omega(sink, ty, term),
    }
}
