// Kinds, in the syntax of a source.
use omega_kinds::{Kind, Mem};
use show_text::Page;

/// Writes a kind: `Type`, or an arrow between kinds, which groups to the right. `Err` is out of memory.
#[cycle(kinds)]
pub fn put_kind(page: &mut Page, kind: &Kind) -> Result<(), Mem> {
    match kind {
        Kind::Star => page.put(b"Type"),
        Kind::Arrow(from, to, _) => {
            put_from(page, from)?;
            page.put(b" -> ")?;
            put_kind(page, to)
        }
    }
}

// Writes what stands before an arrow: an arrow in parentheses.
#[cycle(kinds)]
fn put_from(page: &mut Page, kind: &Kind) -> Result<(), Mem> {
    if let Kind::Star = kind {
        return page.put(b"Type");
    }
    page.put(b"(")?;
    put_kind(page, kind)?;
    page.put(b")")
}
