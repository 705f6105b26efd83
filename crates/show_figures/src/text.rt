// Trees of rules as text.
use crate::drawing::Node;
use omega_kinds::Mem;
use show_rules::{DEEPEST, DEFINITIONS, MOST};
use show_text::Page;

/// Writes a node on lines of its own, indented by its depth: its rule, its phrase, and what this means.
pub(crate) fn put(page: &mut Page, node: Node<'_>, phrase: &[u8], meant: &[u8]) -> Result<(), Mem> {
    let columns = (node.depth as usize).saturating_mul(2);
    page.put_times(b' ', columns)?;
    page.put_all(&[b"(", node.rule.name().as_bytes(), b")"])?;
    if !phrase.is_empty() {
        page.put_all(&[b" `", phrase, b"`"])?;
    }
    put_lines(page, columns.saturating_add(4), meant)
}

// Writes lines, the first one behind what stands there, the others with so many blanks before them.
fn put_lines(page: &mut Page, columns: usize, lines: &[u8]) -> Result<(), Mem> {
    let mut is_first = true;
    for line in lines.trim_ascii_end().split(|byte| *byte == b'\n') {
        if is_first {
            page.put(b" ")?;
        } else {
            page.put_times(b' ', columns)?;
        }
        is_first = false;
        page.put_all(&[line, b"\n"])?;
    }
    Ok(())
}

/// Writes what stands at the end: whether nodes are left out, and where the rules are.
pub(crate) fn end(page: &mut Page, is_cut: bool) -> Result<(), Mem> {
    if is_cut {
        put_cut(page)?;
        page.put(b"\n")?;
    }
    page.put(b"The rules of phrases are constructors in ")?;
    page.put(DEFINITIONS.as_bytes())?;
    page.put(b"; docs/language has their figures.\n")
}

/// Writes that nodes are left out.
pub(crate) fn put_cut(page: &mut Page) -> Result<(), Mem> {
    page.put(b"Phrases are left out: those in more than ")?;
    page.put_number(DEEPEST as u64)?;
    page.put(b" others, and those behind the first ")?;
    page.put_number(MOST as u64)?;
    page.put(b" ones.")
}
