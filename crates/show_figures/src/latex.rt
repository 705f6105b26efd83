// Trees of rules in LaTeX.
use crate::drawing::Node;
use crate::escaped::put_latex;
use crate::text::put_cut;
use omega_kinds::Mem;
use show_rules::DEFINITIONS;
use show_text::Page;

/// Writes what stands before the tree: a comment.
pub(crate) fn begin(page: &mut Page) -> Result<(), Mem> {
    page.put(
        b"% for math mode, with \\usepackage{proof}\n% the rules of phrases are constructors in ",
    )?;
    page.put_all(&[
        DEFINITIONS.as_bytes(),
        b"; docs/language has their figures\n",
    ])
}

/// Writes a node, behind one of the same depth or not. If it has parts, they follow in its last brackets.
pub(crate) fn put(
    page: &mut Page,
    node: Node<'_>,
    is_behind: bool,
    phrase: &[u8],
    meant: &[u8],
) -> Result<(), Mem> {
    if is_behind {
        page.put(b"&\n")?;
    }
    page.put(b"\\infer[\\mathsf{")?;
    put_latex(page, node.rule.name().as_bytes())?;
    page.put(b"}]{")?;
    if !phrase.is_empty() {
        page.put(b"\\texttt{")?;
        put_latex(page, phrase)?;
        page.put(b"}\\ ")?;
    }
    page.put_all(&[meant.trim_ascii_end(), b"}{"])?;
    if node.has_parts {
        return page.put(b"\n");
    }
    page.put(b"}\n")
}

/// Writes the end of a node with parts.
pub(crate) fn close(page: &mut Page) -> Result<(), Mem> {
    page.put(b"}\n")
}

/// Writes what stands behind the tree: a comment if nodes are left out.
pub(crate) fn end(page: &mut Page, is_cut: bool) -> Result<(), Mem> {
    if is_cut {
        page.put(b"% ")?;
        put_cut(page)?;
        page.put(b"\n")?;
    }
    Ok(())
}
