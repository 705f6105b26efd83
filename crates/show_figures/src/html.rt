// Trees of rules as pages of HTML.
use crate::drawing::Node;
use crate::escaped::put_html;
use crate::text::put_cut;
use omega_kinds::Mem;
use show_rules::DEFINITIONS;
use show_text::Page;

// What stands before the name of the source, and behind it.
const HEAD: &str = "<!DOCTYPE html>
<html lang=\"en\">
<head>
<meta charset=\"utf-8\">
<title>Derivation of ";

const STYLE: &str = "</title>
<style>
body { font-family: sans-serif; margin: 1em }
details, .leaf { margin-left: 1.5em }
summary, .leaf { padding: 0.1em 0 }
code { background: #eee }
span { display: inline-block; font-family: monospace; vertical-align: top; white-space: pre }
</style>
</head>
<body>
<p>Each rule leads to its figure. The rules of phrases are constructors in <a href=\"";

/// Writes what stands before the tree.
pub(crate) fn begin(page: &mut Page, name: &[u8]) -> Result<(), Mem> {
    page.put(HEAD.as_bytes())?;
    put_html(page, name)?;
    page.put(STYLE.as_bytes())?;
    page.put_all(&[DEFINITIONS.as_bytes(), b"\">", DEFINITIONS.as_bytes()])?;
    page.put(b"</a>.</p>\n")
}

/// Writes a node. If it has parts, they follow, and it can be folded.
pub(crate) fn put(page: &mut Page, node: Node<'_>, phrase: &[u8], meant: &[u8]) -> Result<(), Mem> {
    page.put(match node.has_parts {
        true => b"<details open><summary>".as_slice(),
        false => b"<div class=\"leaf\">",
    })?;
    page.put_all(&[b"<a href=\"docs/language/", node.rule.page().as_bytes()])?;
    page.put_all(&[b"\">", node.rule.name().as_bytes(), b"</a> "])?;
    if !phrase.is_empty() {
        page.put(b"<code>")?;
        put_html(page, phrase)?;
        page.put(b"</code> ")?;
    }
    page.put(b"<span>")?;
    put_html(page, meant.trim_ascii_end())?;
    page.put(match node.has_parts {
        true => b"</span></summary>\n".as_slice(),
        false => b"</span></div>\n",
    })
}

/// Writes the end of a node with parts.
pub(crate) fn close(page: &mut Page) -> Result<(), Mem> {
    page.put(b"</details>\n")
}

/// Writes what stands behind the tree.
pub(crate) fn end(page: &mut Page, is_cut: bool) -> Result<(), Mem> {
    if is_cut {
        page.put(b"<p>")?;
        put_cut(page)?;
        page.put(b"</p>\n")?;
    }
    page.put(b"</body>\n</html>\n")
}
