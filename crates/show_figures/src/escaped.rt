// Text in HTML and in LaTeX.
use omega_kinds::Mem;
use show_paper::LATEX;
use show_text::Page;

/// Writes text so that HTML shows it as it is. `Err` is out of memory.
pub(crate) fn put_html(page: &mut Page, text: &[u8]) -> Result<(), Mem> {
    for byte in text {
        match *byte {
            b'<' => page.put(b"&lt;")?,
            b'>' => page.put(b"&gt;")?,
            b'&' => page.put(b"&amp;")?,
            b'"' => page.put(b"&quot;")?,
            other => page.put(&[other])?,
        }
    }
    Ok(())
}

/// Writes text so that LaTeX shows it as it is. `Err` is out of memory.
pub(crate) fn put_latex(page: &mut Page, text: &[u8]) -> Result<(), Mem> {
    for byte in text {
        let found = LATEX.specials.iter().find(|special| special.byte == *byte);
        match found {
            Some(special) => page.put(special.text.as_bytes())?,
            None => page.put(&[*byte])?,
        }
    }
    Ok(())
}
