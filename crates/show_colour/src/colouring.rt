// Pages in colour, written line by line.
ghost use Rattle.std.specs.Prelude.{◌≡◌, ◌++◌, ◌≤◌, ◌<◌, [], ℕ, List, IfOk, length};
ghost use Rattle.show_colour.specs.Inner.Coloured.{IsColoured};

use crate::lines::{Cut, cut_of};
use crate::style::{Style, sign_of};
use omega_kinds::Mem;
use std::alloc::Global;

// Writes a text in a style at the end of a page in colour.
fn put_styled(shown: &mut Vec<u8>, style: Style, text: &[u8]) -> Result<(), Mem>
    ensures { IfOk result (λ _. (page : List ℕ) → IsColoured page shown.old.items → IsColoured (page ++ text.now) shown.new.items) }
{
    if text.is_empty() {
        return Ok(());
    }
    shown.extend_from_slice(sign_of(style))?;
    shown.extend_from_slice(text)?;
    shown.extend_from_slice(sign_of(Style::Plain))?;
    Ok(())
}

// Writes a text at the end of a page in colour, with signs only for a style that is not plain.
fn put_piece(shown: &mut Vec<u8>, style: Style, text: &[u8]) -> Result<(), Mem>
    ensures { IfOk result (λ _. (page : List ℕ) → IsColoured page shown.old.items → IsColoured (page ++ text.now) shown.new.items) }
{
    if style != Style::Plain {
        return put_styled(shown, style, text);
    }
    shown.extend_from_slice(text)?;
    Ok(())
}

// How many bytes a line has without its end.
fn text_length(line: &[u8]) -> usize
    ensures { result ≤ length line.now }
{
    if line.ends_with(b"\n") {
        line.len().saturating_sub(1)
    } else {
        line.len()
    }
}

// Writes a line at the end of a page in colour. No style goes on past the end of the line.
fn put_line(shown: &mut Vec<u8>, line: &[u8]) -> Result<(), Mem>
    ensures { IfOk result (λ _. (page : List ℕ) → IsColoured page shown.old.items → IsColoured (page ++ line.now) shown.new.items) }
{
    let (text, end) = line.split_at(text_length(line));
    let Cut { head, at, rest } = cut_of(text);
    let (front, back) = text.split_at(at);
    put_piece(shown, head, front)?;
    put_piece(shown, rest, back)?;
    put_piece(shown, Style::Plain, end)?;
    Ok(())
}

// How many bytes the first line has, with its end.
fn line_length(text: &[u8]) -> usize
    requires { 0 < length text.now }
    ensures some { 0 < result }
    ensures within { result ≤ length text.now }
{
    match text.iter().position(|byte| *byte == b'\n') {
        Some(end) => end + 1,
        None => text.len(),
    }
}

/// The page of a refusal in colour, for a terminal: the page with signs of colour between its bytes. `Err` is out of
/// memory.
pub fn coloured(alloc: Global, page: &[u8]) -> Result<Vec<u8>, Mem>
    ensures { IfOk result (λ shown. IsColoured page.now shown.items) }
{
    let mut shown = Vec::new(alloc);
    let mut rest = page;
    while !rest.is_empty() {
        let (line, further) = rest.split_at(line_length(rest));
        put_line(&mut shown, line)?;
        rest = further;
    }
    Ok(shown)
}
