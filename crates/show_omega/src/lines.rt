// Omega text with line breaks, indentation and comments.
ghost use Rattle.std.specs.Prelude.{◌≡◌, IfOk};
ghost use Rattle.omega_compact.specs.Spelling.{compacted};

use omega_compact::{Token, compact, tokens};
use omega_kinds::Mem;
use show_layout::{Layout, Lines, put_layout};
use show_text::Page;
use std::alloc::Global;

// How lines of Omega text end, and what a step of their indentation is.
const LINES: Lines = Lines {
    end: "",
    step: "  ",
};

// What stands above the type, and above the term.
const ABOVE_TYPE: &[u8] = b"; the type";

const ABOVE_TERM: &[u8] = b"; the term";

// How far a text is laid out: how many parentheses are open, how many items stand outside all of them, and what the
// next token stands behind.
#[derive(Clone, Copy, Debug, PartialEq, Eq)]
struct Place {
    depth: usize,
    items: usize,
    behind: Behind,
}

// What a token stands behind: nothing, a parenthesis that opens its form, or another item.
#[derive(Clone, Copy, Debug, PartialEq, Eq)]
enum Behind {
    Nothing,
    Open,
    Item,
}

// The beginning of a text.
const BEGIN: Place = Place {
    depth: 0,
    items: 0,
    behind: Behind::Nothing,
};

/// A text with the same tokens as this one, laid out in lines of 100 columns, with a comment above the type and above
/// the term. A form stands on one line if it fits there, and else each of its parts has a line. `Err` is out of
/// memory.
pub fn readable(alloc: Global, text: &[u8]) -> Result<Vec<u8>, Mem>
    ensures { IfOk result (λ shown. compacted shown.items ≡ compacted text.now) }
{
    let shown = laid_out(alloc, text)?;
    checked(alloc, text, shown)
}

// A text that was laid out, if it is made compact to the same text; else this text as it is.
fn checked(alloc: Global, text: &[u8], shown: Vec<u8>) -> Result<Vec<u8>, Mem>
    ensures { IfOk result (λ shown. compacted shown.items ≡ compacted text.now) }
{
    let wanted = compact(alloc, text)?;
    let found = compact(alloc, &shown)?;
    if found.as_slice() == wanted.as_slice() {
        return Ok(shown);
    }
    Ok(text.to_vec(alloc)?)
}

// The tokens of a text, laid out.
fn laid_out(alloc: Global, text: &[u8]) -> Result<Vec<u8>, Mem> {
    let tokens = tokens(alloc, text)?;
    let mut layout = Layout::new(alloc);
    let mut place = BEGIN;
    for token in &tokens {
        place = put_next(&mut layout, place, *token)?;
    }
    let mut page = Page::new(alloc);
    put_layout(&mut page, &layout, LINES)?;
    page.put(b"\n")?;
    Ok(page.into_bytes())
}

// Puts the next token, with what stands before it, and gives the place behind it.
fn put_next(layout: &mut Layout, place: Place, token: Token<'_>) -> Result<Place, Mem> {
    if token == Token::Close {
        layout.put(b")")?;
        layout.close()?;
        return Ok(behind_item(place, place.depth.saturating_sub(1)));
    }
    put_gap(layout, place)?;
    put_token(layout, token)?;
    if token == Token::Open {
        return Ok(Place {
            depth: place.depth.saturating_add(1),
            behind: Behind::Open,
            items: place.items,
        });
    }
    Ok(behind_item(place, place.depth))
}

// The place behind an item, where so many parentheses are open.
fn behind_item(place: Place, depth: usize) -> Place {
    let items = if depth == 0 {
        place.items.saturating_add(1)
    } else {
        place.items
    };
    Place {
        depth,
        items,
        behind: Behind::Item,
    }
}

// Puts what stands before a token that closes no form.
fn put_gap(layout: &mut Layout, place: Place) -> Result<(), Mem> {
    if place.behind != Behind::Item {
        return Ok(());
    }
    if place.depth > 0 {
        return layout.put_break(b" ", 1);
    }
    match place.items {
        1 => layout.put(b" "),
        2 => put_comment(layout, ABOVE_TYPE),
        3 => put_comment(layout, ABOVE_TERM),
        _ => layout.put_break(b" ", 1),
    }
}

// Puts a comment on a line of its own.
fn put_comment(layout: &mut Layout, comment: &[u8]) -> Result<(), Mem> {
    layout.put_break(b" ", 1)?;
    layout.put(comment)?;
    layout.put_break(b" ", 1)
}

// Puts a token. A parenthesis that opens a form begins a group.
fn put_token(layout: &mut Layout, token: Token<'_>) -> Result<(), Mem> {
    match token {
        Token::Open => {
            layout.open(1)?;
            layout.put(b"(")
        }
        Token::Close => layout.put(b")"),
        Token::Word(bytes) => layout.put(bytes),
        Token::Quoted(bytes) => {
            layout.put(b"\"")?;
            layout.put(bytes)?;
            layout.put(b"\"")
        }
        Token::Unended(bytes) => {
            layout.put(b"\"")?;
            layout.put(bytes)
        }
    }
}
