// The lines of the page of a refusal, and which styles they have.
ghost use Rattle.std.specs.Prelude.{◌≤◌, length};

use crate::style::Style;

/// Where a line is cut in two, and the styles of its parts.
#[derive(Clone, Copy, Debug, PartialEq, Eq)]
pub(crate) struct Cut {
    pub(crate) head: Style,
    pub(crate) at: usize,
    pub(crate) rest: Style,
}

// The words that begin a line of a note.
const NOTES: [&[u8]; 3] = [b"hint:", b"note:", b"expected:"];

/// Where a line is cut, and the styles of its parts.
pub(crate) fn cut_of(line: &[u8]) -> Cut
    ensures { result.at ≤ length line.now }
{
    if line.starts_with(b"error:") {
        return cut_at(line, Style::Error, 6);
    }
    if let Some(word) = NOTES.iter().find(|word| line.starts_with(word)) {
        return cut_at(line, Style::Note, word.len());
    }
    let frame = frame_length(line);
    Cut {
        rest: rest_style(line, frame),
        ..cut_at(line, Style::Frame, frame)
    }
}

// A line that is cut behind so many bytes of a style.
fn cut_at(line: &[u8], head: Style, at: usize) -> Cut
    ensures { result.at ≤ length line.now }
{
    Cut {
        head,
        at: at.min(line.len()),
        rest: Style::Plain,
    }
}

// How many bytes of a line are the frame of an excerpt: an arrow or a bar, with the number or the spaces before it.
fn frame_length(line: &[u8]) -> usize {
    let margin = line
        .iter()
        .position(|byte| !matches!(byte, b' ' | b'0'..=b'9'));
    let margin = margin.unwrap_or(0);
    match line.get(margin..) {
        Some([b'|', ..]) => margin.saturating_add(1),
        Some([b'-', b'-', b'>', ..]) => margin.saturating_add(3),
        _ => 0,
    }
}

// The style of what stands behind the frame: a mark, if there is nothing else.
fn rest_style(line: &[u8], frame: usize) -> Style {
    let rest = line.get(frame..).unwrap_or(b"");
    if frame > 0 && rest.contains(&b'^') && rest.iter().all(|byte| matches!(byte, b' ' | b'^')) {
        Style::Error
    } else {
        Style::Plain
    }
}
