// A redex in its frames: a term with its next step marked.
use crate::forms::{end_ready, is_grouped, put_after, put_before, put_ready, room_in, room_ready};
use omega_kinds::Mem;
use omega_machine::{Frame, Redex};
use show_paper::UNICODE;
use show_terms::{Room, TermWriter, put_part};
use show_text::Page;
use std::alloc::Global;

// How many of the innermost frames are written.
const FRAMES: usize = 8;
// In how many forms a part may stand: a part of a redex before its end, and any other part.
const WITHIN: u32 = 5;

const BESIDE: u32 = 3;

/// The page of a redex in frames, the outermost first: the redex stands between marks, in the innermost 8 frames. Each
/// line is indented by a step. `Err` is out of memory.
pub(crate) fn marked_page(alloc: Global, frames: &[Frame], redex: &Redex) -> Result<Page, Mem> {
    let mut writer = TermWriter::new(alloc, &UNICODE);
    writer.text.open()?;
    writer.text.put("  ")?;
    let outer = frames.len().saturating_sub(FRAMES);
    let inner = frames.get(outer..).unwrap_or(&[]);
    if outer > 0 {
        writer.put_cut()?;
        writer.text.put_space()?;
    }
    put_openings(&mut writer, inner)?;
    put_redex(&mut writer, redex)?;
    put_endings(&mut writer, inner)?;
    if outer > 0 {
        writer.text.put_space()?;
        writer.put_cut()?;
    }
    writer.text.close()?;
    writer.text.page()
}

// Writes a redex between marks.
fn put_redex(writer: &mut TermWriter, redex: &Redex) -> Result<(), Mem> {
    writer.limit(WITHIN);
    writer.text.put("«")?;
    put_ready(writer, &redex.form)?;
    put_part(writer, &redex.value, room_ready(&redex.form))?;
    writer.limit(BESIDE);
    end_ready(writer, &redex.form)?;
    writer.text.put("»")
}

// Which terms stand at the place of a frame without parentheses: all at that of the outermost one.
fn room_at(frames: &[Frame], place: usize) -> Room {
    let outer = place.checked_sub(1).and_then(|place| frames.get(place));
    outer.map_or(Room::Whole, room_in)
}

// Writes what stands before the innermost hole of frames.
fn put_openings(writer: &mut TermWriter, frames: &[Frame]) -> Result<(), Mem> {
    for place in 0..frames.len() {
        put_opening(writer, &frames[place], room_at(frames, place))?;
    }
    Ok(())
}

// Writes what stands before the hole of a frame at a place.
fn put_opening(writer: &mut TermWriter, frame: &Frame, room: Room) -> Result<(), Mem> {
    writer.limit(BESIDE);
    if is_grouped(frame, room) {
        writer.text.put("(")?;
    }
    put_before(writer, frame)
}

// Writes what stands after the innermost hole of frames.
fn put_endings(writer: &mut TermWriter, frames: &[Frame]) -> Result<(), Mem> {
    for place in (0..frames.len()).rev() {
        put_ending(writer, &frames[place], room_at(frames, place))?;
    }
    Ok(())
}

// Writes what stands after the hole of a frame at a place.
fn put_ending(writer: &mut TermWriter, frame: &Frame, room: Room) -> Result<(), Mem> {
    writer.limit(BESIDE);
    put_after(writer, frame)?;
    if is_grouped(frame, room) {
        writer.text.put(")")?;
    }
    Ok(())
}
