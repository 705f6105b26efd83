// The sentence of a refusal, with its names and its types.
use crate::explanation::Explanation;
use fing_refusals::{ElabWhy, Refusal};
use omega_kinds::{Kind, Mem, Name};
use semantic_sigs::{Item, Path, Why};
use show_text::Page;
use show_types::{Naming, put_kind, put_ty};
use type_normal::{NormalTy, plain};

// Something that a refusal tells.
#[derive(Clone, Copy)]
enum Part<'a> {
    Name(&'a Name),
    Path(&'a Path),
    Kind(&'a Kind),
    Ty(&'a NormalTy),
}

/// Writes the sentence of a refusal, with what the refusal tells in quotes. The outermost type variables in scope have
/// the names that are handed in. One without a name, which the reply of `check` calls `aN`, is `?N`, and a note says
/// so where there is one. `Err` is out of memory.
pub fn put_sentence(
    page: &mut Page,
    names: Vec<Option<Name>>,
    refusal: &Refusal,
    explanation: Explanation,
) -> Result<(), Mem> {
    let mut naming = Naming::named(page.alloc(), names, refusal.types)?;
    let parts = parts_of(&refusal.why);
    let from = page.bytes().len();
    put_filled(page, &mut naming, explanation.sentence, &parts)?;
    page.put(b"\n")?;
    let written = page.bytes().get(from..).unwrap_or(b"");
    if written.contains(&b'?') {
        page.put(NOTE)?;
    }
    Ok(())
}

// What is said where a type variable without a name is shown.
const NOTE: &[u8] =
    b"note: `?N` is a hidden type or a type parameter: the one that `check` calls `aN`\n";

// What a reason tells, in the order of its sentence.
fn parts_of(why: &ElabWhy) -> [Option<Part<'_>>; 3] {
    match why {
        ElabWhy::Unbound(name)
        | ElabWhy::NoPart(name)
        | ElabWhy::NoField(name)
        | ElabWhy::DuplicateField(name)
        | ElabWhy::NoBranch(name)
        | ElabWhy::Duplicate(name) => [Some(Part::Name(name)), None, None],
        ElabWhy::NotArrow(ty)
        | ElabWhy::NotAll(ty)
        | ElabWhy::NotRecord(ty)
        | ElabWhy::NotSum(ty)
        | ElabWhy::NotData(ty) => [Some(Part::Ty(ty)), None, None],
        ElabWhy::NoRoot { path, .. } | ElabWhy::NotAbstract(path) => {
            [Some(Part::Path(path)), None, None]
        }
        ElabWhy::Clash { path, why } => clash_parts(path, why),
        ElabWhy::Differ(found, needed) => [Some(Part::Ty(found)), Some(Part::Ty(needed)), None],
        ElabWhy::KindDiffer(found, needed) => {
            [Some(Part::Kind(found)), Some(Part::Kind(needed)), None]
        }
        _ => [None, None, None],
    }
}

// What a clash at a path tells.
fn clash_parts<'a>(path: &'a Path, why: &'a Why) -> [Option<Part<'a>>; 3] {
    let at = Some(Part::Path(path));
    match why {
        Why::Types(left, right) => [at, Some(Part::Ty(left)), Some(Part::Ty(right))],
        _ => [at, None, None],
    }
}

// Writes a text with parts in place of each `#`.
fn put_filled(
    page: &mut Page,
    naming: &mut Naming,
    text: &str,
    parts: &[Option<Part<'_>>],
) -> Result<(), Mem> {
    let mut parts = parts.iter();
    for piece in text.as_bytes().split(|byte| *byte == b'#') {
        page.put(piece)?;
        if let Some(Some(part)) = parts.next() {
            put_part(page, naming, *part)?;
        }
    }
    Ok(())
}

// Writes a part in quotes.
fn put_part(page: &mut Page, naming: &mut Naming, part: Part<'_>) -> Result<(), Mem> {
    page.put(b"`")?;
    match part {
        Part::Name(name) => page.put(name.bytes())?,
        Part::Path(path) => put_path(page, path)?,
        Part::Kind(kind) => put_kind(page, kind)?,
        Part::Ty(ty) => put_ty(page, naming, plain(ty))?,
    }
    page.put(b"`")
}

// Writes a path: its steps with dots between them, or a dot for the whole module.
fn put_path(page: &mut Page, path: &Path) -> Result<(), Mem> {
    let mut between: &[u8] = b"";
    for item in path.items() {
        page.put(between)?;
        page.put(step_text(item))?;
        between = b".";
    }
    if path.items().is_empty() {
        return page.put(b".");
    }
    Ok(())
}

// The text of a step.
fn step_text(item: &Item) -> &[u8] {
    match item {
        Item::Part(name) => name.bytes(),
        Item::Arg => b"(arg)",
        Item::Res => b"(res)",
        Item::Meta => b"(sig)",
    }
}
