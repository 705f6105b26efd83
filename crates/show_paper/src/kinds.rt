// Kinds, in the notation of the literature.
use crate::writer::Writer;
use omega_kinds::{Kind, Mem};

/// Writes a kind: that of types, or an arrow between kinds, which groups to the right. `Err` is out of memory.
#[cycle(kinds)]
pub fn put_kind(writer: &mut Writer, kind: &Kind) -> Result<(), Mem> {
    match kind {
        Kind::Star => writer.put_sign(writer.symbols().star, 1),
        Kind::Arrow(from, to, _) => {
            put_inner(writer, from)?;
            writer.put(" ")?;
            writer.put_sign(writer.symbols().arrow, 1)?;
            writer.put(" ")?;
            put_kind(writer, to)
        }
    }
}

/// Writes a kind, an arrow in parentheses. `Err` is out of memory.
#[cycle(kinds)]
pub fn put_inner(writer: &mut Writer, kind: &Kind) -> Result<(), Mem> {
    if let Kind::Star = kind {
        return writer.put_sign(writer.symbols().star, 1);
    }
    writer.put("(")?;
    put_kind(writer, kind)?;
    writer.put(")")
}
