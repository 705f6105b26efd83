// Labels, numbers, operators and texts, written as text.
ghost use Rattle.std.specs.Prelude.{decimal, flat_map};
ghost use Rattle.std.specs.Fmt.{signed_decimal};
ghost use Rattle.fing_text.specs.Writes.{Wrote};
ghost use Rattle.omega_terms.specs.KindText.{label_text};
ghost use Rattle.omega_terms.specs.TermText.{byte_text};

use fing_text::{Sink, WriteFault, put};
use itoa::Buffer;
use omega_kinds::Label;

// Writes these bytes, by a call of its own: so the frames of walks have no room for the locals of the sink.
#[inline(never)]
pub fn write_word<K: Sink>(sink: &mut K, word: &[u8]) -> Result<(), WriteFault>
    ensures { Wrote (K.told sink.old) (K.told sink.new) word.now result }
{
    put(sink, word)
}

/// Writes a label: a reserved one by its word, a name by its own bytes.
/// `Err` comes only where the sink counted a fault, and a prefix of the text was written, not all of it.
#[inline(never)]
pub fn write_label<K: Sink>(sink: &mut K, label: &Label) -> Result<(), WriteFault>
    ensures { Wrote (K.told sink.old) (K.told sink.new) (label_text label.now) result }
{
    match label {
        Label::Val => put(sink, b".val"),
        Label::Typ => put(sink, b".typ"),
        Label::Sig => put(sink, b".sig"),
        Label::App => put(sink, b".app"),
        Label::Gen => put(sink, b".gen"),
        Label::Name(name) => put(sink, name.bytes()),
    }
}

// Writes a number in decimal.
#[inline(never)]
pub fn write_number<K: Sink>(sink: &mut K, n: u64) -> Result<(), WriteFault>
    ensures { Wrote (K.told sink.old) (K.told sink.new) (decimal n) result }
{
    let mut buffer = Buffer::new();
    put(sink, buffer.format(n).as_bytes())
}

// Writes a signed number in decimal.
#[inline(never)]
pub fn write_signed<K: Sink>(sink: &mut K, z: i64) -> Result<(), WriteFault>
    ensures { Wrote (K.told sink.old) (K.told sink.new) (signed_decimal z) result }
{
    let mut buffer = Buffer::new();
    put(sink, buffer.format(z).as_bytes())
}

// Writes a byte of a text: a quote, a backslash and a line end by an escape, any other as it stands.
fn write_byte<K: Sink>(sink: &mut K, b: u8) -> Result<(), WriteFault>
    ensures { Wrote (K.told sink.old) (K.told sink.new) (byte_text b) result }
{
    if b == b'"' {
        return put(sink, b"\\\"");
    }
    if b == b'\\' {
        return put(sink, b"\\\\");
    }
    if b == b'\n' {
        return put(sink, b"\\n");
    }
    put(sink, &[b])
}

// Writes the bytes of a text without its quotes.
#[inline(never)]
pub fn write_bytes<K: Sink>(sink: &mut K, bytes: &[u8]) -> Result<(), WriteFault>
    ensures { Wrote (K.told sink.old) (K.told sink.new) (flat_map byte_text bytes.now) result }
{
    for b in bytes {
        write_byte(sink, *b)?;
    }
    Ok(())
}
