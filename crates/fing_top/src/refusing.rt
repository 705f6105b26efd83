// Why a source is refused, and the line that says so.
ghost use Rattle.std.specs.Prelude.{IsTrue};
ghost use Rattle.fing_text.specs.Writes.{Wrote};
ghost use Rattle.fing_top.specs.Refusing.{refusal_line, numbered, HasLine, HasRoom};

use fing_lexer::LexRefusal;
use fing_parser::ParseRefusal;
use fing_refusals::{Refusal, write_line as write_refusal};
use fing_text::{Sink, WriteFault, put_all};
use itoa::Buffer;
use omega_kinds::Mem;
use sig_scopes::refusal_in_scope;

/// Why a source is refused: it has no tokens, its tokens are no program, or no separate units where these are read, or they
/// mean nothing.
#[derive(Drop)]
pub enum Refused {
    /// No token begins at this byte.
    BadByte { at: u32 },
    /// No text begins at this `"`.
    BadText { at: u32 },
    /// The number at this byte is out of range.
    Wide { at: u32 },
    /// The token at this byte stands too deep.
    TooDeep { at: u32 },
    /// The tokens are no program, or no separate units: the longest prefix of them that begins some has `at` tokens.
    Syntax { at: u32 },
    /// The program, or a unit, means nothing, for this reason; or memory ran out in elaboration.
    Program(Refusal),
    /// Want of memory.
    Mem,
}

impl From<LexRefusal> for Refused {
    ghost use Rattle.std.specs.Prelude.{◌≡◌};
    ghost use Rattle.fing_top.specs.Refusing.{untokened};

    ghost from_gives = { λ refusal e. e ≡ untokened refusal };

    fn from(refusal: LexRefusal) -> Refused {
        match refusal {
            LexRefusal::BadByte { at } => Refused::BadByte { at },
            LexRefusal::BadText { at } => Refused::BadText { at },
            LexRefusal::Wide { at } => Refused::Wide { at },
            LexRefusal::TooDeep { at } => Refused::TooDeep { at },
            LexRefusal::Mem => Refused::Mem,
        }
    }
}

impl From<ParseRefusal> for Refused {
    ghost use Rattle.std.specs.Prelude.{◌≡◌};
    ghost use Rattle.fing_top.specs.Refusing.{unparsed};

    ghost from_gives = { λ refusal e. e ≡ unparsed refusal };

    fn from(refusal: ParseRefusal) -> Refused {
        match refusal {
            ParseRefusal::Syntax { at } => Refused::Syntax { at },
            ParseRefusal::Mem => Refused::Mem,
        }
    }
}

impl From<Refusal> for Refused {
    ghost use Rattle.std.specs.Prelude.{◌≡◌};
    ghost use Rattle.fing_top.specs.declared.refusing.Refused.TheVariants.{Program as InProgram};

    ghost from_gives = { λ refusal e. e ≡ InProgram refusal };

    fn from(refusal: Refusal) -> Refused {
        Refused::Program(refusal)
    }
}

impl From<Mem> for Refused {
    ghost use Rattle.std.specs.Prelude.{◌≡◌};
    ghost use Rattle.fing_top.specs.declared.refusing.Refused.TheVariants.{Mem as WantOfMemory};

    ghost from_gives = { λ _ e. e ≡ WantOfMemory };

    fn from(_refused: Mem) -> Refused {
        Refused::Mem
    }
}

/// Whether the refusal has a line. Want of memory has none, and no reason whose types have a level past the last number
/// of 64 bits, which no memory holds. It may be false also where 2^64 type variables or more are in scope below a binder
/// of a type in it. Takes no memory.
pub fn has_line(why: &Refused) -> bool
    ensures sound { IsTrue result → HasLine why.now }
    ensures complete { HasLine why.now → HasRoom why.now → IsTrue result }
{
    match why {
        Refused::Program(refusal) => refusal_in_scope(refusal),
        Refused::Mem => false,
        _ => true,
    }
}

// Whether the refusal has a line that is short enough to be written: none of its types has a text of more than 268,435,456
// forms. Where it has none, the answer is want of memory.
pub(crate) fn has_short_line(why: &Refused) -> bool
    ensures { IsTrue result → HasLine why.now }
{
    match why {
        Refused::Program(refusal) => refusal.is_written() && has_line(why),
        _ => has_line(why),
    }
}

/// Writes the line of a refusal, which has one. Takes no memory.
pub fn write_line<K: Sink>(sink: &mut K, why: &Refused) -> Result<(), WriteFault>
    requires { HasLine why.now }
    ensures { Wrote (K.told sink.old) (K.told sink.new) (refusal_line why.now) result }
{
    match why {
        Refused::BadByte { at } => write_numbered(sink, b"refused BadByte ", *at),
        Refused::BadText { at } => write_numbered(sink, b"refused BadText ", *at),
        Refused::Wide { at } => write_numbered(sink, b"refused Wide ", *at),
        Refused::TooDeep { at } => write_numbered(sink, b"refused TooDeep ", *at),
        Refused::Syntax { at } => write_numbered(sink, b"refused Syntax ", *at),
        Refused::Program(refusal) => write_refusal(sink, refusal),
        Refused::Mem => unreachable!(),
    }
}

// Writes a word, a number and the end of the line.
pub(crate) fn write_numbered<K: Sink>(
    sink: &mut K,
    word: &[u8],
    number: u32,
) -> Result<(), WriteFault>
    ensures { Wrote (K.told sink.old) (K.told sink.new) (numbered word.now number) result }
{
    let mut buffer = Buffer::new();
    put_all(
        sink,
        &[word, buffer.format(number).as_bytes(), b"\n".as_slice()],
    )
}
