// The lines of refusals.
ghost use Rattle.std.specs.Prelude.{codes};
ghost use Rattle.fing_text.specs.Writes.{Wrote};
ghost use Rattle.omega_kinds.specs.Text.{◌then◌};
ghost use Rattle.fing_syntax.specs.Inner.Leaves.{place};
ghost use Rattle.omega_terms.specs.InScope.{TyInScope};
ghost use Rattle.fing_refusals.specs.Inner.InScope.{ClashInScope, HasLine};
ghost use Rattle.fing_refusals.specs.Line.{clash_text, front_text, line_of, path_text, two_types_text};
ghost use Rattle.fing_refusals.specs.Inner.Pieces.{given_text, piece_text, whole_text, GivenInScope, PieceInScope};
ghost use Rattle.fing_refusals.specs.Inner.Plain.{plain_clash, plain_reason, plain_refusal};

use crate::path::write_path;
use crate::pieces::{Piece, write_pieces};
use crate::refusal::{ElabWhy, Refusal};
use fing_text::{Sink, Span, WriteFault, put};
use semantic_sigs::{Path, Why};
use type_normal::NormalTy;

/// Writes the line of a refusal, which is not out of memory: `refused F-T`, the reason and a line end, F and T being the
/// byte offsets of the first byte of its place and of the byte behind its last. Its types are spelled with the levels of
/// the variables in scope: each variable is among them and has a level below 2^64.
/// `Err` comes only where the sink counted a fault, and a prefix of the line was written. Takes no memory.
pub fn write_line<K: Sink>(sink: &mut K, refusal: &Refusal) -> Result<(), WriteFault>
    requires { HasLine (plain_refusal refusal.now) }
    ensures { Wrote (K.told sink.old) (K.told sink.new) (line_of (plain_refusal refusal.now)) result }
{
    write_whole(sink, refusal.at, refusal.types, &refusal.why)
}

// Writes the place, the reason and the line end.
#[tactic(auto, using(fing_text::proofs::InARow::in_a_row))]
fn write_whole<K: Sink>(sink: &mut K, at: Span, types: u64, why: &ElabWhy) -> Result<(), WriteFault>
    requires { GivenInScope types (plain_reason why.now) }
    ensures { Wrote (K.told sink.old) (K.told sink.new) (whole_text (place at) types (plain_reason why.now)) result }
{
    write_front(sink, at)?;
    write_reason(sink, types, why)?;
    put(sink, b"\n")
}

// Writes what the line begins with.
fn write_front<K: Sink>(sink: &mut K, at: Span) -> Result<(), WriteFault>
    ensures { Wrote (K.told sink.old) (K.told sink.new) (front_text (place at)) result }
{
    write_pieces(
        sink,
        &[
            Piece::Bytes(b"refused "),
            Piece::Number(u64::from(at.from)),
            Piece::Bytes(b"-"),
            Piece::Number(u64::from(at.to)),
            Piece::Bytes(b" "),
        ],
    )
}

// Writes a reason.
fn write_reason<K: Sink>(sink: &mut K, types: u64, why: &ElabWhy) -> Result<(), WriteFault>
    requires { GivenInScope types (plain_reason why.now) }
    ensures { Wrote (K.told sink.old) (K.told sink.new) (given_text types (plain_reason why.now)) result }
{
    match why {
        ElabWhy::Unbound(name) => write_one(sink, b"Unbound ", Piece::Bytes(name.bytes())),
        ElabWhy::NotStructure => put(sink, b"NotStructure"),
        ElabWhy::NoPart(name) => write_one(sink, b"NoPart ", Piece::Bytes(name.bytes())),
        ElabWhy::NotFunctor => put(sink, b"NotFunctor"),
        ElabWhy::WrongPath => put(sink, b"WrongPath"),
        ElabWhy::Escapes => put(sink, b"Escapes"),
        ElabWhy::NoRoot { index, path } => {
            write_two(sink, b"NoRoot ", Piece::Number(*index), Piece::Path(path))
        }
        ElabWhy::Clash { path, why } => write_clash_at(sink, types, path, why),
        ElabWhy::NotArrow(ty) => write_one(sink, b"NotArrow ", Piece::Ty(types, ty)),
        ElabWhy::NotAll(ty) => write_one(sink, b"NotAll ", Piece::Ty(types, ty)),
        ElabWhy::NotRecord(ty) => write_one(sink, b"NotRecord ", Piece::Ty(types, ty)),
        ElabWhy::NotSum(ty) => write_one(sink, b"NotSum ", Piece::Ty(types, ty)),
        ElabWhy::NotData(ty) => write_one(sink, b"NotData ", Piece::Ty(types, ty)),
        ElabWhy::NoField(name) => write_one(sink, b"NoField ", Piece::Bytes(name.bytes())),
        ElabWhy::NoBranch(name) => write_one(sink, b"NoBranch ", Piece::Bytes(name.bytes())),
        ElabWhy::Differ(found, needed) => {
            write_two_types(sink, b"Differ ", types, found, needed)
        }
        ElabWhy::KindDiffer(found, needed) => {
            write_two(
                sink,
                b"KindDiffer ",
                Piece::Kind(found),
                Piece::Kind(needed),
            )
        }
        ElabWhy::NotOperator => put(sink, b"NotOperator"),
        ElabWhy::DuplicateField(name) => {
            write_one(sink, b"DuplicateField ", Piece::Bytes(name.bytes()))
        }
        ElabWhy::Duplicate(name) => write_one(sink, b"Duplicate ", Piece::Bytes(name.bytes())),
        ElabWhy::NotAbstract(path) => write_one(sink, b"NotAbstract ", Piece::Path(path)),
        ElabWhy::Mem => unreachable!(),
    }
}

// Writes where the parts of two signatures clash, and why.
#[tactic(auto, using(fing_text::proofs::InARow::in_a_row))]
fn write_clash_at<K: Sink>(
    sink: &mut K,
    types: u64,
    path: &Path,
    why: &Why,
) -> Result<(), WriteFault>
    requires { ClashInScope types (plain_clash why.now) }
    ensures { Wrote (K.told sink.old) (K.told sink.new) (codes "Clash " then path_text path.now then codes " " then clash_text types (plain_clash why.now)) result }
{
    put(sink, b"Clash ")?;
    write_path(sink, path)?;
    put(sink, b" ")?;
    write_clash(sink, types, why)
}

// Writes why the parts of two signatures clash.
fn write_clash<K: Sink>(sink: &mut K, types: u64, why: &Why) -> Result<(), WriteFault>
    requires { ClashInScope types (plain_clash why.now) }
    ensures { Wrote (K.told sink.old) (K.told sink.new) (clash_text types (plain_clash why.now)) result }
{
    match why {
        Why::Form => put(sink, b"Form"),
        Why::Missing => put(sink, b"Missing"),
        Why::Effect => put(sink, b"Effect"),
        Why::Types(left, right) => write_two_types(sink, b"Types ", types, left, right),
    }
}

// Writes a word and two types.
fn write_two_types<'x, K: Sink>(
    sink: &mut K,
    word: &'x [u8],
    types: u64,
    first: &'x NormalTy,
    second: &'x NormalTy,
) -> Result<(), WriteFault>
    requires { TyInScope types first.now × TyInScope types second.now }
    ensures { Wrote (K.told sink.old) (K.told sink.new) (word.now then two_types_text types first.now second.now) result }
{
    write_pieces(
        sink,
        &[
            Piece::Bytes(word),
            Piece::Ty(types, first),
            Piece::Bytes(b" "),
            Piece::Ty(types, second),
        ],
    )
}

// Writes a word and a part.
fn write_one<'x, K: Sink>(sink: &mut K, word: &'x [u8], part: Piece<'x>) -> Result<(), WriteFault>
    requires { PieceInScope part }
    ensures { Wrote (K.told sink.old) (K.told sink.new) (word.now then piece_text part.entry) result }
{
    write_pieces(sink, &[Piece::Bytes(word), part])
}

// Writes a word and two parts.
fn write_two<'x, K: Sink>(
    sink: &mut K,
    word: &'x [u8],
    first: Piece<'x>,
    second: Piece<'x>,
) -> Result<(), WriteFault>
    requires first { PieceInScope first }
    requires second { PieceInScope second }
    ensures { Wrote (K.told sink.old) (K.told sink.new) (word.now then piece_text first.entry then codes " " then piece_text second.entry) result }
{
    write_pieces(
        sink,
        &[Piece::Bytes(word), first, Piece::Bytes(b" "), second],
    )
}
