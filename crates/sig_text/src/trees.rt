// Signatures, written as text.
ghost use Rattle.std.specs.Prelude.{◌≡◌};
ghost use Rattle.fing_text.specs.Writes.{Wrote};
ghost use Rattle.semantic_sigs.specs.Inner.Fields.{sig_row};
ghost use Rattle.sig_text.specs.Inner.Pieces.{field_text, one_text, piece_text, pieces_text, PieceInScope, PiecesInScope};
ghost use Rattle.sig_text.specs.Inner.SigInScope.{AbsInScope, SigInScope, SigRowInScope};
ghost use Rattle.sig_text.specs.SigText.{abs_text, effect_text, elab_text, functor_front, sig_row_text, sig_text};

use crate::kinds::write_kinds;
use fing_text::{Sink, WriteFault, put};
use omega_kinds::{Effect, Kind, Kinds, Name};
use omega_types::Ty;
use omega_write::{write_kind, write_ty};
use semantic_sigs::{Abs, Sig, SigFields, SigNode};
use type_normal::plain;

// A part of what is written: some bytes, kinds, or a tree with the number of type variables in scope.
#[derive(Clone, Copy)]
enum Piece<'a> {
    Bytes(&'a [u8]),
    Kind(&'a Kind),
    Kinds(&'a Kinds),
    Ty(u64, &'a Ty),
    Sig(u64, &'a Sig),
    Abs(u64, &'a Abs),
    Fields(u64, &'a SigFields),
}

/// Writes an abstract signature, `(ex (K ..) s)`, with so many type variables in scope. Each variable is among them and
/// has a level below 2^64, and below each list of binders the number in scope is below 2^64.
/// `Err` comes only where the sink counted a fault, and a prefix of the text was written, not all of it.
pub fn write_abs<K: Sink>(sink: &mut K, types: u64, abs: &Abs) -> Result<(), WriteFault>
    requires { AbsInScope types abs.now }
    ensures { Wrote (K.told sink.old) (K.told sink.new) (abs_text types abs.now) result }
{
    write_abstract(sink, types, abs)
}

/// Writes an effect and a closed signature on a line: what a program, or a module, elaborates to.
/// `Err` comes only where the sink counted a fault, and a prefix of the text was written, not all of it.
pub fn write_elab<K: Sink>(sink: &mut K, effect: Effect, abs: &Abs) -> Result<(), WriteFault>
    requires { AbsInScope 0 abs.now }
    ensures { Wrote (K.told sink.old) (K.told sink.new) (elab_text effect abs.now) result }
{
    write_pieces(
        sink,
        &[
            Piece::Bytes(effect_word(effect)),
            Piece::Abs(0, abs),
            Piece::Bytes(b"\n"),
        ],
    )
}

// The word of an effect, with the space after it.
fn effect_word(effect: Effect) -> &'static [u8]
    ensures { result.now ≡ effect_text effect }
{
    match effect {
        Effect::Pure => b"pure ",
        Effect::Impure => b"impure ",
    }
}

// What a functor of an effect begins with.
fn front(effect: Effect) -> &'static [u8]
    ensures { result.now ≡ functor_front effect }
{
    match effect {
        Effect::Pure => b"(fun app ",
        Effect::Impure => b"(fun gen ",
    }
}

// Writes an abstract signature.
#[cycle(sigs)]
fn write_abstract<K: Sink>(sink: &mut K, types: u64, abs: &Abs) -> Result<(), WriteFault>
    requires { AbsInScope types abs.now }
    ensures { Wrote (K.told sink.old) (K.told sink.new) (abs_text types abs.now) result }
{
    let inner = types + abs.kinds().items().len() as u64;
    write_pieces(
        sink,
        &[
            Piece::Bytes(b"(ex "),
            Piece::Kinds(abs.kinds()),
            Piece::Bytes(b" "),
            Piece::Sig(inner, abs.body()),
            Piece::Bytes(b")"),
        ],
    )
}

// Writes a signature.
#[cycle(sigs)]
fn write_sig<K: Sink>(sink: &mut K, types: u64, sig: &Sig) -> Result<(), WriteFault>
    requires { SigInScope types sig.now }
    ensures { Wrote (K.told sink.old) (K.told sink.new) (sig_text types sig.now) result }
{
    match sig.node() {
        SigNode::Val(ty) => write_one(sink, b"(val ", Piece::Ty(types, plain(ty))),
        SigNode::Typ(ty, kind) => write_pieces(
            sink,
            &[
                Piece::Bytes(b"(type "),
                Piece::Ty(types, plain(ty)),
                Piece::Bytes(b" "),
                Piece::Kind(kind),
                Piece::Bytes(b")"),
            ],
        ),
        SigNode::Meta(abs) => write_one(sink, b"(sig ", Piece::Abs(types, abs)),
        SigNode::Str(fields) => write_one(sink, b"(str", Piece::Fields(types, fields)),
        SigNode::Fun {
            effect,
            kinds,
            param,
            result,
        } => {
            let inner = types + kinds.items().len() as u64;
            write_pieces(
                sink,
                &[
                    Piece::Bytes(front(*effect)),
                    Piece::Kinds(kinds),
                    Piece::Bytes(b" "),
                    Piece::Sig(inner, param),
                    Piece::Bytes(b" "),
                    Piece::Abs(inner, result),
                    Piece::Bytes(b")"),
                ],
            )
        }
    }
}

// Writes the fields of a structure, each with a space before it.
#[cycle(sigs)]
fn write_fields<K: Sink>(sink: &mut K, types: u64, fields: &SigFields) -> Result<(), WriteFault>
    requires { SigRowInScope types (sig_row fields.now) }
    ensures { Wrote (K.told sink.old) (K.told sink.new) (sig_row_text types (sig_row fields.now)) result }
{
    for field in fields.items() {
        write_field(sink, types, &field.0, &field.1)?;
    }
    Ok(())
}

// Writes a field of a structure, with a space before it.
#[cycle(sigs)]
fn write_field<'x, K: Sink>(
    sink: &mut K,
    types: u64,
    name: &'x Name,
    sig: &'x Sig,
) -> Result<(), WriteFault>
    requires { SigInScope types sig.now }
    ensures { Wrote (K.told sink.old) (K.told sink.new) (field_text types name.now sig.now) result }
{
    write_pieces(
        sink,
        &[
            Piece::Bytes(b" ("),
            Piece::Bytes(name.bytes()),
            Piece::Bytes(b" "),
            Piece::Sig(types, sig),
            Piece::Bytes(b")"),
        ],
    )
}

// Writes a form of one part.
#[cycle(sigs)]
fn write_one<'x, K: Sink>(sink: &mut K, front: &'x [u8], part: Piece<'x>) -> Result<(), WriteFault>
    requires { PieceInScope part }
    ensures { Wrote (K.told sink.old) (K.told sink.new) (one_text front.now (piece_text part.entry)) result }
{
    write_pieces(sink, &[Piece::Bytes(front), part, Piece::Bytes(b")")])
}

// Writes pieces one after the other.
#[cycle(sigs)]
fn write_pieces<K: Sink>(sink: &mut K, pieces: &[Piece<'_>]) -> Result<(), WriteFault>
    requires { PiecesInScope pieces.now }
    ensures { Wrote (K.told sink.old) (K.told sink.new) (pieces_text pieces.now) result }
{
    for piece in pieces {
        write_piece(sink, piece)?;
    }
    Ok(())
}

// Writes a piece.
#[cycle(sigs)]
fn write_piece<K: Sink>(sink: &mut K, piece: &Piece<'_>) -> Result<(), WriteFault>
    requires { PieceInScope piece.now }
    ensures { Wrote (K.told sink.old) (K.told sink.new) (piece_text piece.now) result }
{
    match piece {
        Piece::Bytes(bytes) => put(sink, bytes),
        Piece::Kind(kind) => write_kind(sink, kind),
        Piece::Kinds(kinds) => write_kinds(sink, kinds),
        Piece::Ty(types, ty) => write_ty(sink, *types, ty),
        Piece::Sig(types, sig) => write_sig(sink, *types, sig),
        Piece::Abs(types, abs) => write_abstract(sink, *types, abs),
        Piece::Fields(types, fields) => write_fields(sink, *types, fields),
    }
}
