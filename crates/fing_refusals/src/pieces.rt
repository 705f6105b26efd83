// Pieces of a line, written one after the other.
ghost use Rattle.std.specs.Prelude.{decimal};
ghost use Rattle.fing_text.specs.Writes.{Wrote};
ghost use Rattle.fing_refusals.specs.Inner.Pieces.{piece_text, pieces_text, PieceInScope, PiecesInScope};

use crate::path::write_path;
use fing_text::{Sink, WriteFault, put};
use itoa::Buffer;
use omega_kinds::Kind;
use omega_write::{write_kind, write_ty};
use semantic_sigs::Path;
use type_normal::{NormalTy, plain};

// A part of what is written: some bytes, a number, a kind, a path, or a type with the number of type variables in scope.
#[derive(Clone, Copy)]
pub(crate) enum Piece<'a> {
    Bytes(&'a [u8]),
    Number(u64),
    Kind(&'a Kind),
    Path(&'a Path),
    Ty(u64, &'a NormalTy),
}

// Writes pieces one after the other.
pub(crate) fn write_pieces<K: Sink>(sink: &mut K, pieces: &[Piece<'_>]) -> Result<(), WriteFault>
    requires { PiecesInScope pieces.now }
    ensures { Wrote (K.told sink.old) (K.told sink.new) (pieces_text pieces.now) result }
{
    for piece in pieces {
        write_piece(sink, piece)?;
    }
    Ok(())
}

// Writes a piece.
fn write_piece<K: Sink>(sink: &mut K, piece: &Piece<'_>) -> Result<(), WriteFault>
    requires { PieceInScope piece.now }
    ensures { Wrote (K.told sink.old) (K.told sink.new) (piece_text piece.now) result }
{
    match piece {
        Piece::Bytes(bytes) => put(sink, bytes),
        Piece::Number(n) => write_number(sink, *n),
        Piece::Kind(kind) => write_kind(sink, kind),
        Piece::Path(path) => write_path(sink, path),
        Piece::Ty(types, ty) => write_ty(sink, *types, plain(ty)),
    }
}

// Writes a number in decimal.
fn write_number<K: Sink>(sink: &mut K, n: u64) -> Result<(), WriteFault>
    ensures { Wrote (K.told sink.old) (K.told sink.new) (decimal n) result }
{
    let mut buffer = Buffer::new();
    put(sink, buffer.format(n).as_bytes())
}
