// The generated program.
ghost use Rattle.std.specs.Prelude.{◌≡◌, ◌++◌, flat_map, IfOk, OnOk};
ghost use Rattle.fing_gen.specs.Source.{source_text, sealed};

use itoa::Buffer;
use omega_kinds::Mem;
use std::alloc::Global;

// A signature that hides a type, a functor over it, and a module of it.
const OPENING: &[u8] = b"signature S = sig type t val v : t val f : t -> Int end
module F = fun (X : S) => struct type t = X.t val v = X.v val f = fun (x : X.t) => X.f x + 1 end :> S
module M0 = struct type t = Int val v = 0 val f = fun (x : Int) => x end :> S
";

// The first package unpacked, and used.
const CLOSING: &[u8] = b"module Q = unpack p1 : S
val q = Q.f Q.v
";

/// The source of the generated program of this size: a signature, a functor and a module; then, for each number from 1
/// to `size`, an application of the functor, a package of it and a value; and last the first package unpacked. At size 0
/// there is no package, so the program is not legal; that it is legal at other sizes is tested for some, not proved.
/// `Err` is out of memory.
#[tactic(auto, using(crate::proofs::Lines::next_sealed))]
pub fn source_of(alloc: Global, size: u32) -> Result<Vec<u8>, Mem>
    ensures { IfOk result (λ text. text.items ≡ source_text size) }
{
    let mut text = Vec::new(alloc);
    text.extend_from_slice(OPENING)?;
    for before in 0..size {
        add_sealed(&mut text, before + 1)?;
    }
    text.extend_from_slice(CLOSING)?;
    Ok(text)
}

// Adds the three lines of a number.
fn add_sealed(text: &mut Vec<u8>, number: u32) -> Result<(), Mem>
    ensures { OnOk result (text.new.items ≡ text.old.items ++ sealed number) }
{
    let mut buffer = Buffer::new();
    let digits = buffer.format(number).as_bytes();
    let pieces = [
        b"module M".as_slice(),
        digits,
        b" = F M0\nval p",
        digits,
        b" = pack M",
        digits,
        b" : S\nval r",
        digits,
        b" = M",
        digits,
        b".f M",
        digits,
        b".v\n",
    ];
    add_all(text, &pieces)
}

// Adds the pieces one after the other.
fn add_all(text: &mut Vec<u8>, pieces: &[&[u8]]) -> Result<(), Mem>
    ensures { OnOk result (text.new.items ≡ text.old.items ++ flat_map (λ piece. piece.now) pieces.now) }
{
    for piece in pieces {
        text.extend_from_slice(piece)?;
    }
    Ok(())
}
