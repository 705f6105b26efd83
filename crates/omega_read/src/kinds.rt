// Kinds read from text.
ghost use Rattle.std.specs.Prelude.{◌≡◌};
ghost use Rattle.omega_kinds.specs.Kind.{Arrow};
ghost use Rattle.omega_kinds.specs.View.{kind_tree};
ghost use Rattle.omega_spelling.specs.Reading.{kind_at, two};
ghost use Rattle.omega_read.specs.Inner.Gives.{Gives};

use crate::left::{Left, Stop};
use omega_kinds::{Kind, arrow};
use std::alloc::Global;

// A kind with at most so many parentheses open at once.
#[cycle(kinds)]
#[tactic(auto, using(crate::proofs::Fronts::kind_unfold))]
pub fn kind_of(alloc: Global, depth: u32, left: &mut Left<'_>) -> Result<Kind, Stop>
    ensures { Gives kind_tree result left.new.rest.now (kind_at depth left.old.rest.now) }
{
    if left.eat(b"*") {
        return Ok(Kind::Star);
    }
    if depth == 0 {
        return Err(Stop::NotOmega);
    }
    if !left.eat(b"(> ") {
        return Err(Stop::NotOmega);
    }
    arrow_of(alloc, depth - 1, left)
}

// The parts of an arrow, and the parenthesis that closes it.
#[cycle(kinds)]
#[tactic(auto, unfolding(omega_spelling::specs::Reading::two))]
fn arrow_of(alloc: Global, depth: u32, left: &mut Left<'_>) -> Result<Kind, Stop>
    ensures { Gives kind_tree result left.new.rest.now (two Arrow (kind_at depth) (kind_at depth) left.old.rest.now) }
{
    let from = kind_of(alloc, depth, left)?;
    left.expect_bytes(b" ")?;
    let to = kind_of(alloc, depth, left)?;
    left.expect_bytes(b")")?;
    Ok(arrow(alloc, from, to)?)
}
