// Signature parts that need no comparison, since they are below each other by a law.
ghost use Rattle.std.specs.Prelude.{◌≡◌, ◌↔◌, IfOk, IsTrue};
ghost use Rattle.sig_definitions.specs.Signatures.Encoding.{enc_abs};
ghost use Rattle.sig_match.specs.Inner.Alike.{AreAlike};

use omega_kinds::Mem;
use packages::norm;
use semantic_sigs::{Abs, encode};
use std::alloc::Global;
use type_normal::{as_normal, same};

/// Whether two signatures have one encoding, so that they are one signature, or norms of one encoding, so that they differ
/// in the order of their hidden types alone. An encoding takes one step for each part, since that of a signature part is
/// one tree on both sides of an arrow, and is gone through once. `Err` is out of memory.
pub(crate) fn are_alike(alloc: Global, left: &Abs, right: &Abs) -> Result<bool, Mem>
    ensures { IfOk result (λ b. IsTrue b → AreAlike left.now right.now) }
{
    if same_encoding(alloc, left, right)? {
        return Ok(true);
    }
    let left = norm(alloc, left)?;
    let right = norm(alloc, right)?;
    same_encoding(alloc, &left, &right)
}

// Whether two signatures have one encoding.
fn same_encoding(alloc: Global, left: &Abs, right: &Abs) -> Result<bool, Mem>
    ensures { IfOk result (λ b. IsTrue b ↔ enc_abs left.now ≡ enc_abs right.now) }
{
    let left = as_normal(encode(alloc, left)?);
    let right = as_normal(encode(alloc, right)?);
    Ok(same(&left, &right))
}
