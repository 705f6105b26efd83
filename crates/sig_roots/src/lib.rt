// Root paths: where each hidden type of a signature can be found again.
// Stands on semantic_sigs, whose trees it walks, and on sig_match_laws, whose search for one hidden type it does for all.
// Proved: `roots` gives the least root path of each hidden type of a well formed signature with normal types, and none
// exactly for a type without root paths.
#![tactic(auto)]

ghost use Rattle.std.specs.Prelude.{◌≡◌, IfOk, List, None, length, map, reverse};
ghost use Rattle.omega_kinds.specs.Kind.{Kind as KindTree};
ghost use Rattle.sig_definitions.specs.Explicit.WellFormed.{WellFormedAbs};
ghost use Rattle.sig_definitions.specs.Signatures.Alike.{NormalAbs};
ghost use Rattle.semantic_sigs.specs.Inner.View.{kinds_of, body_of};
ghost use Rattle.sig_roots.specs.Inner.Roots.{AreRoots};
ghost use Rattle.sig_roots.specs.Inner.Seek.{merged, seek};

mod variables;
mod walk;

use crate::walk::Walk;
use omega_kinds::Mem;
use semantic_sigs::{Abs, Path};
use std::alloc::Global;
pub use variables::rooted;

/// The least root path of each hidden type of an abstract signature, in their order, the outermost first; `None` exactly
/// where a type has none. The paths lead into the body. The signature is well formed and its types are normal, in the
/// context in which it stands; of any other, the answer is what the same search gives (`seek`). `Err` is out of memory,
/// also where an index would pass the last number. All are found in one walk over the body.
///
/// Rossberg, Russo and Dreyer, "F-ing modules", section 5, explicit signatures; through results of pure functors here.
pub fn roots(alloc: Global, abs: &Abs) -> Result<Vec<Option<Path>>, Mem>
    ensures value { IfOk result (λ found. found.items ≡ reverse (merged (λ own. seek own 0 (body_of abs.now)) (map (λ k. None) (kinds_of abs.now)))) }
    ensures count { IfOk result (λ found. length found.items ≡ length (kinds_of abs.now)) }
    ensures roots { IfOk result (λ found. (ctx : List KindTree) → WellFormedAbs ctx abs.now → NormalAbs ctx abs.now → AreRoots ctx abs.now found.items) }
{
    let mut walk = Walk::new(alloc, abs.kinds())?;
    walk.visit(abs.body(), 0, None)?;
    let mut found = walk.into_found();
    found.reverse();
    Ok(found)
}
