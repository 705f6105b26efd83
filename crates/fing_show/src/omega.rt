// The term of a program as Omega text for people.
ghost use Rattle.std.specs.Prelude.{◌≡◌, [], IfOk};
ghost use Rattle.omega_compact.specs.Spelling.{compacted};
ghost use Rattle.omega_terms.specs.OmegaText.{omega_text};
ghost use Rattle.omega_terms.specs.Typing.{HasType};
ghost use Rattle.sig_definitions.specs.Signatures.Encoding.{enc_abs};

use fing_elab::Elaborated;
use omega_kinds::Mem;
use semantic_sigs::encode;
use show_omega::readable_omega;
use std::alloc::Global;

/// The page of a program that means something: the Omega text of the encoding of its signature and of its whole term,
/// with line breaks and comments, which is made compact to what `emit` writes. `Err` is out of memory.
#[tactic(auto, using(crate::proofs::Closed::closed))]
pub(crate) fn omega_page(alloc: Global, found: &Elaborated) -> Result<Vec<u8>, Mem>
    requires { HasType [] [] found.now.whole (enc_abs found.now.sig) }
    ensures { IfOk result (λ page. compacted page.items ≡ compacted (omega_text (enc_abs found.now.sig) found.now.whole)) }
{
    let ty = encode(alloc, &found.sig)?;
    let _heights = (ty.extent(), found.whole.extent());
    readable_omega(alloc, &ty, &found.whole)
}
