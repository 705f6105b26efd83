// Why a rule of signatures or of declarations is refused.
use omega_kinds::{Kind, Mem, Name};
use semantic_sigs::Path;

/// Why a rule of signatures or of declarations is refused.
#[derive(Drop)]
pub enum SigRefusal {
    /// What `where type` names is no hidden type of its signature.
    NotAbstract(Path),
    /// The path leaves the structures at this name.
    NoPart(Name),
    /// A declaration's name is declared before.
    Duplicate(Name),
    /// The first kind was found, the second was needed.
    KindDiffer(Kind, Kind),
    /// What is included is no structure.
    NotStructure,
    /// Want of memory.
    Mem,
}

impl From<Mem> for SigRefusal {
    ghost use Rattle.std.specs.Prelude.{◌≡◌};
    ghost use Rattle.sig_rules.specs.Inner.Plain.{want_of_memory};

    ghost from_gives = { λ _ e. e ≡ want_of_memory };

    fn from(_refused: Mem) -> SigRefusal {
        SigRefusal::Mem
    }
}
