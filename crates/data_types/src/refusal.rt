// Why a rule of recursive types is refused.
use omega_kinds::{Kind, Mem};
use type_normal::NormalTy;

/// Why a rule of recursive types is refused. Types and kinds stand where the rule's premises do.
#[derive(Drop)]
pub enum DataRefusal {
    /// What is rolled to, or unrolled, is this type, which is no recursive one.
    NotData(NormalTy),
    /// The first type was found, the second was needed.
    Differ(NormalTy, NormalTy),
    /// The first kind was found, the second was needed.
    KindDiffer(Kind, Kind),
    /// Want of memory.
    Mem,
}

impl From<Mem> for DataRefusal {
    ghost use Rattle.std.specs.Prelude.{◌≡◌};
    ghost use Rattle.data_types.specs.Inner.Plain.{want_of_memory};

    ghost from_gives = { λ _ e. e ≡ want_of_memory };

    fn from(_refused: Mem) -> DataRefusal {
        DataRefusal::Mem
    }
}
