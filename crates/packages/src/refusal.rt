// Why unpacking is refused.
use omega_kinds::Mem;
use type_normal::NormalTy;

/// Why unpacking is refused.
#[derive(Drop)]
pub enum UnpackRefusal {
    /// The value's type was found, the package type of the target was needed.
    Differ(NormalTy, NormalTy),
    /// Want of memory.
    Mem,
}

impl From<Mem> for UnpackRefusal {
    ghost use Rattle.std.specs.Prelude.{◌≡◌};
    ghost use Rattle.packages.specs.Inner.Plain.{want_of_memory};

    ghost from_gives = { λ _ e. e ≡ want_of_memory };

    fn from(_refused: Mem) -> UnpackRefusal {
        UnpackRefusal::Mem
    }
}
