// Why steps make no tree.
ghost use Rattle.std.specs.Prelude.{◌≡◌};

use omega_kinds::Mem;
use std::alloc::AllocFailed;

/// The top part is not what is asked for, or there is none.
#[derive(Clone, Copy, Debug, PartialEq, Eq)]
pub struct Misfit;

/// Why steps make no tree: a production does not find its parts, or want of memory.
#[derive(Clone, Copy, Debug, PartialEq, Eq)]
pub enum BuildRefusal {
    Misfit,
    Mem,
}

impl From<Misfit> for BuildRefusal {
    ghost use Rattle.parse_stack.specs.declared.refusal.BuildRefusal.TheVariants.{Misfit as NoFit};

    ghost from_gives = { λ _ e. e ≡ NoFit };

    fn from(_refused: Misfit) -> BuildRefusal {
        BuildRefusal::Misfit
    }
}

impl From<Mem> for BuildRefusal {
    ghost use Rattle.parse_stack.specs.declared.refusal.BuildRefusal.TheVariants.{Mem as WantOfMemory};

    ghost from_gives = { λ _ e. e ≡ WantOfMemory };

    fn from(_refused: Mem) -> BuildRefusal {
        BuildRefusal::Mem
    }
}

impl<T: Drop> From<AllocFailed<T>> for BuildRefusal {
    ghost use Rattle.parse_stack.specs.declared.refusal.BuildRefusal.TheVariants.{Mem as WantOfMemory};

    ghost from_gives = { λ _ e. e ≡ WantOfMemory };

    fn from(_refused: AllocFailed<T>) -> BuildRefusal {
        BuildRefusal::Mem
    }
}
