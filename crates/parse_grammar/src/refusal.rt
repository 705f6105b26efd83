// Why a list of tokens has no tree.
ghost use Rattle.std.specs.Prelude.{◌≡◌};

use omega_kinds::Mem;
use std::alloc::AllocFailed;
use thiserror::Error;

/// Why a list of tokens has no tree.
#[derive(Clone, Copy, Debug, PartialEq, Eq, Error)]
pub enum ParseRefusal {
    /// The tokens are no phrase of the start class: the longest front of them that begins one has `at` tokens.
    #[error("no such text goes on behind {at} tokens")]
    Syntax { at: u32 },
    /// Want of memory.
    #[error("out of memory")]
    Mem,
}

impl From<Mem> for ParseRefusal {
    ghost use Rattle.parse_grammar.specs.declared.refusal.ParseRefusal.TheVariants.{Mem as WantOfMemory};

    ghost from_gives = { λ _ e. e ≡ WantOfMemory };

    fn from(_refused: Mem) -> ParseRefusal {
        ParseRefusal::Mem
    }
}

impl<T: Drop> From<AllocFailed<T>> for ParseRefusal {
    ghost use Rattle.parse_grammar.specs.declared.refusal.ParseRefusal.TheVariants.{Mem as WantOfMemory};

    ghost from_gives = { λ _ e. e ≡ WantOfMemory };

    fn from(_refused: AllocFailed<T>) -> ParseRefusal {
        ParseRefusal::Mem
    }
}
