// Why units do not link.
use omega_kinds::Mem;

/// Why units do not link.
#[derive(Clone, Copy, Debug, PartialEq, Eq)]
pub enum LinkRefusal {
    /// The unit of this index, counted from 0, is the first that stands under other interfaces than those of the units
    /// before it.
    Foreign { index: u32 },
    /// Want of memory.
    Mem,
}

impl From<Mem> for LinkRefusal {
    ghost use Rattle.std.specs.Prelude.{◌≡◌};
    ghost use Rattle.fing_units.specs.Inner.Plain.{want_of_memory};

    ghost from_gives = { λ _ e. e ≡ want_of_memory };

    fn from(_refused: Mem) -> LinkRefusal {
        LinkRefusal::Mem
    }
}
