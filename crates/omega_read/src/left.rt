// The bytes that are left to read.
ghost use Rattle.std.specs.Prelude.{◌≡◌, MatchBool, MatchResult, Some, None};
ghost use Rattle.omega_spelling.specs.Reading.{strip};

use omega_kinds::Mem;
use std::alloc::{AllocError, AllocFailed};

// Why nothing was read: out of memory, or bytes that are not what was to be read.
#[derive(Clone, Copy, Debug, PartialEq, Eq)]
pub enum Stop {
    Mem,
    NotOmega,
}

impl From<Mem> for Stop {
    ghost use Rattle.std.specs.Prelude.{◌≡◌};
    ghost use Rattle.omega_read.specs.declared.left.Stop.TheVariants.{Mem};

    ghost from_gives = { λ _ e. e ≡ Mem };

    fn from(_refused: Mem) -> Stop {
        Stop::Mem
    }
}

impl From<AllocError> for Stop {
    ghost use Rattle.std.specs.Prelude.{◌≡◌};
    ghost use Rattle.omega_read.specs.declared.left.Stop.TheVariants.{Mem};

    ghost from_gives = { λ _ e. e ≡ Mem };

    fn from(_refused: AllocError) -> Stop {
        Stop::Mem
    }
}

impl<T: Drop> From<AllocFailed<T>> for Stop {
    ghost use Rattle.std.specs.Prelude.{◌≡◌};
    ghost use Rattle.omega_read.specs.declared.left.Stop.TheVariants.{Mem};

    ghost from_gives = { λ _ e. e ≡ Mem };

    fn from(_refused: AllocFailed<T>) -> Stop {
        Stop::Mem
    }
}

// The bytes that are left.
#[derive(Drop)]
pub struct Left<'a> {
    pub rest: &'a [u8],
}

impl Left<'_> {
    // Takes these bytes from the start, where they are there.
    pub fn eat(&mut self, front: &[u8]) -> bool
        ensures { MatchBool result
            (strip front.now self.old.rest.now ≡ Some self.new.rest.now)
            ((strip front.now self.old.rest.now ≡ None) × (self.new.rest.now ≡ self.old.rest.now)) }
    {
        match self.rest.strip_prefix(front) {
            Some(rest) => {
                self.rest = rest;
                true
            }
            None => false,
        }
    }

    // Takes these bytes from the start, which must be there.
    pub fn expect_bytes(&mut self, front: &[u8]) -> Result<(), Stop>
        ensures { MatchResult result
            (λ _. strip front.now self.old.rest.now ≡ Some self.new.rest.now)
            (λ e. (e ≡ Stop.NotOmega) × (strip front.now self.old.rest.now ≡ None)) }
    {
        if self.eat(front) {
            Ok(())
        } else {
            Err(Stop::NotOmega)
        }
    }
}
