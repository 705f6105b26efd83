// The binders that stand round a part of a term.
ghost use Rattle.std.specs.Prelude.{◌≡◌, ◌+◌, IfOk};

use omega_kinds::Mem;
use omega_types::next_level;

/// How many binders of types, and how many of terms, stand round a part of a term.
#[derive(Clone, Copy)]
pub struct Inner {
    pub types: u64,
    pub terms: u64,
}

/// No binders.
pub const OUTSIDE: Inner = Inner { types: 0, terms: 0 };

impl Inner {
    /// One binder of types more. `Err` is out of memory: the number would pass the last one.
    pub fn under_type(self) -> Result<Inner, Mem>
        ensures types { IfOk result (λ i. i.types ≡ self.types + 1) }
        ensures terms { IfOk result (λ i. i.terms ≡ self.terms) }
    {
        Ok(Inner {
            types: next_level(self.types)?,
            terms: self.terms,
        })
    }

    /// One binder of terms more. `Err` is out of memory: the number would pass the last one.
    pub fn under_term(self) -> Result<Inner, Mem>
        ensures types { IfOk result (λ i. i.types ≡ self.types) }
        ensures terms { IfOk result (λ i. i.terms ≡ self.terms + 1) }
    {
        Ok(Inner {
            types: self.types,
            terms: next_level(self.terms)?,
        })
    }
}
