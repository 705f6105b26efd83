// Why a rule of modules is refused.
use omega_kinds::{Mem, Name};

/// Why a rule of modules is refused.
#[derive(Drop)]
pub enum ModRefusal {
    /// The name is not bound.
    Unbound(Name),
    /// The structure has no part of this name.
    NoPart(Name),
    /// What a part is taken of, or what is included, is no structure.
    NotStructure,
    /// What is applied is no functor.
    NotFunctor,
    /// A path has another form than its position needs.
    WrongPath,
    /// What a path stands for mentions a type that its module hides.
    Escapes,
    /// Want of memory.
    Mem,
}

impl From<Mem> for ModRefusal {
    ghost use Rattle.std.specs.Prelude.{◌≡◌};
    ghost use Rattle.module_rules.specs.Inner.Plain.{want_of_memory};

    ghost from_gives = { λ _ e. e ≡ want_of_memory };

    fn from(_refused: Mem) -> ModRefusal {
        ModRefusal::Mem
    }
}
