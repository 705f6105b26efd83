// Why a rule of types or of expressions is refused.
use omega_kinds::{Kind, Mem, Name};
use type_normal::NormalTy;

/// Why a rule of types or of expressions is refused. Types and kinds stand where the rule's premises do.
#[derive(Drop)]
pub enum CoreRefusal {
    /// What is applied to an expression has this type, which is no arrow.
    NotArrow(NormalTy),
    /// What is applied to a type has this type, which quantifies nothing.
    NotAll(NormalTy),
    /// What a field is taken of has this type, which is no record.
    NotRecord(NormalTy),
    /// What is injected into, or taken apart by cases, has this type, which is no sum.
    NotSum(NormalTy),
    /// The record has no field, or the sum no label, of this name.
    NoField(Name),
    /// This is the least label of the sum without a branch.
    NoBranch(Name),
    /// The first type was found, the second was needed.
    Differ(NormalTy, NormalTy),
    /// The first kind was found, the second was needed.
    KindDiffer(Kind, Kind),
    /// What is applied to a type has kind `*`.
    NotOperator,
    /// A record, a sum or a case has this name twice.
    DuplicateField(Name),
    /// Want of memory.
    Mem,
}

impl From<Mem> for CoreRefusal {
    ghost use Rattle.std.specs.Prelude.{◌≡◌};
    ghost use Rattle.core_rules.specs.Inner.Plain.{want_of_memory};

    ghost from_gives = { λ _ e. e ≡ want_of_memory };

    fn from(_refused: Mem) -> CoreRefusal {
        CoreRefusal::Mem
    }
}
