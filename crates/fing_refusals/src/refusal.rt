// Why a program is refused, and where.
use fing_text::Span;
use omega_kinds::{Kind, Mem, Name};
use semantic_sigs::{Path, Why};
use type_normal::{NormalTy, plain};

/// Why a phrase is refused. Types stand where the refusal says, in so many type variables as it says.
///
/// The rules whose premises and conditions fail are those of Rossberg, Russo and Dreyer, "F-ing modules", sections 4, 5
/// and 7. The reasons are this project's own.
#[derive(Drop)]
pub enum ElabWhy {
    /// Nothing has this name.
    Unbound(Name),
    /// What should be a structure is none.
    NotStructure,
    /// The structure has no part of this name.
    NoPart(Name),
    /// What is applied to a module is no functor.
    NotFunctor,
    /// The path leads to a part of another form than its place needs.
    WrongPath,
    /// The type or signature of the path mentions a hidden type.
    Escapes,
    /// In matching, the hidden type of this number on the right has no type on the left along its least root path. Both
    /// are those of the match at the last functor's part or signature part on the way there, with which the path begins.
    NoRoot { index: u64, path: Path },
    /// In matching, the parts at the path do not agree.
    Clash { path: Path, why: Why },
    /// What is applied to an expression has this type, which is no arrow.
    NotArrow(NormalTy),
    /// What is applied to a type has this type, which quantifies nothing.
    NotAll(NormalTy),
    /// What a field is taken of has this type, which is no record.
    NotRecord(NormalTy),
    /// What is injected into, or taken apart by cases, has this type, which is no sum.
    NotSum(NormalTy),
    /// What is rolled to, or unrolled, is this type, which is no recursive one.
    NotData(NormalTy),
    /// The record has no field, or the sum no label, of this name.
    NoField(Name),
    /// This is the least label of the sum without a branch.
    NoBranch(Name),
    /// The first type was found, the second was needed.
    Differ(NormalTy, NormalTy),
    /// The first kind was found, the second was needed.
    KindDiffer(Kind, Kind),
    /// What is applied to a type has kind `*`.
    NotOperator,
    /// A record has this name twice.
    DuplicateField(Name),
    /// A declaration's name is declared before.
    Duplicate(Name),
    /// What `where type` names is no hidden type of its signature.
    NotAbstract(Path),
    /// Want of memory.
    Mem,
}

/// A refusal: the place of the phrase in byte offsets, the number of type variables in scope where the types of the reason
/// stand, and the reason. For out of memory the place is from 0 to 0, and the number is 0.
#[derive(Drop)]
pub struct Refusal {
    pub at: Span,
    pub types: u64,
    pub why: ElabWhy,
}

impl From<Mem> for Refusal {
    ghost use Rattle.std.specs.Prelude.{◌≡◌};
    ghost use Rattle.fing_refusals.specs.Inner.Plain.{want_of_memory};

    ghost from_gives = { λ _ e. e ≡ want_of_memory };

    fn from(_refused: Mem) -> Refusal {
        Refusal {
            at: Span { from: 0, to: 0 },
            types: 0,
            why: ElabWhy::Mem,
        }
    }
}

impl Refusal {
    /// Whether the text of each type in the reason is short enough to be written: at most 268,435,456 forms. It decides
    /// nothing but where memory is refused. Takes no memory.
    pub fn is_written(&self) -> bool {
        match &self.why {
            ElabWhy::Clash { why, .. } => match why {
                Why::Types(found, needed) => are_written(found, needed),
                Why::Form | Why::Missing | Why::Effect => true,
            },
            ElabWhy::Differ(found, needed) => are_written(found, needed),
            ElabWhy::NotArrow(ty)
            | ElabWhy::NotAll(ty)
            | ElabWhy::NotRecord(ty)
            | ElabWhy::NotSum(ty)
            | ElabWhy::NotData(ty) => plain(ty).extent().is_written(),
            _ => true,
        }
    }
}

// Whether the texts of two types are short enough.
fn are_written(a: &NormalTy, b: &NormalTy) -> bool {
    let a = plain(a).extent();
    let b = plain(b).extent();
    a.beside(b).is_written()
}
