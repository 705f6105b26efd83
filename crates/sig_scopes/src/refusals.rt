// Whether the types of refusals are in scope.
ghost use Rattle.std.specs.Prelude.{◌≡◌, ◌+◌, ◌^◌, ◌<◌, ◌&&◌, IsTrue};
ghost use Rattle.omega_scopes.specs.Inner.Scoped.{ty_scoped};
ghost use Rattle.fing_refusals.specs.Inner.InScope.{HasLine};
ghost use Rattle.fing_refusals.specs.Inner.Plain.{plain_clash, plain_reason, plain_refusal};
ghost use Rattle.sig_scopes.specs.Inner.ReasonScoped.{clash_scoped, given_scoped, given_depth};

use fing_refusals::{ElabWhy, Refusal};
use omega_scopes::ty_in_scope;
use semantic_sigs::Why;
use type_normal::{NormalTy, plain};

/// Whether the refusal has a line: it is not out of memory, and each variable of its types is among the type variables
/// that it says are in scope, and has a level below 2^64. It may be false also where 2^64 variables or more are in scope
/// below a binder of a type in it. Takes no memory.
pub fn refusal_in_scope(refusal: &Refusal) -> bool
    ensures sound { IsTrue result → HasLine (plain_refusal refusal.now) }
    ensures complete { HasLine (plain_refusal refusal.now) → refusal.now.types + given_depth (plain_reason refusal.now.why) < 2 ^ 64 → IsTrue result }
{
    fits_reason(refusal.types, &refusal.why)
}

// Whether each variable of the reason is in scope.
fn fits_reason(types: u64, why: &ElabWhy) -> bool
    ensures { result ≡ given_scoped types (plain_reason why.now) }
{
    match why {
        ElabWhy::Clash { why, .. } => fits_clash(types, why),
        ElabWhy::NotArrow(ty) => ty_in_scope(types, plain(ty)),
        ElabWhy::NotAll(ty) => ty_in_scope(types, plain(ty)),
        ElabWhy::NotRecord(ty) => ty_in_scope(types, plain(ty)),
        ElabWhy::NotSum(ty) => ty_in_scope(types, plain(ty)),
        ElabWhy::NotData(ty) => ty_in_scope(types, plain(ty)),
        ElabWhy::Differ(found, needed) => fits_two(types, found, needed),
        ElabWhy::Unbound(_)
        | ElabWhy::NotStructure
        | ElabWhy::NoPart(_)
        | ElabWhy::NotFunctor
        | ElabWhy::WrongPath
        | ElabWhy::Escapes
        | ElabWhy::NoRoot { .. }
        | ElabWhy::NoField(_)
        | ElabWhy::NoBranch(_)
        | ElabWhy::KindDiffer(_, _)
        | ElabWhy::NotOperator
        | ElabWhy::DuplicateField(_)
        | ElabWhy::Duplicate(_)
        | ElabWhy::NotAbstract(_) => true,
        ElabWhy::Mem => false,
    }
}

// Whether each variable of the two types that clash is in scope.
fn fits_clash(types: u64, why: &Why) -> bool
    ensures { result ≡ clash_scoped types (plain_clash why.now) }
{
    match why {
        Why::Form | Why::Missing | Why::Effect => true,
        Why::Types(left, right) => fits_two(types, left, right),
    }
}

// Whether each variable of the two types is in scope.
fn fits_two(types: u64, first: &NormalTy, second: &NormalTy) -> bool
    ensures { result ≡ (ty_scoped types first.now && ty_scoped types second.now) }
{
    ty_in_scope(types, plain(first)) && ty_in_scope(types, plain(second))
}
