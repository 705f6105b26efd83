// Substitution of a type for a type variable in terms.
ghost use Rattle.std.specs.Prelude.{◌≡◌, ◌+◌, ◌≤◌, IfOk, IsTrue};
ghost use Rattle.omega_types.specs.Index.{shift, substitute_at};
ghost use Rattle.omega_terms.specs.Inner.Bound.{type_bound};
ghost use Rattle.omega_terms.specs.Term.{Var as TermVar};
ghost use Rattle.omega_terms.specs.TermSubst.{put_type};

use crate::inner::{Inner, OUTSIDE};
use crate::tree::{Term, TermNode};
use crate::walking::{Change, walk};
use omega_kinds::Mem;
use omega_types::{Ty, shift, substitute};
use std::alloc::Global;

/// The term with `arg` for the type variable `index`, and each greater index of a type variable lowered by one.
/// `arg` stands in the context of the result, and is shifted below each binder that it comes under.
/// `Err` is out of memory, also where an index would pass the last number.
///
/// Pierce, "Types and Programming Languages", section 6.2, Shifting and substitution.
pub fn put_type(alloc: Global, body: &Term, index: u64, arg: &Ty) -> Result<Term, Mem>
    ensures { IfOk result (λ e. e ≡ put_type body.now index arg.now) }
{
    walk(alloc, body, &PutType { index, arg }, OUTSIDE)
}

// The type variable outside of all binders, and the type that is put in for it.
#[derive(Clone, Copy)]
struct PutType<'a> {
    index: u64,
    arg: &'a Ty,
}

impl Change for PutType<'_> {
    ghost type_at = { λ s types t. substitute_at (s.index + types) (shift types 0 s.arg.now) t };

    ghost variable_at = { λ s types terms index. TermVar index };

    fn is_unchanged(&self, term: &Term, inner: Inner) -> bool {
        is_below(term, self.index, inner.types)
    }

    fn change_type(&self, alloc: Global, ty: &Ty, inner: Inner) -> Result<Ty, Mem> {
        put_in_type(alloc, ty, self.index, self.arg, inner.types)
    }

    fn change_variable(&self, alloc: Global, index: u64, _inner: Inner) -> Result<Term, Mem> {
        Term::make(alloc, TermNode::Var(index))
    }
}

// Whether each free type variable of the term below so many binders is surely less than the one that is put in for.
fn is_below(term: &Term, index: u64, depth: u64) -> bool
    ensures { IsTrue result → type_bound term.now ≤ index + depth }
{
    term.type_bound() <= index.saturating_add(depth)
}

// The type below so many binders with the argument put in.
#[tactic(auto, using(crate::proofs::Puts::put_types))]
fn put_in_type(alloc: Global, ty: &Ty, index: u64, arg: &Ty, depth: u64) -> Result<Ty, Mem>
    ensures { IfOk result (λ t. t ≡ substitute_at (index + depth) (shift depth 0 arg.now) ty.now) }
{
    let at = index.checked_add(depth).ok_or(Mem)?;
    if ty.bound() <= at {
        return ty.share();
    }
    let arg = shift(alloc, arg, depth, 0)?;
    substitute(alloc, ty, at, &arg)
}
