// Substitution of a term for a term variable.
ghost use Rattle.std.specs.Prelude.{◌≡◌, ◌+◌, ◌≤◌, IfOk, IsTrue};
ghost use Rattle.omega_types.specs.Index.{slot};
ghost use Rattle.omega_terms.specs.Inner.Bound.{term_bound};
ghost use Rattle.omega_terms.specs.TermSubst.{fill_term, put_term, shift_term};

use crate::inner::{Inner, OUTSIDE};
use crate::shifting::shift_term;
use crate::tree::{Term, TermNode};
use crate::walking::{Change, walk};
use omega_kinds::Mem;
use omega_types::Ty;
use std::alloc::Global;

/// The term with `arg` for the term variable `index`, and each greater index of a term variable lowered by one.
/// `arg` stands in the context of the result, and is shifted below each binder that it comes under.
/// `Err` is out of memory, also where an index would pass the last number.
///
/// Pierce, "Types and Programming Languages", section 6.2, Shifting and substitution.
pub fn put_term(alloc: Global, body: &Term, index: u64, arg: &Term) -> Result<Term, Mem>
    ensures { IfOk result (λ e. e ≡ put_term body.now index arg.now) }
{
    walk(alloc, body, &PutTerm { index, arg }, OUTSIDE)
}

// The term variable outside of all binders, and the term that is put in for it.
#[derive(Clone, Copy)]
struct PutTerm<'a> {
    index: u64,
    arg: &'a Term,
}

impl Change for PutTerm<'_> {
    ghost type_at = { λ s types t. t };

    ghost variable_at = { λ s types terms index. fill_term (shift_term s.arg.now types terms) (slot (s.index + terms) index) };

    fn is_unchanged(&self, term: &Term, inner: Inner) -> bool {
        is_below(term, self.index, inner.terms)
    }

    fn change_type(&self, _alloc: Global, ty: &Ty, _inner: Inner) -> Result<Ty, Mem> {
        ty.share()
    }

    fn change_variable(&self, alloc: Global, index: u64, inner: Inner) -> Result<Term, Mem> {
        put_in_variable(alloc, index, self.index, self.arg, inner)
    }
}

// Whether each free term variable of the term below so many binders is surely less than the one that is put in for.
fn is_below(term: &Term, index: u64, depth: u64) -> bool
    ensures { IsTrue result → term_bound term.now ≤ index + depth }
{
    term.term_bound() <= index.saturating_add(depth)
}

// What becomes of a variable below these binders.
#[tactic(auto, using(crate::proofs::Puts::put_variables))]
fn put_in_variable(
    alloc: Global,
    at: u64,
    index: u64,
    arg: &Term,
    inner: Inner,
) -> Result<Term, Mem>
    ensures { IfOk result (λ e. e ≡ fill_term (shift_term arg.now inner.types inner.terms) (slot (index + inner.terms) at)) }
{
    let sought = index.checked_add(inner.terms).ok_or(Mem)?;
    if at == sought {
        return shift_term(alloc, arg, inner.types, inner.terms);
    }
    if at < sought {
        return Term::make(alloc, TermNode::Var(at));
    }
    Term::make(alloc, TermNode::Var(at - 1))
}
