// Shifts of terms.
ghost use Rattle.std.specs.Prelude.{◌≡◌, ◌⊎◌, ◌≤◌, IfOk, IsTrue};
ghost use Rattle.omega_types.specs.Index.{bump, shift};
ghost use Rattle.omega_terms.specs.Inner.Bound.{type_bound, term_bound};
ghost use Rattle.omega_terms.specs.Term.{Var as TermVar};
ghost use Rattle.omega_terms.specs.TermSubst.{shift_term};

use crate::inner::{Inner, OUTSIDE};
use crate::tree::{Term, TermNode};
use crate::walking::{Change, walk};
use omega_kinds::Mem;
use omega_types::{Ty, shift};
use std::alloc::Global;

/// The term with `types` added to each free type index and `terms` to each free term index.
/// `Err` is out of memory, also where an index would pass the last number.
///
/// Pierce, "Types and Programming Languages", section 6.2, Shifting and substitution.
pub fn shift_term(alloc: Global, term: &Term, types: u64, terms: u64) -> Result<Term, Mem>
    ensures { IfOk result (λ e. e ≡ shift_term term.now types terms) }
{
    walk(alloc, term, &Raise { types, terms }, OUTSIDE)
}

// So much is added to each free index of a type variable, and so much to each of a term variable.
#[derive(Clone, Copy)]
struct Raise {
    types: u64,
    terms: u64,
}

impl Change for Raise {
    ghost type_at = { λ s types t. shift s.types types t };

    ghost variable_at = { λ s types terms index. TermVar (bump s.terms terms index) };

    fn is_unchanged(&self, term: &Term, inner: Inner) -> bool {
        is_kept(self.types, term.type_bound(), inner.types)
            && is_kept(self.terms, term.term_bound(), inner.terms)
    }

    fn change_type(&self, alloc: Global, ty: &Ty, inner: Inner) -> Result<Ty, Mem> {
        shift(alloc, ty, self.types, inner.types)
    }

    fn change_variable(&self, alloc: Global, index: u64, inner: Inner) -> Result<Term, Mem> {
        raise_variable(alloc, index, self.terms, inner.terms)
    }
}

// Whether `by` changes nothing in a tree with this bound, if it is added to each index that is at least `from`.
fn is_kept(by: u64, bound: u64, from: u64) -> bool
    ensures { IsTrue result → (by ≡ 0) ⊎ (bound ≤ from) }
{
    by == 0 || bound <= from
}

// A variable, raised where it is at least `from`.
#[tactic(auto, using(crate::proofs::OneIndex::shift_vars))]
fn raise_variable(alloc: Global, index: u64, by: u64, from: u64) -> Result<Term, Mem>
    ensures { IfOk result (λ e. e ≡ TermVar (bump by from index)) }
{
    if index < from {
        return Term::make(alloc, TermNode::Var(index));
    }
    let raised = index.checked_add(by).ok_or(Mem)?;
    Term::make(alloc, TermNode::Var(raised))
}
