// A term at types for its innermost type variables.
ghost use Rattle.std.specs.Prelude.{◌≡◌, ◌↔◌, ◌≤◌, List, IfOk, IsTrue};
ghost use Rattle.omega_kinds.specs.Kind.{Kind as KindTree};
ghost use Rattle.omega_types.specs.Binders.{extend, puts, NormalForms};
ghost use Rattle.omega_types.specs.Ty.{Var};
ghost use Rattle.omega_terms.specs.Inner.Bound.{type_bound};
ghost use Rattle.omega_terms.specs.Instance.{Instance};
ghost use Rattle.omega_terms.specs.Term.{Var as TermVar};
ghost use Rattle.sig_laws.specs.Good.{NormalTerm};
ghost use Rattle.semantic_sigs.specs.Inner.Changes.{ty_in, sunk, putting};

use omega_kinds::Mem;
use omega_terms::{Change, Inner, OUTSIDE, Term, TermNode, walk};
use omega_types::Ty;
use semantic_sigs::put_types;
use std::alloc::Global;
use type_normal::{NormalTy, as_normal, plain};

// Normal types, put in for as many of the innermost type variables, the first for the outermost of them.
#[derive(Clone, Copy)]
struct Filling<'a> {
    types: &'a [NormalTy],
}

impl Change for Filling<'_> {
    ghost type_at = { λ s depth t. ty_in (sunk depth (putting s.types.now)) t };

    ghost variable_at = { λ s types terms index. TermVar index };

    fn is_unchanged(&self, term: &Term, inner: Inner) -> bool {
        is_closed(term, inner.types)
    }

    fn change_type(&self, alloc: Global, ty: &Ty, inner: Inner) -> Result<Ty, Mem> {
        let filled = put_types(alloc, &as_normal(ty.share()?), self.types, inner.types)?;
        plain(&filled).share()
    }

    fn change_variable(&self, alloc: Global, index: u64, _inner: Inner) -> Result<Term, Mem> {
        Term::make(alloc, TermNode::Var(index))
    }
}

// Whether the term mentions no type variable from outside so many binders.
fn is_closed(term: &Term, depth: u64) -> bool
    ensures { IsTrue result ↔ (type_bound term.now ≤ depth) }
{
    term.type_bound() <= depth
}

/// A term whose types are normal, with normal types of the right kinds put in for its innermost type variables, one for
/// each, the first for the outermost; each type in the result is in normal form. The types stand outside of these
/// variables. `Err` is out of memory, also where an index would pass the last number.
///
/// Rossberg, Russo and Dreyer, "F-ing modules", section 7, Applicative functors: the hidden types of a pure module put
/// into what comes after it.
#[tactic(auto, using(crate::proofs::InstanceLaws::instance_given))]
pub fn instance(alloc: Global, term: &Term, types: &[NormalTy]) -> Result<Term, Mem>
    ensures { IfOk result (λ e. (ctx ks : List KindTree) → NormalTerm (extend ctx ks) term.now → NormalForms ctx types.now ks types.now → Instance (extend ctx ks) ctx (puts types.now Var) term.now e) }
{
    if types.is_empty() {
        return term.share();
    }
    walk(alloc, term, &Filling { types }, OUTSIDE)
}
