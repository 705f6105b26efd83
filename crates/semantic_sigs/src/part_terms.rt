// The terms of value parts and of type parts.
ghost use Rattle.std.specs.Prelude.{◌≡◌, suc, IfOk};
ghost use Rattle.omega_kinds.specs.View.{kind_tree};
ghost use Rattle.omega_types.specs.Substitution.{rename};
ghost use Rattle.omega_types.specs.Ty.{Apply, Var};
ghost use Rattle.omega_terms.specs.PartTerms.{one_field as one_field_of, value_term as value_term_of, type_term as type_term_of};

use omega_kinds::{Kind, Label, Mem, arrow};
use omega_terms::{Term, TermFields, TermNode};
use omega_types::{Ty, TyNode, shift};
use std::alloc::Global;

/// The term of a value part that holds a value. `Err` is out of memory.
///
/// Rossberg, Russo and Dreyer, "F-ing modules", section 4, figure of the encoding.
pub fn value_term(alloc: Global, value: Term) -> Result<Term, Mem>
    ensures { IfOk result (λ e. e ≡ value_term_of value) }
{
    one_field(alloc, Label::Val, value)
}

/// The term of a type part that shows a type of a kind: an identity at it. `Err` is out of memory, also where an index
/// would pass the last number.
///
/// Rossberg, Russo and Dreyer, "F-ing modules", section 4, figure of the encoding.
pub fn type_term(alloc: Global, ty: &Ty, kind: &Kind) -> Result<Term, Mem>
    ensures { IfOk result (λ e. e ≡ type_term_of ty.now (kind_tree kind.now)) }
{
    let shown = at_predicate(alloc, ty)?;
    let body = Term::make(alloc, TermNode::Var(0))?;
    let identity = Term::make(alloc, TermNode::Lam(shown, body))?;
    let kind = arrow(alloc, kind.share()?, Kind::Star)?;
    one_field(
        alloc,
        Label::Typ,
        Term::make(alloc, TermNode::TyLam(kind, identity))?,
    )
}

// A predicate, the innermost variable, at a type from outside it.
pub(crate) fn at_predicate(alloc: Global, ty: &Ty) -> Result<Ty, Mem>
    ensures { IfOk result (λ t. t ≡ Apply (Var 0) (rename suc ty.now)) }
{
    let predicate = Ty::make(alloc, TyNode::Var(0))?;
    Ty::make(alloc, TyNode::Apply(predicate, shift(alloc, ty, 1, 0)?))
}

// A record of one field.
fn one_field(alloc: Global, label: Label, term: Term) -> Result<Term, Mem>
    ensures { IfOk result (λ e. e ≡ one_field_of label term) }
{
    let mut fields = TermFields::with_capacity(alloc, 1)?;
    fields.push((label, term))?;
    Term::make(alloc, TermNode::Fields(fields))
}
