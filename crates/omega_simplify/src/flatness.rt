// Functions that give their argument back.
ghost use Rattle.std.specs.Prelude.{◌≡◌};
ghost use Rattle.omega_types.specs.Fields.{row};
ghost use Rattle.omega_terms.specs.Fields.{term_row};
ghost use Rattle.omega_terms.specs.Term.{Term as TermTree};
ghost use Rattle.omega_simplify_laws.specs.Simplified.{is_argument, is_part, are_parts, is_flat};

use omega_kinds::{Label, compare};
use omega_terms::{Term, TermFields, TermNode};
use omega_types::{Ty, TyFields, TyNode};

// Whether a function is flat: its body is its own variable, or the record of that variable's parts at the labels of the
// record type that is written at the variable.
pub(crate) fn is_flat(function: &Term) -> bool
    ensures { result ≡ is_flat function.now }
{
    match function.node() {
        TermNode::Lam(from, body) => gives_back(from, body),
        _ => false,
    }
}

// Whether the function from this type with this body is flat.
fn gives_back(from: &Ty, body: &Term) -> bool
    ensures { result ≡ is_flat (TermTree.Lam from.now body.now) }
{
    match (body.node(), from.node()) {
        (TermNode::Var(index), _) => *index == 0,
        (TermNode::Fields(fields), TyNode::Fields(types)) => are_parts(types, fields),
        _ => false,
    }
}

// Whether the fields are the parts of the variable 0 at exactly these labels.
fn are_parts(types: &TyFields, fields: &TermFields) -> bool
    ensures { result ≡ are_parts (row types.now) (term_row fields.now) }
{
    let types = types.items();
    let fields = fields.items();
    if types.len() != fields.len() {
        return false;
    }
    for i in 0..types.len() {
        let label = &types[i].0;
        let field = &fields[i];
        if !compare(label, &field.0).is_eq() || !is_part(label, &field.1) {
            return false;
        }
    }
    true
}

// Whether a term is the part of the variable 0 at this label.
fn is_part(label: &Label, term: &Term) -> bool
    ensures { result ≡ is_part label.now term.now }
{
    match term.node() {
        TermNode::Get(whole, own) => is_argument(whole) && compare(label, own).is_eq(),
        _ => false,
    }
}

// Whether a term is the variable 0.
fn is_argument(term: &Term) -> bool
    ensures { result ≡ is_argument term.now }
{
    match term.node() {
        TermNode::Var(index) => *index == 0,
        _ => false,
    }
}
