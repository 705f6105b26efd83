// The number of nodes.
ghost use Rattle.std.specs.Prelude.{◌≡◌, ◌^◌, ◌-◌, min};
ghost use Rattle.omega_terms.specs.Fields.{term_row};
ghost use Rattle.omega_terms.specs.Nodes.{nodes, row_nodes};

use crate::tree::{Term, TermFields, TermNode};

/// The number of nodes of a term without its types, or the greatest `u64` where it is more. A part that stands at two
/// places is counted twice, and a field of a record, or a branch of a case, is the term in it. Takes no memory.
#[cycle(nodes)]
pub fn nodes(term: &Term) -> u64
    ensures { result ≡ min (nodes term.now) (2 ^ 64 - 1) }
{
    let below = match term.node() {
        TermNode::Var(_) | TermNode::Int(_) | TermNode::Bool(_) | TermNode::Text(_) => 0,
        TermNode::Lam(_, e)
        | TermNode::TyLam(_, e)
        | TermNode::Inst(e, _)
        | TermNode::Get(e, _)
        | TermNode::Pack(_, e, _)
        | TermNode::Fix(_, _, e)
        | TermNode::Inj(_, e, _)
        | TermNode::Roll(e, _)
        | TermNode::Unroll(e) => nodes(e),
        TermNode::Call(a, b) | TermNode::Unpack(a, b) | TermNode::Arith(_, a, b) => nodes(
            a,
        ).saturating_add(nodes(b)),
        TermNode::Fields(fields) => field_nodes(fields),
        TermNode::Case(e, _, branches) => nodes(e).saturating_add(field_nodes(branches)),
        TermNode::If(a, b, c) => nodes(a).saturating_add(nodes(b)).saturating_add(nodes(c)),
    };
    below.saturating_add(1)
}

// The number of nodes of the fields, or of the branches.
#[cycle(nodes)]
fn field_nodes(fields: &TermFields) -> u64
    ensures { result ≡ min (row_nodes (term_row fields.now)) (2 ^ 64 - 1) }
{
    let mut count: u64 = 0;
    for field in fields.items() {
        count = count.saturating_add(nodes(&field.1));
    }
    count
}
