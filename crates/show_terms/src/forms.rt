// Which terms stand where without parentheses.
use omega_terms::{Op, Term, TermNode};

/// Which terms stand at a place without parentheses: all, those that can be operands, those that can be applied, and
/// those that can be arguments.
#[derive(Clone, Copy, Debug, PartialEq, Eq)]
pub enum Room {
    Whole,
    Operand,
    Applied,
    Argument,
}

/// Whether a term of this form needs parentheses at a place.
pub(crate) fn needs_parentheses(node: &TermNode, room: Room) -> bool {
    match node {
        TermNode::Var(_)
        | TermNode::Bool(_)
        | TermNode::Text(_)
        | TermNode::Fields(_)
        | TermNode::Get(_, _) => false,
        TermNode::Int(number) => *number < 0 && room != Room::Whole,
        TermNode::Call(function, _) => {
            room == Room::Argument || is_function(function) && room != Room::Whole
        }
        TermNode::Inst(_, _) => room == Room::Argument,
        TermNode::Unroll(_) => room == Room::Applied || room == Room::Argument,
        _ => room != Room::Whole,
    }
}

/// Whether a term is a function `fn`: a call of it is shown as a `let`.
pub fn is_function(term: &Term) -> bool {
    matches!(term.node(), TermNode::Lam(_, _))
}

/// Whether a term is written as it is where a larger one is left out: a variable, a number, a boolean, a text, an empty
/// record, one of one such term, or a path from it.
pub(crate) fn is_short(term: &Term) -> bool {
    match term.node() {
        TermNode::Var(_) | TermNode::Int(_) | TermNode::Bool(_) | TermNode::Text(_) => true,
        TermNode::Get(record, _) => is_short(record),
        TermNode::Fields(fields) => match fields.items() {
            [] => true,
            [field] => is_leaf(&field.1),
            _ => false,
        },
        _ => false,
    }
}

// Whether a term has no parts.
fn is_leaf(term: &Term) -> bool {
    matches!(
        term.node(),
        TermNode::Var(_) | TermNode::Int(_) | TermNode::Bool(_) | TermNode::Text(_)
    )
}

/// Whether a term is shown as `let` or as `unpack`.
pub(crate) fn is_binding(term: &Term) -> bool {
    match term.node() {
        TermNode::Call(function, _) => is_function(function),
        TermNode::Unpack(_, _) => true,
        _ => false,
    }
}

/// Whether a term is a function of types or of values.
pub(crate) fn is_abstraction(term: &Term) -> bool {
    matches!(term.node(), TermNode::Lam(_, _) | TermNode::TyLam(_, _))
}

/// How an operator is written.
pub fn operator_text(op: Op) -> &'static str {
    match op {
        Op::Add => "+",
        Op::Sub => "-",
        Op::Mul => "*",
        Op::Div => "/",
        Op::Rem => "%",
        Op::Less => "<",
        Op::Equal => "==",
    }
}
