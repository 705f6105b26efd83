// Type constructors that are a variable in eta-long form.
use omega_types::{Ty, TyNode};

/// The index of the variable that a type is, applied to exactly the variables of its own binders in order; as it is
/// written outside these. `None` where the type is none.
pub fn eta_variable(ty: &Ty) -> Option<u64> {
    applied_variable(ty, 0)
}

// The same of a type below so many binders.
#[cycle(applied)]
fn applied_variable(ty: &Ty, count: u64) -> Option<u64> {
    match ty.node() {
        TyNode::Lam(_, body) => applied_variable(body, count.saturating_add(1)),
        _ => operator(ty, 0, count),
    }
}

// The same of what is left of an application: the last of the arguments that are still to come is the variable
// `next`.
#[cycle(applied)]
fn operator(ty: &Ty, next: u64, left: u64) -> Option<u64> {
    match ty.node() {
        TyNode::Var(index) if left == 0 => index.checked_sub(next),
        TyNode::Apply(function, argument) if left > 0 => {
            if applied_variable(argument, 0) == Some(next) {
                operator(function, next.saturating_add(1), left - 1)
            } else {
                None
            }
        }
        _ => None,
    }
}
