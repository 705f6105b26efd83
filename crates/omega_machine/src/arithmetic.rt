// Operators on two numbers.
ghost use Rattle.std.specs.Prelude.{◌≡◌, MatchResult, MatchOption, Ok, Err};
ghost use Rattle.omega_terms.specs.Steps.{IsValue, Answer, compute as compute_of};
ghost use Rattle.omega_terms.specs.Inner.View.{term_of};
ghost use Rattle.omega_machine.specs.Inner.Outcomes.{fault_of};

use crate::outcome::Arith;
use omega_terms::{Op, TermNode};

/// What an operator on two numbers gives: a number or a truth value, or its fault.
pub(crate) fn compute(op: Op, left: i64, right: i64) -> Result<TermNode, Arith>
    ensures { MatchResult result
        (λ n. (compute_of op left right ≡ Answer.gives (term_of n)) × IsValue (term_of n))
        (λ x. compute_of op left right ≡ Answer.fails (fault_of x)) }
{
    match op {
        Op::Add => in_range(left.checked_add(right)),
        Op::Sub => in_range(left.checked_sub(right)),
        Op::Mul => in_range(left.checked_mul(right)),
        Op::Div if right == 0 => Err(Arith::DivideByZero),
        Op::Div => in_range(left.checked_div(right)),
        Op::Rem if right == 0 => Err(Arith::DivideByZero),
        Op::Rem => in_range(left.checked_rem(right)),
        Op::Less => Ok(TermNode::Bool(left < right)),
        Op::Equal => Ok(TermNode::Bool(left == right)),
    }
}

// The number, or an overflow where there is none.
fn in_range(number: Option<i64>) -> Result<TermNode, Arith>
    ensures { MatchOption number (result ≡ Err Arith.Overflow) (λ z. result ≡ Ok (TermNode.Int z)) }
{
    match number {
        Some(z) => Ok(TermNode::Int(z)),
        None => Err(Arith::Overflow),
    }
}
