// What a run comes to.
use crate::shown::Shown;

/// A fault of an operator on two numbers.
#[derive(Clone, Copy, Debug, PartialEq, Eq)]
pub enum Arith {
    /// The result is outside the signed 64 bits, or the least number was divided by -1.
    Overflow,
    /// The divisor is zero.
    DivideByZero,
}

/// What a run comes to: a value with its text, or a fault, each with the number of steps, the step of a fault being
/// counted; or the budget was spent.
#[derive(Drop)]
pub enum End {
    Value { shown: Shown, steps: u64 },
    Fault { fault: Arith, steps: u64 },
    Spent,
}
