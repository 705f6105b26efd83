// Operators on two numbers.

/// An operator on two numbers of signed 64 bits. The first five give a number, `Less` and `Equal` a truth value.
/// Division truncates toward zero, and the remainder has the dividend's sign.
#[derive(Clone, Copy, Debug, PartialEq, Eq)]
pub enum Op {
    Add,
    Sub,
    Mul,
    Div,
    Rem,
    Less,
    Equal,
}
