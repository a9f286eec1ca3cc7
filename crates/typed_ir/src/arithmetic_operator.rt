// Operators on two operands of one width (IEEE Std 1364-2005, 5.1.5, 5.1.10).
use crate::signedness::Signedness;

/// An operator whose operands and result have one width.
#[derive(Clone, Copy, Debug, PartialEq, Eq)]
pub enum ArithmeticOperator {
    Sum,
    Difference,
    Product,
    /// `/`
    Quotient(Signedness),
    /// `%`
    Remainder(Signedness),
    And,
    Or,
    Xor,
    Xnor,
}
