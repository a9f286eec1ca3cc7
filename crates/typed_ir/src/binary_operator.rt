// Operators of two operands, in groups (IEEE Std 1364-2005, 5.1).
ghost use Rattle.std.specs.Prelude.{◌≡◌};
ghost use Rattle.typed_ir.specs.Sized.{takes_widths};

use crate::arithmetic_operator::ArithmeticOperator;
use crate::comparison::Comparison;
use crate::logical_operator::LogicalOperator;
use crate::shift_operator::ShiftOperator;

/// An operator with two operands.
#[derive(Clone, Copy, Debug, PartialEq, Eq)]
pub enum BinaryOperator {
    Arithmetic(ArithmeticOperator),
    Compare(Comparison),
    Logical(LogicalOperator),
    Shift(ShiftOperator),
}

impl BinaryOperator {
    /// Whether it takes operands of these widths.
    pub fn takes(self, a: u8, b: u8) -> bool
        ensures { result ≡ takes_widths self a b }
    {
        match self {
            BinaryOperator::Arithmetic(_) | BinaryOperator::Compare(_) => a == b,
            BinaryOperator::Logical(_) | BinaryOperator::Shift(_) => true,
        }
    }
}
