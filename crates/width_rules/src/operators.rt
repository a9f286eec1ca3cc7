// What the operators of a text do.
ghost use Rattle.std.specs.Prelude.{◌≡◌};
ghost use Rattle.width_rules.specs.Operators.{unary_kind, operator_of, arithmetic_with, comparison_with, shift_with};

use crate::kinds::UnaryKind;
use typed_ir::{
    ArithmeticOperator, BinaryOperator, Comparison, LogicalOperator, ShiftOperator, Signedness,
    UnaryOperator,
};
use verilog_ast::{BinaryOperator as Written, UnaryOperator as WrittenBefore};

/// What an operator before its operand does.
pub fn unary_kind(op: WrittenBefore) -> UnaryKind
    ensures { result ≡ unary_kind op }
{
    match op {
        WrittenBefore::Plus => UnaryKind::Kept,
        WrittenBefore::Minus => UnaryKind::Negated,
        WrittenBefore::Invert => UnaryKind::Inverted,
        WrittenBefore::LogicalNot => UnaryKind::OneBit(UnaryOperator::NoOne),
        WrittenBefore::ReduceAnd => UnaryKind::OneBit(UnaryOperator::AllOnes),
        WrittenBefore::ReduceOr => UnaryKind::OneBit(UnaryOperator::AnyOne),
        WrittenBefore::ReduceXor => UnaryKind::OneBit(UnaryOperator::OddOnes),
        WrittenBefore::ReduceNand => UnaryKind::Complement(UnaryOperator::AllOnes),
        WrittenBefore::ReduceNor => UnaryKind::OneBit(UnaryOperator::NoOne),
        WrittenBefore::ReduceXnor => UnaryKind::Complement(UnaryOperator::OddOnes),
    }
}

/// What an operator between its operands does, where these are unsigned.
pub fn operator_of(op: Written) -> BinaryOperator
    ensures { result ≡ operator_of op }
{
    match op {
        Written::Multiply => BinaryOperator::Arithmetic(ArithmeticOperator::Product),
        Written::Divide => BinaryOperator::Arithmetic(ArithmeticOperator::Quotient(
            Signedness::Unsigned,
        )),
        Written::Remainder => BinaryOperator::Arithmetic(ArithmeticOperator::Remainder(
            Signedness::Unsigned,
        )),
        Written::Add => BinaryOperator::Arithmetic(ArithmeticOperator::Sum),
        Written::Subtract => BinaryOperator::Arithmetic(ArithmeticOperator::Difference),
        Written::ShiftLeft => BinaryOperator::Shift(ShiftOperator::Left),
        Written::ShiftRight => BinaryOperator::Shift(ShiftOperator::Right),
        Written::ArithmeticShiftLeft => BinaryOperator::Shift(ShiftOperator::Left),
        Written::ArithmeticShiftRight => BinaryOperator::Shift(ShiftOperator::Arithmetic),
        Written::Less => BinaryOperator::Compare(Comparison::Less(Signedness::Unsigned)),
        Written::LessOrEqual => BinaryOperator::Compare(Comparison::AtMost(Signedness::Unsigned)),
        Written::Greater => BinaryOperator::Compare(Comparison::Greater(Signedness::Unsigned)),
        Written::GreaterOrEqual => BinaryOperator::Compare(Comparison::AtLeast(
            Signedness::Unsigned,
        )),
        Written::Equal => BinaryOperator::Compare(Comparison::Equal),
        Written::NotEqual => BinaryOperator::Compare(Comparison::Unequal),
        Written::And => BinaryOperator::Arithmetic(ArithmeticOperator::And),
        Written::Xor => BinaryOperator::Arithmetic(ArithmeticOperator::Xor),
        Written::Xnor => BinaryOperator::Arithmetic(ArithmeticOperator::Xnor),
        Written::Or => BinaryOperator::Arithmetic(ArithmeticOperator::Or),
        Written::LogicalAnd => BinaryOperator::Logical(LogicalOperator::Both),
        Written::LogicalOr => BinaryOperator::Logical(LogicalOperator::Either),
    }
}

/// The same operator where its operands have this sign.
pub fn arithmetic_with(op: ArithmeticOperator, signed: bool) -> ArithmeticOperator
    ensures { result ≡ arithmetic_with op signed }
{
    match op {
        ArithmeticOperator::Quotient(_) => ArithmeticOperator::Quotient(Signedness::of(signed)),
        ArithmeticOperator::Remainder(_) => ArithmeticOperator::Remainder(Signedness::of(signed)),
        _ => op,
    }
}

/// The same comparison where its operands have this sign.
pub fn comparison_with(op: Comparison, signed: bool) -> Comparison
    ensures { result ≡ comparison_with op signed }
{
    match op {
        Comparison::Equal | Comparison::Unequal => op,
        Comparison::Less(_) => Comparison::Less(Signedness::of(signed)),
        Comparison::AtMost(_) => Comparison::AtMost(Signedness::of(signed)),
        Comparison::Greater(_) => Comparison::Greater(Signedness::of(signed)),
        Comparison::AtLeast(_) => Comparison::AtLeast(Signedness::of(signed)),
    }
}

/// The same shift where its result has this sign: `>>>` of an unsigned one fills with zeros.
pub fn shift_with(op: ShiftOperator, signed: bool) -> ShiftOperator
    ensures { result ≡ shift_with op signed }
{
    match op {
        ShiftOperator::Arithmetic => {
            if signed {
                ShiftOperator::Arithmetic
            } else {
                ShiftOperator::Right
            }
        }
        _ => op,
    }
}
