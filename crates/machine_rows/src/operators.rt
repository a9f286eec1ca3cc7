// The names of operators, as in a Verilog text; those of signed operands begin with an `s`.
use typed_ir::{
    ArithmeticOperator, BinaryOperator, Comparison, LogicalOperator, ShiftOperator, Signedness,
    UnaryOperator,
};

/// An operator of one operand; none where the name is another.
pub fn unary_of(name: &[u8]) -> Option<UnaryOperator> {
    match name {
        b"~" => Some(UnaryOperator::Inverse),
        b"neg" => Some(UnaryOperator::Negative),
        b"all" => Some(UnaryOperator::AllOnes),
        b"any" => Some(UnaryOperator::AnyOne),
        b"none" => Some(UnaryOperator::NoOne),
        b"odd" => Some(UnaryOperator::OddOnes),
        _ => None,
    }
}

fn arithmetic_of(name: &[u8]) -> Option<ArithmeticOperator> {
    match name {
        b"+" => Some(ArithmeticOperator::Sum),
        b"-" => Some(ArithmeticOperator::Difference),
        b"*" => Some(ArithmeticOperator::Product),
        b"/" => Some(ArithmeticOperator::Quotient(Signedness::Unsigned)),
        b"s/" => Some(ArithmeticOperator::Quotient(Signedness::Signed)),
        b"%" => Some(ArithmeticOperator::Remainder(Signedness::Unsigned)),
        b"s%" => Some(ArithmeticOperator::Remainder(Signedness::Signed)),
        b"&" => Some(ArithmeticOperator::And),
        b"|" => Some(ArithmeticOperator::Or),
        b"^" => Some(ArithmeticOperator::Xor),
        b"~^" => Some(ArithmeticOperator::Xnor),
        _ => None,
    }
}

fn comparison_of(name: &[u8]) -> Option<Comparison> {
    match name {
        b"==" => Some(Comparison::Equal),
        b"!=" => Some(Comparison::Unequal),
        b"<" => Some(Comparison::Less(Signedness::Unsigned)),
        b"s<" => Some(Comparison::Less(Signedness::Signed)),
        b"<=" => Some(Comparison::AtMost(Signedness::Unsigned)),
        b"s<=" => Some(Comparison::AtMost(Signedness::Signed)),
        b">" => Some(Comparison::Greater(Signedness::Unsigned)),
        b"s>" => Some(Comparison::Greater(Signedness::Signed)),
        b">=" => Some(Comparison::AtLeast(Signedness::Unsigned)),
        b"s>=" => Some(Comparison::AtLeast(Signedness::Signed)),
        _ => None,
    }
}

fn logical_of(name: &[u8]) -> Option<LogicalOperator> {
    match name {
        b"&&" => Some(LogicalOperator::Both),
        b"||" => Some(LogicalOperator::Either),
        _ => None,
    }
}

fn shift_of(name: &[u8]) -> Option<ShiftOperator> {
    match name {
        b"<<" => Some(ShiftOperator::Left),
        b">>" => Some(ShiftOperator::Right),
        b"s>>>" => Some(ShiftOperator::Arithmetic),
        _ => None,
    }
}

/// An operator of two operands; none where the name is another.
pub fn binary_of(name: &[u8]) -> Option<BinaryOperator> {
    if let Some(operator) = arithmetic_of(name) {
        return Some(BinaryOperator::Arithmetic(operator));
    }
    if let Some(operator) = comparison_of(name) {
        return Some(BinaryOperator::Compare(operator));
    }
    if let Some(operator) = logical_of(name) {
        return Some(BinaryOperator::Logical(operator));
    }
    match shift_of(name) {
        Some(operator) => Some(BinaryOperator::Shift(operator)),
        None => None,
    }
}
