// Which tokens are operators, and how tight they bind.
ghost use Rattle.std.specs.Prelude.{◌≡◌, ◌<◌};
ghost use Rattle.verilog_expr.specs.Tokens as tokens;

use verilog_ast::{BinaryOperator, UnaryOperator};
use verilog_lex::Kind;

/// The operator before an operand that a token is.
pub fn unary_operator(kind: Kind) -> Option<UnaryOperator>
    ensures { result ≡ tokens.unary_operator kind }
{
    match kind {
        Kind::Plus => Some(UnaryOperator::Plus),
        Kind::Minus => Some(UnaryOperator::Minus),
        Kind::Bang => Some(UnaryOperator::LogicalNot),
        Kind::Tilde => Some(UnaryOperator::Invert),
        Kind::Ampersand => Some(UnaryOperator::ReduceAnd),
        Kind::TildeAmpersand => Some(UnaryOperator::ReduceNand),
        Kind::Bar => Some(UnaryOperator::ReduceOr),
        Kind::TildeBar => Some(UnaryOperator::ReduceNor),
        Kind::Caret => Some(UnaryOperator::ReduceXor),
        Kind::TildeCaret | Kind::CaretTilde => Some(UnaryOperator::ReduceXnor),
        _ => None,
    }
}

/// The operator between operands that a token is.
pub fn binary_operator(kind: Kind) -> Option<BinaryOperator>
    ensures { result ≡ tokens.binary_operator kind }
{
    match kind {
        Kind::Star => Some(BinaryOperator::Multiply),
        Kind::Slash => Some(BinaryOperator::Divide),
        Kind::Percent => Some(BinaryOperator::Remainder),
        Kind::Plus => Some(BinaryOperator::Add),
        Kind::Minus => Some(BinaryOperator::Subtract),
        Kind::ShiftLeft => Some(BinaryOperator::ShiftLeft),
        Kind::ShiftRight => Some(BinaryOperator::ShiftRight),
        Kind::SignedShiftLeft => Some(BinaryOperator::ArithmeticShiftLeft),
        Kind::SignedShiftRight => Some(BinaryOperator::ArithmeticShiftRight),
        Kind::Less => Some(BinaryOperator::Less),
        Kind::LessEqual => Some(BinaryOperator::LessOrEqual),
        Kind::Greater => Some(BinaryOperator::Greater),
        Kind::GreaterEqual => Some(BinaryOperator::GreaterOrEqual),
        Kind::EqualEqual => Some(BinaryOperator::Equal),
        Kind::NotEqual => Some(BinaryOperator::NotEqual),
        Kind::Ampersand => Some(BinaryOperator::And),
        Kind::Caret => Some(BinaryOperator::Xor),
        Kind::TildeCaret | Kind::CaretTilde => Some(BinaryOperator::Xnor),
        Kind::Bar => Some(BinaryOperator::Or),
        Kind::LogicalAnd => Some(BinaryOperator::LogicalAnd),
        Kind::LogicalOr => Some(BinaryOperator::LogicalOr),
        _ => None,
    }
}

/// How tight an operator binds: 0 is the loosest, 9 the tightest.
pub fn level(op: BinaryOperator) -> u32
    ensures value { result ≡ tokens.level op }
    ensures small { result < 10 }
{
    match op {
        BinaryOperator::Multiply | BinaryOperator::Divide | BinaryOperator::Remainder => 9,
        BinaryOperator::Add | BinaryOperator::Subtract => 8,
        BinaryOperator::ShiftLeft
        | BinaryOperator::ShiftRight
        | BinaryOperator::ArithmeticShiftLeft
        | BinaryOperator::ArithmeticShiftRight => 7,
        BinaryOperator::Less
        | BinaryOperator::LessOrEqual
        | BinaryOperator::Greater
        | BinaryOperator::GreaterOrEqual => 6,
        BinaryOperator::Equal | BinaryOperator::NotEqual => 5,
        BinaryOperator::And => 4,
        BinaryOperator::Xor | BinaryOperator::Xnor => 3,
        BinaryOperator::Or => 2,
        BinaryOperator::LogicalAnd => 1,
        BinaryOperator::LogicalOr => 0,
    }
}
