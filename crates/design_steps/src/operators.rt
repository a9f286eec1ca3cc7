// The steps of operators.
ghost use Rattle.std.specs.Prelude.{◌≡◌, ◌≤◌, ◌-◌, ◌*◌, ◌^◌};
ghost use Rattle.typed_ir.specs.Sized.{unary_width, binary_width, copies};
ghost use Rattle.design_steps.specs.Expressions.{is_wide, unary_op, arithmetic_op, comparison_op, binary_op, swaps, locate_op, is_filled, resize_op, resize_low, is_plain};

use typed_ir::{
    ArithmeticOperator, BinaryOperator, Comparison, LogicalOperator, ShiftOperator, Signedness,
    UnaryOperator,
};
use word_steps::{Op, is_long};

/// Whether a step on values of up to so many bits takes all bits of the words.
pub fn is_wide(op: Op, width: u8) -> bool
    ensures { result ≡ is_wide op width }
{
    is_long(op) || width > 64
}

pub fn unary_op(op: UnaryOperator) -> Op
    ensures { result ≡ unary_op op }
{
    match op {
        UnaryOperator::Inverse => Op::Inverse,
        UnaryOperator::Negative => Op::Negative,
        UnaryOperator::AllOnes => Op::AllOnes,
        UnaryOperator::AnyOne => Op::AnyOne,
        UnaryOperator::NoOne => Op::NoOne,
        UnaryOperator::OddOnes => Op::OddOnes,
    }
}

fn arithmetic_op(op: ArithmeticOperator) -> Op
    ensures { result ≡ arithmetic_op op }
{
    match op {
        ArithmeticOperator::Sum => Op::Sum,
        ArithmeticOperator::Difference => Op::Difference,
        ArithmeticOperator::Product => Op::Product,
        ArithmeticOperator::Quotient(Signedness::Signed) => Op::SignedQuotient,
        ArithmeticOperator::Quotient(Signedness::Unsigned) => Op::Quotient,
        ArithmeticOperator::Remainder(Signedness::Signed) => Op::SignedRemainder,
        ArithmeticOperator::Remainder(Signedness::Unsigned) => Op::Remainder,
        ArithmeticOperator::And => Op::And,
        ArithmeticOperator::Or => Op::Or,
        ArithmeticOperator::Xor => Op::Xor,
        ArithmeticOperator::Xnor => Op::Xnor,
    }
}

fn comparison_op(op: Comparison) -> Op
    ensures { result ≡ comparison_op op }
{
    match op {
        Comparison::Equal => Op::Equal,
        Comparison::Unequal => Op::Unequal,
        Comparison::Less(Signedness::Signed) | Comparison::Greater(Signedness::Signed) =>
            Op::SignedLess,
        Comparison::Less(Signedness::Unsigned) | Comparison::Greater(Signedness::Unsigned) =>
            Op::Less,
        Comparison::AtMost(Signedness::Signed) | Comparison::AtLeast(Signedness::Signed) =>
            Op::SignedAtMost,
        Comparison::AtMost(Signedness::Unsigned) | Comparison::AtLeast(Signedness::Unsigned) =>
            Op::AtMost,
    }
}

/// The operator of two operands, of which some steps take the second one first (`swaps`).
pub fn binary_op(op: BinaryOperator) -> Op
    ensures { result ≡ binary_op op }
{
    match op {
        BinaryOperator::Arithmetic(op) => arithmetic_op(op),
        BinaryOperator::Compare(op) => comparison_op(op),
        BinaryOperator::Logical(LogicalOperator::Both) => Op::Both,
        BinaryOperator::Logical(LogicalOperator::Either) => Op::Either,
        BinaryOperator::Shift(ShiftOperator::Left) => Op::Left,
        BinaryOperator::Shift(ShiftOperator::Right) => Op::Right,
        BinaryOperator::Shift(ShiftOperator::Arithmetic) => Op::Arithmetic,
    }
}

/// Whether a step takes the second operand first: `a > b` is `b < a`, and `a >= b` is `b <= a`.
pub fn swaps(op: BinaryOperator) -> bool
    ensures { result ≡ swaps op }
{
    match op {
        BinaryOperator::Compare(Comparison::Greater(_) | Comparison::AtLeast(_)) => true,
        _ => false,
    }
}

/// What finds the place of a select at run time, by an index that is signed or not.
pub fn locate_op(signed: bool) -> Op
    ensures { result ≡ locate_op signed }
{
    if signed { Op::SignedLocate } else { Op::Locate }
}

// Whether a value at another width is filled with its sign.
fn is_filled(from: u8, to: u8, signed: bool) -> bool
    ensures { result ≡ is_filled from to signed }
{
    signed && from < to
}

/// A value of one width at another: filled with its sign, or cut.
pub fn resize_op(from: u8, to: u8, signed: bool) -> Op
    ensures { result ≡ resize_op from to signed }
{
    if is_filled(from, to, signed) {
        Op::Extend
    } else {
        Op::Select
    }
}

/// The place of the sign, or the lowest bit.
pub fn resize_low(from: u8, to: u8, signed: bool) -> u8
    ensures { result ≡ resize_low from to signed }
{
    if is_filled(from, to, signed) {
        from.saturating_sub(1)
    } else {
        0
    }
}

/// Whether a value at another width stays as it is.
pub fn is_plain(from: u8, to: u8, signed: bool) -> bool
    ensures { result ≡ is_plain from to signed }
{
    from <= to && !is_filled(from, to, signed)
}

/// The width of what an operator gives, from that of its operand.
pub fn unary_width(op: UnaryOperator, width: u8) -> u8
    ensures { result ≡ unary_width op width }
{
    match op {
        UnaryOperator::Inverse | UnaryOperator::Negative => width,
        _ => 1,
    }
}

/// The width of what an operator gives, from that of its first operand.
pub fn binary_width(op: BinaryOperator, width: u8) -> u8
    ensures { result ≡ binary_width op width }
{
    match op {
        BinaryOperator::Arithmetic(_) | BinaryOperator::Shift(_) => width,
        BinaryOperator::Compare(_) | BinaryOperator::Logical(_) => 1,
    }
}

// The greatest value of a width.
fn ones(width: u8) -> u128
    requires at_least_one { 1 ≤ width }
    requires at_most_128 { width ≤ 128 }
    ensures { result ≡ 2 ^ width - 1 }
{
    u128::MAX >> (128 - width)
}

/// So many copies of a 1, each in a width, which have `total` bits together.
pub fn copies_of_one(count: u8, width: u8, total: u8) -> u128
    requires some { 1 ≤ width }
    requires total { total ≡ count * width }
    requires few { total ≤ 128 }
    ensures { result ≡ copies count width 1 }
{
    if count == 0 {
        return 0;
    }
    ones(total) / ones(width)
}
