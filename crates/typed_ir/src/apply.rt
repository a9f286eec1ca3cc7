// What the operators make of values.
ghost use Rattle.std.specs.Prelude.{◌≡◌, ◌≤◌, ◌+◌, ◌*◌, ◌^◌, IsTrue, unsigned_abs, MatchOption, if◌then◌else◌};
ghost use Rattle.bits.specs.Runs.{selected};
ghost use Rattle.typed_ir.specs.Sized.{apply_unary, unary_width, apply_binary, binary_width, apply_arithmetic, apply_comparison, apply_logical, apply_shift, takes_widths, place_of, copies};

use crate::arithmetic_operator::ArithmeticOperator;
use crate::binary_operator::BinaryOperator;
use crate::comparison::Comparison;
use crate::logical_operator::LogicalOperator;
use crate::shift_operator::ShiftOperator;
use crate::unary_operator::UnaryOperator;
use bits::Bits;

// One bit.
fn truth(b: bool) -> Bits
    ensures width { result.width ≡ 1 }
    ensures value { result.value ≡ (if b then 1 else 0) }
{
    Bits::new(1, b as u128)
}

/// The width of what an operator gives, from that of its operand.
pub fn unary_width(op: UnaryOperator, width: u8) -> u8
    ensures { result ≡ unary_width op width }
{
    match op {
        UnaryOperator::Inverse | UnaryOperator::Negative => width,
        _ => 1,
    }
}

/// The width of what an operator gives, from that of its first operand.
pub fn binary_width(op: BinaryOperator, width: u8) -> u8
    ensures { result ≡ binary_width op width }
{
    match op {
        BinaryOperator::Arithmetic(_) | BinaryOperator::Shift(_) => width,
        BinaryOperator::Compare(_) | BinaryOperator::Logical(_) => 1,
    }
}

pub fn apply_unary(op: UnaryOperator, x: Bits) -> Bits
    ensures width { result.width ≡ unary_width op x.width }
    ensures value { result.value ≡ apply_unary op x.width x.value }
{
    match op {
        UnaryOperator::Inverse => x.not(),
        UnaryOperator::Negative => x.neg(),
        UnaryOperator::AllOnes => truth(x.reduce_and()),
        UnaryOperator::AnyOne => truth(x.reduce_or()),
        UnaryOperator::NoOne => truth(!x.reduce_or()),
        UnaryOperator::OddOnes => truth(x.reduce_xor()),
    }
}

fn apply_arithmetic(op: ArithmeticOperator, x: Bits, y: Bits) -> Bits
    requires { x.width ≡ y.width }
    ensures width { result.width ≡ x.width }
    ensures value { result.value ≡ apply_arithmetic op x.width x.value y.value }
{
    match op {
        ArithmeticOperator::Sum => x.add(y),
        ArithmeticOperator::Difference => x.sub(y),
        ArithmeticOperator::Product => x.mul(y),
        ArithmeticOperator::Quotient(signedness) => x.div(y, signedness.is_signed()),
        ArithmeticOperator::Remainder(signedness) => x.rem(y, signedness.is_signed()),
        ArithmeticOperator::And => x.and(y),
        ArithmeticOperator::Or => x.or(y),
        ArithmeticOperator::Xor => x.xor(y),
        ArithmeticOperator::Xnor => x.xor(y).not(),
    }
}

fn apply_comparison(op: Comparison, x: Bits, y: Bits) -> bool
    requires { x.width ≡ y.width }
    ensures { result ≡ apply_comparison op x.width x.value y.value }
{
    match op {
        Comparison::Equal => x.value == y.value,
        Comparison::Unequal => x.value != y.value,
        Comparison::Less(signedness) => x.lt(y, signedness.is_signed()),
        Comparison::AtMost(signedness) => !y.lt(x, signedness.is_signed()),
        Comparison::Greater(signedness) => y.lt(x, signedness.is_signed()),
        Comparison::AtLeast(signedness) => !x.lt(y, signedness.is_signed()),
    }
}

fn apply_logical(op: LogicalOperator, x: Bits, y: Bits) -> bool
    ensures { result ≡ apply_logical op x.value y.value }
{
    match op {
        LogicalOperator::Both => x.reduce_or() && y.reduce_or(),
        LogicalOperator::Either => x.reduce_or() || y.reduce_or(),
    }
}

fn apply_shift(op: ShiftOperator, x: Bits, by: Bits) -> Bits
    ensures width { result.width ≡ x.width }
    ensures value { result.value ≡ apply_shift op x.width x.value by.value }
{
    match op {
        ShiftOperator::Left => x.shl(by),
        ShiftOperator::Right => x.shr(by),
        ShiftOperator::Arithmetic => x.sar(by),
    }
}

pub fn apply_binary(op: BinaryOperator, x: Bits, y: Bits) -> Bits
    requires { IsTrue (takes_widths op x.width y.width) }
    ensures width { result.width ≡ binary_width op x.width }
    ensures value { result.value ≡ apply_binary op x.width x.value y.value }
{
    match op {
        BinaryOperator::Arithmetic(op) => apply_arithmetic(op, x, y),
        BinaryOperator::Compare(op) => truth(apply_comparison(op, x, y)),
        BinaryOperator::Logical(op) => truth(apply_logical(op, x, y)),
        BinaryOperator::Shift(op) => apply_shift(op, x, y),
    }
}

// A place that is less than 128 bits from the lowest bit.
fn near(at: i128) -> Option<i16>
    ensures { MatchOption result (128 ≤ unsigned_abs at) (λ z. z ≡ at) }
{
    if at < -127 || at > 127 {
        None
    } else {
        Some(at as i16)
    }
}

// Where a select at run time begins; `None` where that is 128 bits or more from the lowest bit.
fn place(index: Bits, signed: bool, below: u32) -> Option<i16>
    ensures { MatchOption result (128 ≤ unsigned_abs (place_of below signed index.width index.value))
        (λ at. at ≡ place_of below signed index.width index.value) }
{
    if signed {
        let at = index.as_signed();
        if at < -256 || at > 4_294_967_552 {
            return None;
        }
        near(at - below as i128)
    } else if index.value > 4_294_967_552 {
        None
    } else {
        near(index.value as i128 - below as i128)
    }
}

/// Bits of `x` from a place that is known at run time.
pub fn picked(x: Bits, width: u8, below: u32, signed: bool, index: Bits) -> Bits
    requires at_least_one { 1 ≤ width }
    requires at_most_128 { width ≤ 128 }
    ensures width { result.width ≡ width }
    ensures value { result.value ≡ selected x.value (place_of below signed index.width index.value) width }
{
    match place(index, signed, below) {
        Some(at) => x.select(at, width),
        None => Bits::new(width, 0),
    }
}

/// `upper` above `lower`, at the sum of their widths.
pub fn joined(width: u8, upper: Bits, lower: Bits) -> Bits
    requires sum { width ≡ upper.width + lower.width }
    requires at_most_128 { width ≤ 128 }
    ensures width { result.width ≡ width }
    ensures value { result.value ≡ upper.value * 2 ^ lower.width + lower.value }
{
    Bits {
        width,
        value: upper.value << lower.width | lower.value,
    }
}

/// So many copies of `x` after each other, at the width of all together.
pub fn copied(width: u8, count: u8, x: Bits) -> Bits
    requires product { width ≡ count * x.width }
    requires some { 1 ≤ count }
    requires at_most_128 { width ≤ 128 }
    ensures width { result.width ≡ width }
    ensures value { result.value ≡ copies count x.width x.value }
{
    if x.value == 0 {
        return Bits::new(width, 0);
    }
    if x.width == 1 {
        return Bits::new(width, 0).not();
    }
    let mut all = x.value;
    for _done in 1..count {
        all = all << x.width | x.value;
    }
    Bits { width, value: all }
}
