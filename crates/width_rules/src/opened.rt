// Expressions of which the context's length and sign haven't gone down yet, and how they go down.
ghost use Rattle.std.specs.Prelude.{◌≡◌, ◌≤◌, IfOk};
ghost use Rattle.typed_ir.specs.Forms.{sized};
ghost use Rattle.width_rules.specs.Sizes.{extended};
ghost use Rattle.width_rules.specs.Opened.{opened, closed};

use crate::operators::{arithmetic_with, shift_with};
use bits::Bits;
use ls_text::NoMemory;
use std::alloc::Global;
use typed_ir::{ArithmeticOperator, BinaryOperator, ShiftOperator, Typed, UnaryOperator};
use verilog_ast::Child;

/// An expression whose length and sign its context may still change. Only operators whose operands the context decides are left
/// open; all else is sized already.
#[derive(Drop)]
pub enum Open {
    Number(Bits),
    /// Sized at its own length.
    Simple(Child<Typed>),
    Negative(Child<Open>),
    Inverse(Child<Open>),
    Calculation(ArithmeticOperator, Child<Open>, Child<Open>),
    /// A shift by what is sized already.
    Shifted(ShiftOperator, Child<Open>, Child<Typed>),
    /// `c ? a : b`
    Choice(Child<Typed>, Child<Open>, Child<Open>),
}

// A simple operand at the length and the sign of its context.
fn extend(alloc: Global, e: Typed, length: u8, signed: bool) -> Result<Typed, NoMemory>
    requires at_least_one { 1 ≤ length }
    requires at_most_128 { length ≤ 128 }
    ensures width { IfOk result (λ r. r.width ≡ length) }
    ensures form { IfOk result (λ r. sized r.form ≡ extended (sized e.form) length signed) }
{
    if e.width == length {
        return Ok(e);
    }
    Typed::resized(alloc, e, length, signed)
}

/// The expression at a length of 1 to 128 bits and a sign, which go down to its simple operands. Want of memory is `NoMemory`.
pub fn close(alloc: Global, form: Child<Open>, length: u8, signed: bool) -> Result<Typed, NoMemory>
    requires at_least_one { 1 ≤ length }
    requires at_most_128 { length ≤ 128 }
    ensures width { IfOk result (λ e. e.width ≡ length) }
    ensures form { IfOk result (λ e. sized e.form ≡ closed (opened form) length signed) }
{
    match form.into_inner() {
        Open::Number(bits) => Ok(Typed::constant(bits.resize(length, signed))),
        Open::Simple(e) => extend(alloc, e.into_inner(), length, signed),
        Open::Negative(a) => {
            let a = close(alloc, a, length, signed)?;
            Typed::unary(alloc, UnaryOperator::Negative, a)
        }
        Open::Inverse(a) => {
            let a = close(alloc, a, length, signed)?;
            Typed::unary(alloc, UnaryOperator::Inverse, a)
        }
        Open::Calculation(op, a, b) => {
            let a = close(alloc, a, length, signed)?;
            let b = close(alloc, b, length, signed)?;
            let op = BinaryOperator::Arithmetic(arithmetic_with(op, signed));
            Typed::binary(alloc, op, a, b)
        }
        Open::Shifted(op, a, by) => {
            let a = close(alloc, a, length, signed)?;
            let op = BinaryOperator::Shift(shift_with(op, signed));
            Typed::binary(alloc, op, a, by.into_inner())
        }
        Open::Choice(c, a, b) => {
            let a = close(alloc, a, length, signed)?;
            let b = close(alloc, b, length, signed)?;
            Typed::choice(alloc, c.into_inner(), a, b)
        }
    }
}
