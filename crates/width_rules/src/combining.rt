// Operators between operands that have no fault: what they give before the context's length and sign go down (IEEE Std 1364-2005, 5.4.1
// and 5.5.1).
ghost use Rattle.std.specs.Prelude.{◌≡◌, ◌&&◌, false, max, IfOk};
ghost use Rattle.typed_ir.specs.Forms.{sized};
ghost use Rattle.typed_ir.specs.Sized as s;
ghost use Rattle.typed_ir.specs.declared.binary_operator.BinaryOperator.TheVariants as operator;
ghost use Rattle.width_rules.specs.Operators.{comparison_with};
ghost use Rattle.width_rules.specs.Opened.{opened, closed, Simple, Calculation, Shifted, Choice};

use crate::measured::Measured;
use crate::opened::{Open, close};
use crate::operators::comparison_with;
use crate::self_determined::Own;
use ls_text::NoMemory;
use std::alloc::Global;
use typed_ir::{
    ArithmeticOperator, BinaryOperator, Comparison, LogicalOperator, ShiftOperator, Typed,
};
use verilog_ast::Child;

/// What gives one bit.
pub fn one_bit(alloc: Global, typed: Typed, constant: bool) -> Result<Measured, NoMemory>
    ensures length { IfOk result (λ m. m.length ≡ 1) }
    ensures signed { IfOk result (λ m. m.signed ≡ false) }
    ensures constant { IfOk result (λ m. m.constant ≡ constant) }
    ensures form { IfOk result (λ m. opened m.form ≡ Simple (sized typed.form)) }
{
    let typed = Child::new(alloc, typed)?;
    Ok(Measured {
        length: 1,
        signed: false,
        constant,
        form: Child::new(alloc, Open::Simple(typed))?,
    })
}

/// Arithmetic: as long as the longer operand, signed where both are.
pub fn calculated(
    alloc: Global,
    op: ArithmeticOperator,
    a: Measured,
    b: Measured,
) -> Result<Measured, NoMemory>
    ensures length { IfOk result (λ m. m.length ≡ max a.length b.length) }
    ensures signed { IfOk result (λ m. m.signed ≡ (a.signed && b.signed)) }
    ensures constant { IfOk result (λ m. m.constant ≡ (a.constant && b.constant)) }
    ensures form { IfOk result (λ m. opened m.form ≡ Calculation op (opened a.form) (opened b.form)) }
{
    let all_signed = a.signed && b.signed;
    Ok(Measured {
        length: a.length.max(b.length),
        signed: all_signed,
        constant: a.constant && b.constant,
        form: Child::new(alloc, Open::Calculation(op, a.form, b.form))?,
    })
}

/// A shift: its length and its sign are the left operand's.
pub fn shifted(alloc: Global, op: ShiftOperator, a: Measured, by: Own) -> Result<Measured, NoMemory>
    ensures length { IfOk result (λ m. m.length ≡ a.length) }
    ensures signed { IfOk result (λ m. m.signed ≡ a.signed) }
    ensures constant { IfOk result (λ m. m.constant ≡ (a.constant && by.constant)) }
    ensures form { IfOk result (λ m. opened m.form ≡ Shifted op (opened a.form) (sized by.typed.form)) }
{
    Ok(Measured {
        length: a.length,
        signed: a.signed,
        constant: a.constant && by.constant,
        form: Child::new(alloc, Open::Shifted(op, a.form, by.typed))?,
    })
}

/// A comparison: both operands as long as the longer, signed where both are.
pub fn compared(
    alloc: Global,
    op: Comparison,
    a: Measured,
    b: Measured,
) -> Result<Measured, NoMemory>
    ensures length { IfOk result (λ m. m.length ≡ 1) }
    ensures signed { IfOk result (λ m. m.signed ≡ false) }
    ensures constant { IfOk result (λ m. m.constant ≡ (a.constant && b.constant)) }
    ensures form { IfOk result (λ m. opened m.form ≡ Simple (s.Binary (operator.Compare (comparison_with op (a.signed && b.signed))) (closed (opened a.form) (max a.length b.length) (a.signed && b.signed)) (closed (opened b.form) (max a.length b.length) (a.signed && b.signed)))) }
{
    let both = a.length.max(b.length);
    let signed = a.signed && b.signed;
    let constant = a.constant && b.constant;
    let left = close(alloc, a.form, both, signed)?;
    let right = close(alloc, b.form, both, signed)?;
    let op = BinaryOperator::Compare(comparison_with(op, signed));
    let typed = Typed::binary(alloc, op, left, right)?;
    one_bit(alloc, typed, constant)
}

/// `&&` or `||`: each operand by itself.
pub fn tested(alloc: Global, op: LogicalOperator, a: Own, b: Own) -> Result<Measured, NoMemory>
    ensures length { IfOk result (λ m. m.length ≡ 1) }
    ensures signed { IfOk result (λ m. m.signed ≡ false) }
    ensures constant { IfOk result (λ m. m.constant ≡ (a.constant && b.constant)) }
    ensures form { IfOk result (λ m. opened m.form ≡ Simple (s.Binary (operator.Logical op) (sized a.typed.form) (sized b.typed.form))) }
{
    let constant = a.constant && b.constant;
    let op = BinaryOperator::Logical(op);
    let typed = Typed::binary(alloc, op, a.typed.into_inner(), b.typed.into_inner())?;
    one_bit(alloc, typed, constant)
}

/// `c ? a : b`: as long as the longer of both, signed where both are; the condition by itself.
pub fn chosen(alloc: Global, c: Measured, a: Measured, b: Measured) -> Result<Measured, NoMemory>
    ensures length { IfOk result (λ m. m.length ≡ max a.length b.length) }
    ensures signed { IfOk result (λ m. m.signed ≡ (a.signed && b.signed)) }
    ensures constant { IfOk result (λ m. m.constant ≡ (c.constant && (a.constant && b.constant))) }
    ensures form { IfOk result (λ m. opened m.form ≡ Choice (closed (opened c.form) c.length c.signed) (opened a.form) (opened b.form)) }
{
    let condition = Child::new(alloc, close(alloc, c.form, c.length, c.signed)?)?;
    Ok(Measured {
        length: a.length.max(b.length),
        signed: a.signed && b.signed,
        constant: c.constant && (a.constant && b.constant),
        form: Child::new(alloc, Open::Choice(condition, a.form, b.form))?,
    })
}
