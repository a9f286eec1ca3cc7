// Sized expressions whose widths agree, how they are made, and the value of one.
ghost use Rattle.std.specs.Prelude.{◌≡◌, ◌≤◌, ◌+◌, ◌*◌, IsTrue, IfOk};
ghost use Rattle.typed_ir.specs.Sized.{value_of, width_of, agrees, fits_signals, takes_widths, unary_width, binary_width, Constant, Name, Part, Pick, Unary, Binary, Choice, Concat, Repeat, Resized};
ghost use Rattle.typed_ir.specs.Forms.{sized};
ghost use Rattle.typed_ir.specs.Views.{widths, env_of};

use crate::apply::{binary_width, unary_width};
use crate::binary_operator::BinaryOperator;
use crate::env::Env;
use crate::form::Form;
use crate::signal_id::SignalId;
use crate::span::Span;
use crate::unary_operator::UnaryOperator;
use bits::Bits;
use ls_text::NoMemory;
use std::alloc::Global;

/// A sized expression: the widths of its parts agree, and each is 1 to 128.
#[derive(Drop)]
pub struct Typed {
    pub form: Form,
    pub width: u8,
    ghost agrees: { IsTrue (agrees (sized form)) },
    ghost width_is: { width ≡ width_of (sized form) },
}

/// The value of a sized expression over the values of the signals.
pub fn value(e: &Typed, env: &Env) -> Bits
    requires { IsTrue (fits_signals (sized e.now.form) (widths env.now.values.items)) }
    ensures width { result.width ≡ e.now.width }
    ensures value { result.value ≡ value_of (sized e.now.form) (env_of env.now.values.items) }
{
    e.form.value(&env.values)
}

/// Whether each signal that it reads is there, with the width that it has for it.
pub fn fits(e: &Typed, env: &Env) -> bool
    ensures { result ≡ fits_signals (sized e.now.form) (widths env.now.values.items) }
{
    e.form.fits(&env.values)
}

/// Simple operands.
impl Typed {
    /// A constant: these bits, 1 to 128 of them, at their own width. None is refused.
    pub fn constant(bits: Bits) -> Typed
        ensures width { result.width ≡ bits.width }
        ensures form { sized result.form ≡ Constant bits.width bits.value }
    {
        Typed {
            width: bits.width,
            form: Form::Constant(bits),
        }
    }

    /// A signal as a whole, by its number and width.
    pub fn name(signal: SignalId, width: u8) -> Typed
        requires at_least_one { 1 ≤ width }
        requires at_most_128 { width ≤ 128 }
        ensures width { result.width ≡ width }
        ensures form { sized result.form ≡ Name signal width }
    {
        Typed {
            width,
            form: Form::Name { signal, width },
        }
    }

    /// A select whose bits are known.
    pub fn part(span: Span) -> Typed
        requires some { 1 ≤ span.width }
        requires within { span.low + span.width ≤ 128 }
        ensures width { result.width ≡ span.width }
        ensures form { sized result.form ≡ Part span }
    {
        let width = span.width;
        Typed {
            width,
            form: Form::Part(span),
        }
    }

    /// `width` bits of a signal from a place that is known at run time: the index, read by its own type, less `below`.
    pub fn pick(
        alloc: Global,
        signal: SignalId,
        width: u8,
        below: u32,
        signed: bool,
        index: Typed,
    ) -> Result<Typed, NoMemory>
        requires at_least_one { 1 ≤ width }
        requires at_most_128 { width ≤ 128 }
        ensures width { IfOk result (λ e. e.width ≡ width) }
        ensures form { IfOk result (λ e. sized e.form ≡ Pick signal width below signed (sized index.form)) }
    {
        let index = Box::new(alloc, index.form)?;
        Ok(Typed {
            width,
            form: Form::Pick {
                signal,
                width,
                below,
                signed,
                index,
            },
        })
    }
}

/// Operators.
impl Typed {
    /// An operator of one operand, which may have any width from 1 to 128 bits. `~` and `-` give as many bits as the operand
    /// has, a reduction and `!` one bit. No width is refused; want of memory is `NoMemory`.
    pub fn unary(alloc: Global, op: UnaryOperator, a: Typed) -> Result<Typed, NoMemory>
        ensures width { IfOk result (λ e. e.width ≡ unary_width op a.width) }
        ensures form { IfOk result (λ e. sized e.form ≡ Unary op (sized a.form)) }
    {
        let width = unary_width(op, a.width);
        let operand = Box::new(alloc, a.form)?;
        let form = Form::Unary {
            operator: op,
            operand,
        };
        Ok(Typed { width, form })
    }

    /// An operator of two operands. Arithmetic and comparisons take operands of one width alone, `&&`, `||` and shifts those
    /// of any two widths; `BinaryOperator::takes` is the test. Arithmetic and shifts give as many bits as `a` has, comparisons,
    /// `&&` and `||` one bit. Want of memory is `NoMemory`.
    pub fn binary(alloc: Global, op: BinaryOperator, a: Typed, b: Typed) -> Result<Typed, NoMemory>
        requires { IsTrue (takes_widths op a.width b.width) }
        ensures width { IfOk result (λ e. e.width ≡ binary_width op a.width) }
        ensures form { IfOk result (λ e. sized e.form ≡ Binary op (sized a.form) (sized b.form)) }
    {
        let width = binary_width(op, a.width);
        let first = Box::new(alloc, a.form)?;
        let second = Box::new(alloc, b.form)?;
        let form = Form::Binary {
            operator: op,
            left: first,
            right: second,
        };
        Ok(Typed { width, form })
    }

    /// `c ? a : b`
    pub fn choice(alloc: Global, c: Typed, a: Typed, b: Typed) -> Result<Typed, NoMemory>
        requires { a.width ≡ b.width }
        ensures width { IfOk result (λ e. e.width ≡ a.width) }
        ensures form { IfOk result (λ e. sized e.form ≡ Choice (sized c.form) (sized a.form) (sized b.form)) }
    {
        let width = a.width;
        let condition = Box::new(alloc, c.form)?;
        let first = Box::new(alloc, a.form)?;
        let second = Box::new(alloc, b.form)?;
        let form = Form::Choice {
            condition,
            consequent: first,
            alternative: second,
        };
        Ok(Typed { width, form })
    }

    /// `high` above `low`.
    pub fn concat(alloc: Global, high: Typed, low: Typed) -> Result<Typed, NoMemory>
        requires { high.width + low.width ≤ 128 }
        ensures width { IfOk result (λ e. e.width ≡ high.width + low.width) }
        ensures form { IfOk result (λ e. sized e.form ≡ Concat (high.width + low.width) (sized high.form) (sized low.form)) }
    {
        let width = high.width + low.width;
        let upper = Box::new(alloc, high.form)?;
        let lower = Box::new(alloc, low.form)?;
        let form = Form::Concat {
            width,
            high: upper,
            low: lower,
        };
        Ok(Typed { width, form })
    }

    /// So many copies of `a`.
    pub fn repeat(alloc: Global, count: u8, a: Typed) -> Result<Typed, NoMemory>
        requires some { 1 ≤ count }
        requires few { count * a.width ≤ 128 }
        ensures width { IfOk result (λ e. e.width ≡ count * a.width) }
        ensures form { IfOk result (λ e. sized e.form ≡ Repeat (count * a.width) count (sized a.form)) }
    {
        let width = count * a.width;
        let part = Box::new(alloc, a.form)?;
        let form = Form::Repeat { width, count, part };
        Ok(Typed { width, form })
    }

    /// `a` at another width, extended by its sign where it is signed.
    pub fn resized(alloc: Global, a: Typed, width: u8, signed: bool) -> Result<Typed, NoMemory>
        requires at_least_one { 1 ≤ width }
        requires at_most_128 { width ≤ 128 }
        ensures width { IfOk result (λ e. e.width ≡ width) }
        ensures form { IfOk result (λ e. sized e.form ≡ Resized (sized a.form) width signed) }
    {
        let operand = Box::new(alloc, a.form)?;
        let form = Form::Resized {
            operand,
            width,
            signed,
        };
        Ok(Typed { width, form })
    }
}
