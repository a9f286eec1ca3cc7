// Sized expressions as trees, and the evaluation of one.
ghost use Rattle.std.specs.Prelude.{◌≡◌, IsTrue};
ghost use Rattle.typed_ir.specs.Sized.{value_of, width_of, agrees, fits_signals, is_signal, is_span, Pick, Unary, Binary, Choice, Concat, Repeat, Resized};
ghost use Rattle.typed_ir.specs.Forms.{sized};
ghost use Rattle.typed_ir.specs.Views.{widths, env_of};

use crate::apply::{apply_binary, apply_unary, copied, joined, picked};
use crate::binary_operator::BinaryOperator;
use crate::signal_id::SignalId;
use crate::span::Span;
use crate::unary_operator::UnaryOperator;
use bits::Bits;

/// A sized expression: what each part is. A width is stored wherever it isn't that of a part or 1.
#[derive(Drop)]
pub enum Form {
    Constant(Bits),
    /// A signal as a whole.
    Name {
        signal: SignalId,
        width: u8,
    },
    /// A select whose bits are known.
    Part(Span),
    /// A select at run time: `width` bits from the index on, read as signed where the flag is set, less `below`.
    Pick {
        signal: SignalId,
        width: u8,
        below: u32,
        signed: bool,
        index: Box<Form>,
    },
    Unary {
        operator: UnaryOperator,
        operand: Box<Form>,
    },
    Binary {
        operator: BinaryOperator,
        left: Box<Form>,
        right: Box<Form>,
    },
    /// `condition ? consequent : alternative`
    Choice {
        condition: Box<Form>,
        consequent: Box<Form>,
        alternative: Box<Form>,
    },
    /// One value above the other, at the width of both together.
    Concat {
        width: u8,
        high: Box<Form>,
        low: Box<Form>,
    },
    /// So many copies, at the width of all together.
    Repeat {
        width: u8,
        count: u8,
        part: Box<Form>,
    },
    /// At another width, extended by its sign where the flag is set.
    Resized {
        operand: Box<Form>,
        width: u8,
        signed: bool,
    },
}

impl Form {
    /// The value, where `env` has the signals.
    #[cycle(value)]
    pub fn value(&self, env: &[Bits]) -> Bits
        requires agrees { IsTrue (agrees (sized self.now)) }
        requires fits { IsTrue (fits_signals (sized self.now) (widths env.now)) }
        ensures width { result.width ≡ width_of (sized self.now) }
        ensures value { result.value ≡ value_of (sized self.now) (env_of env.now) }
    {
        let x = self.evaluated(env);
        Bits {
            width: x.width,
            value: x.value,
        }
    }

    // The value, with what lies between the two fields of the result: `value` hands on just these two, since a copy of the
    // 15 bytes between them would take longer than most operators.
    #[cycle(value)]
    fn evaluated(&self, env: &[Bits]) -> Bits
        requires agrees { IsTrue (agrees (sized self.now)) }
        requires fits { IsTrue (fits_signals (sized self.now) (widths env.now)) }
        ensures width { result.width ≡ width_of (sized self.now) }
        ensures value { result.value ≡ value_of (sized self.now) (env_of env.now) }
    {
        match self {
            Form::Constant(bits) => *bits,
            Form::Name { signal, .. } => env[signal.index()],
            Form::Part(span) => env[span.signal.index()].select(span.low as i16, span.width),
            Form::Pick {
                signal,
                width,
                below,
                signed,
                index,
            } => pick(*signal, *width, *below, *signed, index, env),
            Form::Unary { operator, operand } => unary(*operator, operand, env),
            Form::Binary {
                operator,
                left,
                right,
            } => binary(*operator, left, right, env),
            Form::Choice {
                condition,
                consequent,
                alternative,
            } => choice(condition, consequent, alternative, env),
            Form::Concat { width, high, low } => concat(*width, high, low, env),
            Form::Repeat { width, count, part } => repeat(*width, *count, part, env),
            Form::Resized {
                operand,
                width,
                signed,
            } => resized(operand, *width, *signed, env),
        }
    }

    /// Whether each signal that it reads is there, with the width that it has for it.
    pub fn fits(&self, env: &[Bits]) -> bool
        ensures { result ≡ fits_signals (sized self.now) (widths env.now) }
    {
        match self {
            Form::Constant(_) => true,
            Form::Name { signal, width } => is_signal(*signal, *width, env),
            Form::Part(span) => is_span(*span, env),
            Form::Pick { signal, index, .. } => signal.index() < env.len() && index.fits(env),
            Form::Unary { operand, .. } => operand.fits(env),
            Form::Binary { left, right, .. } => left.fits(env) && right.fits(env),
            Form::Choice {
                condition,
                consequent,
                alternative,
            } => condition.fits(env) && consequent.fits(env) && alternative.fits(env),
            Form::Concat { high, low, .. } => high.fits(env) && low.fits(env),
            Form::Repeat { part, .. } => part.fits(env),
            Form::Resized { operand, .. } => operand.fits(env),
        }
    }
}

// Each kind of form with parts has a function of its own: one that has none, a constant or a name, then makes no room for
// the values of parts.

// The bits of a signal from a place that the index gives.
#[cycle(value)]
fn pick(signal: SignalId, width: u8, below: u32, signed: bool, index: &Form, env: &[Bits]) -> Bits
    requires agrees { IsTrue (agrees (Pick signal width below signed (sized index.now))) }
    requires fits { IsTrue (fits_signals (Pick signal width below signed (sized index.now)) (widths env.now)) }
    ensures width { result.width ≡ width_of (Pick signal width below signed (sized index.now)) }
    ensures value { result.value ≡ value_of (Pick signal width below signed (sized index.now)) (env_of env.now) }
{
    let x = env[signal.index()];
    picked(x, width, below, signed, index.value(env))
}

// What an operator makes of one operand.
#[cycle(value)]
fn unary(op: UnaryOperator, a: &Form, env: &[Bits]) -> Bits
    requires agrees { IsTrue (agrees (Unary op (sized a.now))) }
    requires fits { IsTrue (fits_signals (Unary op (sized a.now)) (widths env.now)) }
    ensures width { result.width ≡ width_of (Unary op (sized a.now)) }
    ensures value { result.value ≡ value_of (Unary op (sized a.now)) (env_of env.now) }
{
    apply_unary(op, a.value(env))
}

// What an operator makes of two operands.
#[cycle(value)]
fn binary(op: BinaryOperator, a: &Form, b: &Form, env: &[Bits]) -> Bits
    requires agrees { IsTrue (agrees (Binary op (sized a.now) (sized b.now))) }
    requires fits { IsTrue (fits_signals (Binary op (sized a.now) (sized b.now)) (widths env.now)) }
    ensures width { result.width ≡ width_of (Binary op (sized a.now) (sized b.now)) }
    ensures value { result.value ≡ value_of (Binary op (sized a.now) (sized b.now)) (env_of env.now) }
{
    apply_binary(op, a.value(env), b.value(env))
}

// `c ? a : b`
#[cycle(value)]
fn choice(c: &Form, a: &Form, b: &Form, env: &[Bits]) -> Bits
    requires agrees { IsTrue (agrees (Choice (sized c.now) (sized a.now) (sized b.now))) }
    requires fits { IsTrue (fits_signals (Choice (sized c.now) (sized a.now) (sized b.now)) (widths env.now)) }
    ensures width { result.width ≡ width_of (Choice (sized c.now) (sized a.now) (sized b.now)) }
    ensures value { result.value ≡ value_of (Choice (sized c.now) (sized a.now) (sized b.now)) (env_of env.now) }
{
    if c.value(env).value == 0 {
        b.value(env)
    } else {
        a.value(env)
    }
}

// One value above the other.
#[cycle(value)]
fn concat(width: u8, a: &Form, b: &Form, env: &[Bits]) -> Bits
    requires agrees { IsTrue (agrees (Concat width (sized a.now) (sized b.now))) }
    requires fits { IsTrue (fits_signals (Concat width (sized a.now) (sized b.now)) (widths env.now)) }
    ensures width { result.width ≡ width_of (Concat width (sized a.now) (sized b.now)) }
    ensures value { result.value ≡ value_of (Concat width (sized a.now) (sized b.now)) (env_of env.now) }
{
    joined(width, a.value(env), b.value(env))
}

// Copies of one value.
#[cycle(value)]
fn repeat(width: u8, count: u8, a: &Form, env: &[Bits]) -> Bits
    requires agrees { IsTrue (agrees (Repeat width count (sized a.now))) }
    requires fits { IsTrue (fits_signals (Repeat width count (sized a.now)) (widths env.now)) }
    ensures width { result.width ≡ width_of (Repeat width count (sized a.now)) }
    ensures value { result.value ≡ value_of (Repeat width count (sized a.now)) (env_of env.now) }
{
    copied(width, count, a.value(env))
}

// A value at another width.
#[cycle(value)]
fn resized(a: &Form, width: u8, signed: bool, env: &[Bits]) -> Bits
    requires agrees { IsTrue (agrees (Resized (sized a.now) width signed)) }
    requires fits { IsTrue (fits_signals (Resized (sized a.now) width signed) (widths env.now)) }
    ensures width { result.width ≡ width_of (Resized (sized a.now) width signed) }
    ensures value { result.value ≡ value_of (Resized (sized a.now) width signed) (env_of env.now) }
{
    a.value(env).resize(width, signed)
}

/// Whether a signal has this number and width.
pub fn is_signal(signal: SignalId, width: u8, env: &[Bits]) -> bool
    ensures { result ≡ is_signal signal width (widths env.now) }
{
    let index = signal.index();
    index < env.len() && env[index].width == width
}

/// Whether the span lies in its signal.
pub fn is_span(span: Span, env: &[Bits]) -> bool
    ensures { result ≡ is_span span (widths env.now) }
{
    let index = span.signal.index();
    if index >= env.len() || span.width == 0 {
        return false;
    }
    let width = env[index].width;
    span.low <= width && span.width <= width - span.low
}
