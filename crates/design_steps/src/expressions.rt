// Expressions laid out as steps. The walk goes down the tree once.
ghost use Rattle.std.specs.Prelude.{◌≡◌, ◌+◌, ◌++◌, ◌∷◌, [], max, IsTrue, IfOk, OnOk};
ghost use Rattle.typed_ir.specs.Sized.{width_of, agrees, Pick, Unary, Binary, Choice, Concat, Repeat, Resized};
ghost use Rattle.typed_ir.specs.Forms.{sized};
ghost use Rattle.word_steps.specs.declared.op.Op.TheVariants.{Copy, Select};
ghost use Rattle.design_steps.specs.Expressions.{step, is_wide, resize_op, resize_low, code, operand, before};
ghost use Rattle.design_steps.specs.Views.{plan_of};

use crate::layout::Layout;
use crate::operand::Operand;
use crate::operators::{
    binary_op, binary_width, copies_of_one, is_plain, is_wide, locate_op, resize_low, resize_op,
    swaps, unary_op, unary_width,
};
use crate::putting::{next, put};
use ls_text::NoMemory;
use typed_ir::{BinaryOperator, Form, SignalId, Span, UnaryOperator};
use word_steps::{Op, Step};

// A word that is copied to a place.
fn lay_copy(from: u32, width: u8, to: u32, steps: &mut Vec<Step>) -> Result<u8, NoMemory>
    ensures width { IfOk result (λ w. w ≡ width) }
    ensures steps { OnOk result (steps.new.items ≡ steps.old.items ++ step Copy 1 0 (is_wide Copy width) to from 0 0 ∷ []) }
{
    put(
        steps,
        Step {
            op: Op::Copy,
            width: 1,
            low: 0,
            wide: is_wide(Op::Copy, width),
            to,
            a: from,
            b: 0,
            c: 0,
        },
    )?;
    Ok(width)
}

// Whether the bits of a span don't lie in the lower 64.
fn is_high(span: Span) -> bool
    ensures { result ≡ is_wide Select (span.low + span.width) }
{
    span.low > 64 || span.width > 64 - span.low
}

// A select whose bits are known, of a signal that stands at a place.
fn lay_part(span: Span, from: u32, to: u32, steps: &mut Vec<Step>) -> Result<u8, NoMemory>
    ensures width { IfOk result (λ w. w ≡ span.width) }
    ensures steps { OnOk result (steps.new.items ≡ steps.old.items ++ step Select span.width span.low (is_wide Select (span.low + span.width)) to from 0 0 ∷ []) }
{
    let width = span.width;
    let low = span.low;
    let wide = is_high(span);
    put(
        steps,
        Step {
            op: Op::Select,
            width,
            low,
            wide,
            to,
            a: from,
            b: 0,
            c: 0,
        },
    )?;
    Ok(width)
}

// Bits of a signal from a place that the index gives.
#[cycle(lay)]
fn lay_pick(
    signal: SignalId,
    width: u8,
    below: u32,
    signed: bool,
    index: &Form,
    layout: &Layout,
    to: u32,
    mark: u32,
    steps: &mut Vec<Step>,
) -> Result<u8, NoMemory>
    requires { IsTrue (agrees (Pick signal width below signed (sized index.now))) }
    ensures width { IfOk result (λ w. w ≡ width) }
    ensures steps { OnOk result (steps.new.items ≡ steps.old.items ++ code (plan_of layout.now) (Pick signal width below signed (sized index.now)) to mark) }
{
    let x = stand(index, layout, mark, steps)?;
    let below = layout.constants.place(below as u128)?;
    put(
        steps,
        Step {
            op: locate_op(signed),
            width: x.width,
            low: 0,
            wide: true,
            to: mark,
            a: x.place,
            b: below,
            c: 0,
        },
    )?;
    put(
        steps,
        Step {
            op: Op::Pick,
            width,
            low: 0,
            wide: true,
            to,
            a: layout.slot(signal),
            b: mark,
            c: 0,
        },
    )?;
    Ok(width)
}

// What an operator makes of one operand.
#[cycle(lay)]
fn lay_unary(
    operator: UnaryOperator,
    a: &Form,
    layout: &Layout,
    to: u32,
    mark: u32,
    steps: &mut Vec<Step>,
) -> Result<u8, NoMemory>
    requires { IsTrue (agrees (Unary operator (sized a.now))) }
    ensures width { IfOk result (λ w. w ≡ width_of (Unary operator (sized a.now))) }
    ensures steps { OnOk result (steps.new.items ≡ steps.old.items ++ code (plan_of layout.now) (Unary operator (sized a.now)) to mark) }
{
    let x = stand(a, layout, mark, steps)?;
    let op = unary_op(operator);
    put(
        steps,
        Step {
            op,
            width: x.width,
            low: 0,
            wide: is_wide(op, x.width),
            to,
            a: x.place,
            b: 0,
            c: 0,
        },
    )?;
    Ok(unary_width(operator, x.width))
}

// What an operator makes of two operands.
#[cycle(lay)]
fn lay_binary(
    operator: BinaryOperator,
    a: &Form,
    b: &Form,
    layout: &Layout,
    to: u32,
    mark: u32,
    steps: &mut Vec<Step>,
) -> Result<u8, NoMemory>
    requires { IsTrue (agrees (Binary operator (sized a.now) (sized b.now))) }
    ensures width { IfOk result (λ w. w ≡ width_of (Binary operator (sized a.now) (sized b.now))) }
    ensures steps { OnOk result (steps.new.items ≡ steps.old.items ++ code (plan_of layout.now) (Binary operator (sized a.now) (sized b.now)) to mark) }
{
    let x = stand(a, layout, mark, steps)?;
    let y = stand(b, layout, next(mark)?, steps)?;
    let op = binary_op(operator);
    let swaps = swaps(operator);
    put(
        steps,
        Step {
            op,
            width: x.width,
            low: 0,
            wide: is_wide(op, x.width.max(y.width)),
            to,
            a: if swaps { y.place } else { x.place },
            b: if swaps { x.place } else { y.place },
            c: 0,
        },
    )?;
    Ok(binary_width(operator, x.width))
}

// `c ? a : b`
#[cycle(lay)]
fn lay_choice(
    c: &Form,
    a: &Form,
    b: &Form,
    layout: &Layout,
    to: u32,
    mark: u32,
    steps: &mut Vec<Step>,
) -> Result<u8, NoMemory>
    requires { IsTrue (agrees (Choice (sized c.now) (sized a.now) (sized b.now))) }
    ensures width { IfOk result (λ w. w ≡ width_of (Choice (sized c.now) (sized a.now) (sized b.now))) }
    ensures steps { OnOk result (steps.new.items ≡ steps.old.items ++ code (plan_of layout.now) (Choice (sized c.now) (sized a.now) (sized b.now)) to mark) }
{
    let second = next(mark)?;
    let third = next(second)?;
    let test = stand(c, layout, mark, steps)?;
    let x = stand(a, layout, second, steps)?;
    let y = stand(b, layout, third, steps)?;
    put(
        steps,
        Step {
            op: Op::Choose,
            width: 1,
            low: 0,
            wide: is_wide(Op::Choose, test.width.max(x.width.max(y.width))),
            to,
            a: test.place,
            b: x.place,
            c: y.place,
        },
    )?;
    Ok(x.width)
}

// One value above the other.
#[cycle(lay)]
fn lay_concat(
    width: u8,
    a: &Form,
    b: &Form,
    layout: &Layout,
    to: u32,
    mark: u32,
    steps: &mut Vec<Step>,
) -> Result<u8, NoMemory>
    requires { IsTrue (agrees (Concat width (sized a.now) (sized b.now))) }
    ensures width { IfOk result (λ w. w ≡ width) }
    ensures steps { OnOk result (steps.new.items ≡ steps.old.items ++ code (plan_of layout.now) (Concat width (sized a.now) (sized b.now)) to mark) }
{
    let x = stand(a, layout, mark, steps)?;
    let y = stand(b, layout, next(mark)?, steps)?;
    put(
        steps,
        Step {
            op: Op::Join,
            width,
            low: y.width,
            wide: is_wide(Op::Join, width),
            to,
            a: x.place,
            b: y.place,
            c: 0,
        },
    )?;
    Ok(width)
}

// Copies of one value: its product with as many copies of 1.
#[cycle(lay)]
fn lay_repeat(
    width: u8,
    count: u8,
    a: &Form,
    layout: &Layout,
    to: u32,
    mark: u32,
    steps: &mut Vec<Step>,
) -> Result<u8, NoMemory>
    requires { IsTrue (agrees (Repeat width count (sized a.now))) }
    ensures width { IfOk result (λ w. w ≡ width) }
    ensures steps { OnOk result (steps.new.items ≡ steps.old.items ++ code (plan_of layout.now) (Repeat width count (sized a.now)) to mark) }
{
    let x = stand(a, layout, mark, steps)?;
    let ones = layout
        .constants
        .place(copies_of_one(count, x.width, width))?;
    put(
        steps,
        Step {
            op: Op::Product,
            width,
            low: 0,
            wide: is_wide(Op::Product, width),
            to,
            a: x.place,
            b: ones,
            c: 0,
        },
    )?;
    Ok(width)
}

// The step that gives a value another width.
fn put_resized(
    x: Operand,
    width: u8,
    signed: bool,
    to: u32,
    steps: &mut Vec<Step>,
) -> Result<u8, NoMemory>
    ensures width { IfOk result (λ w. w ≡ width) }
    ensures steps { OnOk result (steps.new.items ≡ steps.old.items ++ step (resize_op x.width width signed) width (resize_low x.width width signed)
        (is_wide (resize_op x.width width signed) (max x.width width)) to x.place 0 0 ∷ []) }
{
    let op = resize_op(x.width, width, signed);
    put(
        steps,
        Step {
            op,
            width,
            low: resize_low(x.width, width, signed),
            wide: is_wide(op, x.width.max(width)),
            to,
            a: x.place,
            b: 0,
            c: 0,
        },
    )?;
    Ok(width)
}

// A value at another width.
#[cycle(lay)]
fn lay_resized(
    a: &Form,
    width: u8,
    signed: bool,
    layout: &Layout,
    to: u32,
    mark: u32,
    steps: &mut Vec<Step>,
) -> Result<u8, NoMemory>
    requires { IsTrue (agrees (Resized (sized a.now) width signed)) }
    ensures width { IfOk result (λ w. w ≡ width) }
    ensures steps { OnOk result (steps.new.items ≡ steps.old.items ++ code (plan_of layout.now) (Resized (sized a.now) width signed) to mark) }
{
    let x = stand(a, layout, mark, steps)?;
    put_resized(x, width, signed, to, steps)
}

/// Lays an expression out, so that its value comes to the place `to`, and gives its width. Places from the mark on are free. Want of
/// memory, and a place above the largest number, is `NoMemory`.
#[cycle(lay)]
pub fn lay(
    e: &Form,
    layout: &Layout,
    to: u32,
    mark: u32,
    steps: &mut Vec<Step>,
) -> Result<u8, NoMemory>
    requires { IsTrue (agrees (sized e.now)) }
    ensures width { IfOk result (λ w. w ≡ width_of (sized e.now)) }
    ensures steps { OnOk result (steps.new.items ≡ steps.old.items ++ code (plan_of layout.now) (sized e.now) to mark) }
{
    match e {
        Form::Constant(bits) => {
            let from = layout.constants.place(bits.value)?;
            lay_copy(from, bits.width, to, steps)
        }
        Form::Name { signal, width } => lay_copy(layout.slot(*signal), *width, to, steps),
        Form::Part(span) => {
            let from = layout.slot(span.signal);
            lay_part(*span, from, to, steps)
        }
        Form::Pick {
            signal,
            width,
            below,
            signed,
            index,
        } => lay_pick(
            *signal, *width, *below, *signed, index, layout, to, mark, steps,
        ),
        Form::Unary { operator, operand } => lay_unary(*operator, operand, layout, to, mark, steps),
        Form::Binary {
            operator,
            left,
            right,
        } => lay_binary(*operator, left, right, layout, to, mark, steps),
        Form::Choice {
            condition,
            consequent,
            alternative,
        } => lay_choice(condition, consequent, alternative, layout, to, mark, steps),
        Form::Concat { width, high, low } => lay_concat(*width, high, low, layout, to, mark, steps),
        Form::Repeat { width, count, part } => {
            lay_repeat(*width, *count, part, layout, to, mark, steps)
        }
        Form::Resized {
            operand,
            width,
            signed,
        } => lay_resized(operand, *width, *signed, layout, to, mark, steps),
    }
}

// A value at another width, which stands where it stood where the value stays as it is.
#[cycle(lay)]
fn stand_resized(
    a: &Form,
    width: u8,
    signed: bool,
    layout: &Layout,
    mark: u32,
    steps: &mut Vec<Step>,
) -> Result<Operand, NoMemory>
    requires { IsTrue (agrees (Resized (sized a.now) width signed)) }
    ensures width { IfOk result (λ o. o.width ≡ width) }
    ensures place { IfOk result (λ o. o.place ≡ operand (plan_of layout.now) (Resized (sized a.now) width signed) mark) }
    ensures steps { OnOk result (steps.new.items ≡ steps.old.items ++ before (plan_of layout.now) (Resized (sized a.now) width signed) mark
        (code (plan_of layout.now) (Resized (sized a.now) width signed) mark mark)) }
{
    let x = stand(a, layout, mark, steps)?;
    if is_plain(x.width, width, signed) {
        return Ok(Operand {
            place: x.place,
            width,
        });
    }
    put_resized(x, width, signed, mark, steps)?;
    Ok(Operand { place: mark, width })
}

/// Lays an expression out at the mark, where its value stands nowhere yet, and says where it stands then. Places from the mark on are
/// free. Want of memory, and a place above the largest number, is `NoMemory`.
#[cycle(lay)]
pub fn stand(
    e: &Form,
    layout: &Layout,
    mark: u32,
    steps: &mut Vec<Step>,
) -> Result<Operand, NoMemory>
    requires { IsTrue (agrees (sized e.now)) }
    ensures width { IfOk result (λ o. o.width ≡ width_of (sized e.now)) }
    ensures place { IfOk result (λ o. o.place ≡ operand (plan_of layout.now) (sized e.now) mark) }
    ensures steps { OnOk result (steps.new.items ≡ steps.old.items ++ before (plan_of layout.now) (sized e.now) mark (code (plan_of layout.now) (sized e.now) mark mark)) }
{
    match e {
        Form::Constant(bits) => {
            let place = layout.constants.place(bits.value)?;
            Ok(Operand {
                place,
                width: bits.width,
            })
        }
        Form::Name { signal, width } => Ok(Operand {
            place: layout.slot(*signal),
            width: *width,
        }),
        Form::Resized {
            operand,
            width,
            signed,
        } => stand_resized(operand, *width, *signed, layout, mark, steps),
        _ => {
            let width = lay(e, layout, mark, mark, steps)?;
            Ok(Operand { place: mark, width })
        }
    }
}
