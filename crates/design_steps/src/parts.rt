// Parts left of an assignment, laid out as steps.
ghost use Rattle.std.specs.Prelude.{◌≡◌, ◌+◌, ◌++◌, ◌∷◌, [], max, IsTrue, IfOk, OnOk};
ghost use Rattle.typed_ir.specs.Sized.{agrees, width_of};
ghost use Rattle.typed_ir.specs.Forms.{sized};
ghost use Rattle.typed_ir.specs.Stmts.{Fixed, Moving};
ghost use Rattle.typed_ir.specs.Targets.{target_of, targets_of};
ghost use Rattle.design_steps.specs.Statements.{is_direct, shifted, shift_code, signal_of, part_code, parts_code, one_code, assign_code};
ghost use Rattle.design_steps.specs.Expressions.{step, is_wide};
ghost use Rattle.design_steps.specs.Homes.{home_of};
ghost use Rattle.word_steps.specs.declared.op.Op.TheVariants.{Select};
ghost use Rattle.design_steps.specs.Views.{plan_of};

use crate::expressions::{lay, stand};
use crate::home::Home;
use crate::layout::Layout;
use crate::operand::Operand;
use crate::operators::{is_wide, locate_op};
use crate::putting::{next, put};
use ls_text::NoMemory;
use typed_ir::{Form, Lane, Reach, Target, Typed, span_of};
use word_steps::{Op, Step};

// Whether more than 64 bits are looked at where so many bits are taken from bit `shift` on.
fn reaches_high(from: u8, shift: u8, width: u8) -> bool
    ensures { result ≡ is_wide Select (max from (shift + width)) }
{
    from > 64 || shift > 64 || width > 64 - shift
}

// So many bits of a value from bit `shift` on, put at a place.
fn put_shifted(
    x: Operand,
    shift: u8,
    width: u8,
    to: u32,
    steps: &mut Vec<Step>,
) -> Result<(), NoMemory>
    ensures { OnOk result (steps.new.items ≡ steps.old.items ++ step Select width shift (is_wide Select (max x.width (shift + width))) to x.place 0 0 ∷ []) }
{
    let wide = reaches_high(x.width, shift, width);
    put(
        steps,
        Step {
            op: Op::Select,
            width,
            low: shift,
            wide,
            to,
            a: x.place,
            b: 0,
            c: 0,
        },
    )
}

// The bits of a value from bit `shift` on, which stand where the value stands where that is bit 0.
fn stand_shifted(
    x: Operand,
    shift: u8,
    width: u8,
    mark: u32,
    steps: &mut Vec<Step>,
) -> Result<u32, NoMemory>
    ensures place { IfOk result (λ place. place ≡ shifted shift x.place mark) }
    ensures steps { OnOk result (steps.new.items ≡ steps.old.items ++ shift_code shift width x.width x.place mark) }
{
    if shift == 0 {
        return Ok(x.place);
    }
    put_shifted(x, shift, width, mark, steps)?;
    Ok(mark)
}

/// Bits that are known.
pub fn lay_lane(
    lane: Lane,
    layout: &Layout,
    to: u32,
    x: Operand,
    mark: u32,
    steps: &mut Vec<Step>,
) -> Result<(), NoMemory>
    ensures { OnOk result (steps.new.items ≡ steps.old.items ++ part_code (plan_of layout.now) to (Fixed lane) x.width x.place mark) }
{
    let span = lane.span;
    let shift = lane.shift;
    let width = span.width;
    let low = span.low;
    let total = layout.width(span.signal);
    if low == 0 && width == total {
        return put_shifted(x, shift, width, to, steps);
    }
    let from = stand_shifted(x, shift, width, mark, steps)?;
    put(
        steps,
        Step {
            op: Op::Place,
            width,
            low,
            wide: is_wide(Op::Place, total.max(x.width)),
            to,
            a: from,
            b: to,
            c: 0,
        },
    )
}

// Bits from a place that the index gives.
fn lay_reach(
    reach: Reach,
    index: &Form,
    layout: &Layout,
    to: u32,
    x: Operand,
    mark: u32,
    steps: &mut Vec<Step>,
) -> Result<(), NoMemory>
    requires { IsTrue (agrees (sized index.now)) }
    ensures { OnOk result (steps.new.items ≡ steps.old.items ++ part_code (plan_of layout.now) to (Moving reach (sized index.now)) x.width x.place mark) }
{
    let width = reach.width;
    let total = reach.total;
    let shift = reach.shift;
    let signed = reach.signed;
    let below = layout.constants.place(reach.below as u128)?;
    let second = next(mark)?;
    let i = stand(index, layout, mark, steps)?;
    put(
        steps,
        Step {
            op: locate_op(signed),
            width: i.width,
            low: 0,
            wide: true,
            to: mark,
            a: i.place,
            b: below,
            c: 0,
        },
    )?;
    let from = stand_shifted(x, shift, width, second, steps)?;
    put(
        steps,
        Step {
            op: Op::PlaceAt,
            width,
            low: total,
            wide: true,
            to,
            a: from,
            b: mark,
            c: to,
        },
    )
}

// One part left of an assignment, whose word stands at `to`; the value stands at a place.
fn lay_target(
    target: &Target,
    layout: &Layout,
    to: u32,
    x: Operand,
    mark: u32,
    steps: &mut Vec<Step>,
) -> Result<(), NoMemory>
    ensures { OnOk result (steps.new.items ≡ steps.old.items ++ part_code (plan_of layout.now) to (target_of target.now) x.width x.place mark) }
{
    match target {
        Target::Fixed(lane) => lay_lane(*lane, layout, to, x, mark, steps),
        Target::Moving { reach, index } => lay_reach(
            *reach,
            &index.form,
            layout,
            to,
            x,
            mark,
            steps,
        ),
    }
}

// Where the word stands that a part writes.
fn home_of(home: Home, layout: &Layout, target: &Target) -> u32
    ensures { result ≡ home_of home (plan_of layout.now) (signal_of (target_of target.now)) }
{
    let signal = span_of(target).signal;
    match home {
        Home::Now => layout.slot(signal),
        Home::Later => layout.next(signal),
    }
}

// All parts, one after another.
fn lay_targets(
    targets: &[Target],
    home: Home,
    layout: &Layout,
    x: Operand,
    mark: u32,
    steps: &mut Vec<Step>,
) -> Result<(), NoMemory>
    ensures { OnOk result (steps.new.items ≡ steps.old.items ++ parts_code (plan_of layout.now) (home_of home (plan_of layout.now)) (targets_of targets.now) x.width x.place mark) }
{
    for target in targets {
        let to = home_of(home, layout, target);
        lay_target(target, layout, to, x, mark, steps)?;
    }
    Ok(())
}

// Whether an assignment of so many bits to known bits gives a signal the value itself.
fn is_direct_lane(lane: Lane, from: u8, layout: &Layout) -> bool
    ensures { result ≡ is_direct (plan_of layout.now) (Fixed lane) from }
{
    let span = lane.span;
    let shift = lane.shift;
    let width = span.width;
    let low = span.low;
    let total = layout.width(span.signal);
    shift == 0 && low == 0 && width == total && from <= width
}

// The same of any part.
fn is_direct(target: &Target, from: u8, layout: &Layout) -> bool
    ensures { result ≡ is_direct (plan_of layout.now) (target_of target.now) from }
{
    match target {
        Target::Fixed(lane) => is_direct_lane(*lane, from, layout),
        Target::Moving { .. } => false,
    }
}

/// An assignment to one part.
pub fn lay_one(
    target: &Target,
    value: &Typed,
    home: Home,
    layout: &Layout,
    mark: u32,
    steps: &mut Vec<Step>,
) -> Result<(), NoMemory>
    ensures { OnOk result (steps.new.items ≡ steps.old.items ++ one_code (plan_of layout.now) (home_of home (plan_of layout.now)) (target_of target.now) (sized value.now.form) mark) }
{
    let to = home_of(home, layout, target);
    if is_direct(target, value.width, layout) {
        lay(&value.form, layout, to, mark, steps)?;
        return Ok(());
    }
    let second = next(mark)?;
    let x = stand(&value.form, layout, mark, steps)?;
    lay_target(target, layout, to, x, second, steps)
}

/// An assignment of a value to parts, from left to right. Want of memory, and a place above the largest number, is `NoMemory`.
#[tactic(auto, using(crate::proofs::Assigning::one_target, crate::proofs::Assigning::more_targets))]
pub fn lay_assignment(
    targets: &[Target],
    value: &Typed,
    home: Home,
    layout: &Layout,
    mark: u32,
    steps: &mut Vec<Step>,
) -> Result<(), NoMemory>
    ensures { OnOk result (steps.new.items ≡ steps.old.items ++ assign_code (plan_of layout.now) (home_of home (plan_of layout.now)) (targets_of targets.now) (sized value.now.form) mark) }
{
    if targets.is_empty() {
        return Ok(());
    }
    if targets.len() == 1 {
        let target = &targets[0];
        return lay_one(target, value, home, layout, mark, steps);
    }
    let second = next(mark)?;
    let width = lay(&value.form, layout, mark, mark, steps)?;
    let x = Operand { place: mark, width };
    lay_targets(targets, home, layout, x, second, steps)
}
