// Continuous assignments and connections laid out as steps.
ghost use Rattle.std.specs.Prelude.{◌≡◌, ◌++◌, OnOk};
ghost use Rattle.typed_ir.specs.Forms.{sized};
ghost use Rattle.typed_ir.specs.Stmts.{Fixed};
ghost use Rattle.design_steps.specs.Statements.{parts_code, one_code, assign_code};
ghost use Rattle.design_steps.specs.Nodes.{parts_of};
ghost use Rattle.design_steps.specs.Views.{plan_of};

use crate::expressions::lay;
use crate::home::Home;
use crate::layout::Layout;
use crate::operand::Operand;
use crate::parts::{lay_lane, lay_one};
use crate::putting::next;
use ls_text::NoMemory;
use typed_ir::{Lane, Target, Typed};
use word_steps::Step;

// All lanes, one after another; the value stands at a place.
fn lay_lanes(
    lanes: &[Lane],
    layout: &Layout,
    x: Operand,
    mark: u32,
    steps: &mut Vec<Step>,
) -> Result<(), NoMemory>
    ensures { OnOk result (steps.new.items ≡ steps.old.items ++ parts_code (plan_of layout.now) (plan_of layout.now).slot (parts_of lanes.now) x.width x.place mark) }
{
    for lane in lanes {
        let span = lane.span;
        let to = layout.slot(span.signal);
        lay_lane(*lane, layout, to, x, mark, steps)?;
    }
    Ok(())
}

// A value that goes to one lane.
fn lay_one_lane(
    lane: Lane,
    value: &Typed,
    layout: &Layout,
    mark: u32,
    steps: &mut Vec<Step>,
) -> Result<(), NoMemory>
    ensures { OnOk result (steps.new.items ≡ steps.old.items ++ one_code (plan_of layout.now) (plan_of layout.now).slot (Fixed lane) (sized value.now.form) mark) }
{
    let target = Target::Fixed(lane);
    lay_one(&target, value, Home::Now, layout, mark, steps)
}

/// A value that drives lanes, from left to right. Want of memory, and a place above the largest number, is `NoMemory`.
#[tactic(auto, using(crate::proofs::Assigning::one_lane))]
pub fn lay_drive(
    lanes: &[Lane],
    value: &Typed,
    layout: &Layout,
    mark: u32,
    steps: &mut Vec<Step>,
) -> Result<(), NoMemory>
    ensures { OnOk result (steps.new.items ≡ steps.old.items ++ assign_code (plan_of layout.now) (plan_of layout.now).slot (parts_of lanes.now) (sized value.now.form) mark) }
{
    if lanes.is_empty() {
        return Ok(());
    }
    if lanes.len() == 1 {
        return lay_one_lane(lanes[0], value, layout, mark, steps);
    }
    let second = next(mark)?;
    let width = lay(&value.form, layout, mark, mark, steps)?;
    let x = Operand { place: mark, width };
    lay_lanes(lanes, layout, x, second, steps)
}
