// The items of a case laid out as steps that compare, from the last one to the first.
ghost use Rattle.std.specs.Prelude.{◌≡◌, ◌++◌, ◌∷◌, [], true, map, OnOk};
ghost use Rattle.typed_ir.specs.Statements.{item_of};
ghost use Rattle.design_steps.specs.Expressions.{step};
ghost use Rattle.design_steps.specs.Statements.{item_code, subject_at, item_at, tests};
ghost use Rattle.design_steps.specs.Views.{plan_of};
ghost use Rattle.word_steps.specs.declared.op.Op.TheVariants.{Or};

use crate::expressions::stand;
use crate::fronting::{added, prepend, skip};
use crate::layout::Layout;
use crate::putting::{next, put};
use ls_text::NoMemory;
use std::collections::VecDeque;
use typed_ir::Item;
use word_steps::{Op, Step};

// A value with the ignored bits as ones.
fn put_masked(x: u32, ignored: u32, to: u32, steps: &mut Vec<Step>) -> Result<(), NoMemory>
    ensures { OnOk result (steps.new.items ≡ steps.old.items ++ step Or 1 0 true to x ignored 0 ∷ []) }
{
    put(
        steps,
        Step {
            op: Op::Or,
            width: 1,
            low: 0,
            wide: true,
            to,
            a: x,
            b: ignored,
            c: 0,
        },
    )
}

// An item of a case compared with the value at `here`, and a step that passes over others by it.
fn lay_compared(
    item: &Item,
    here: u32,
    op: Op,
    count: u32,
    layout: &Layout,
    mark: u32,
    first: &mut Vec<Step>,
) -> Result<(), NoMemory>
    ensures { OnOk result (first.new.items ≡ first.old.items ++ (item_code (plan_of layout.now) (item_of item.now) here mark
        ++ step op 1 0 true 0 (subject_at (item_of item.now) here mark) (item_at (plan_of layout.now) (item_of item.now) mark) count ∷ [])) }
{
    let second = next(mark)?;
    let third = next(second)?;
    let x = stand(&item.item.form, layout, mark, first)?;
    if item.ignored == 0 {
        return put(first, skip(op, here, x.place, count));
    }
    let ignored = layout.constants.place(item.ignored)?;
    put_masked(here, ignored, second, first)?;
    put_masked(x.place, ignored, third, first)?;
    put(first, skip(op, second, third, count))
}

/// Whether one of the items matches the value at `here`; where none does, so many steps behind are passed over.
pub fn lay_tests(
    items: &[Item],
    here: u32,
    past: u32,
    layout: &Layout,
    mark: u32,
    first: &mut Vec<Step>,
    steps: &mut VecDeque<Step>,
) -> Result<(), NoMemory>
    requires { first.old.items ≡ [] }
    ensures none { OnOk result (first.new.items ≡ []) }
    ensures steps { OnOk result (steps.new.items ≡ tests (plan_of layout.now) (map item_of items.now) here mark past ++ steps.old.items) }
{
    if items.is_empty() {
        steps.push_front(skip(Op::Skip, 0, 0, past))?;
        return Ok(());
    }
    let before = steps.len();
    let mut left = items.len() - 1;
    lay_compared(
        &items[left],
        here,
        Op::SkipUnlessEqual,
        past,
        layout,
        mark,
        first,
    )?;
    prepend(first, steps)?;
    'items: while left > 0 {
        left -= 1;
        let count = added(steps, before)?;
        lay_compared(
            &items[left],
            here,
            Op::SkipIfEqual,
            count,
            layout,
            mark,
            first,
        )?;
        prepend(first, steps)?;
    }
    Ok(())
}
