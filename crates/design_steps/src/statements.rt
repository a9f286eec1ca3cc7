// Statements laid out as steps, from the last one to the first: what stands behind a branch then has its length already, and each step is
// put in front of the others once.
ghost use Rattle.std.specs.Prelude.{◌≡◌, ◌++◌, [], List, length, map, OnOk};
ghost use Rattle.typed_ir.specs.Statements.{stmt_of, arm_of, item_of, sequence_of, arms_before};
ghost use Rattle.typed_ir.specs.Stmts.{Case};
ghost use Rattle.typed_ir.specs.Targets.{targets_of};
ghost use Rattle.typed_ir.specs.Forms.{sized};
ghost use Rattle.word_steps.specs.declared.step.Step.{Step};
ghost use Rattle.design_steps.specs.Homes.{home_of};
ghost use Rattle.design_steps.specs.Statements.{condition, branch, tests, assign_code, stmt_code, arms_code};
ghost use Rattle.design_steps.specs.Views.{plan_of};

use crate::conditions::lay_condition;
use crate::expressions::stand;
use crate::fronting::{added, prepend, skip_others};
use crate::home::Home;
use crate::layout::Layout;
use crate::matching::lay_tests;
use crate::parts::lay_assignment;
use crate::putting::next;
use ls_text::NoMemory;
use std::collections::VecDeque;
use typed_ir::{Arm, Stmt, Target, Typed};
use word_steps::Step;

/// Statements one after another, the last one first, in front of other steps; `first` has none before and after. Want of memory, and a place
/// or a number of steps above the largest number, is `NoMemory`.
#[cycle(lay_nested)]
pub fn lay_sequence(
    list: &[Stmt],
    layout: &Layout,
    mark: u32,
    first: &mut Vec<Step>,
    steps: &mut VecDeque<Step>,
) -> Result<(), NoMemory>
    requires { first.old.items ≡ [] }
    ensures none { OnOk result (first.new.items ≡ []) }
    ensures steps { OnOk result (steps.new.items ≡ stmt_code (plan_of layout.now) (sequence_of (map stmt_of list.now)) mark ++ steps.old.items) }
{
    let mut left = list.len();
    'statements: while left > 0 {
        left -= 1;
        lay_statement(&list[left], layout, mark, first, steps)?;
    }
    Ok(())
}

// A condition and its two sides.
#[cycle(lay_nested)]
fn lay_if(
    test: &Typed,
    consequent: &Stmt,
    alternative: &Stmt,
    layout: &Layout,
    mark: u32,
    first: &mut Vec<Step>,
    steps: &mut VecDeque<Step>,
) -> Result<(), NoMemory>
    requires { first.old.items ≡ [] }
    ensures none { OnOk result (first.new.items ≡ []) }
    ensures steps { OnOk result (steps.new.items ≡ branch (condition (plan_of layout.now) (sized test.now.form) mark)
        (stmt_code (plan_of layout.now) (stmt_of consequent.now) mark) (stmt_code (plan_of layout.now) (stmt_of alternative.now) mark) ++ steps.old.items) }
{
    let end = steps.len();
    lay_statement(alternative, layout, mark, first, steps)?;
    let others = added(steps, end)?;
    let middle = steps.len();
    skip_others(others, steps)?;
    lay_statement(consequent, layout, mark, first, steps)?;
    let past = added(steps, middle)?;
    lay_condition(test, past, layout, mark, first, steps)
}

// An arm of a case, in front of the steps of those behind it, of which there are so many.
#[cycle(lay_nested)]
fn lay_arm(
    arm: &Arm,
    end: usize,
    here: u32,
    layout: &Layout,
    mark: u32,
    first: &mut Vec<Step>,
    steps: &mut VecDeque<Step>,
) -> Result<(), NoMemory>
    requires { first.old.items ≡ [] }
    ensures none { OnOk result (first.new.items ≡ []) }
    ensures steps { (rest old : List Step) → steps.old.items ≡ rest ++ old → length old ≡ end
        → OnOk result (steps.new.items ≡ branch (tests (plan_of layout.now) (map item_of arm.now.items.items) here mark)
        (stmt_code (plan_of layout.now) (stmt_of arm.now.body) mark) rest ++ old) }
{
    let others = added(steps, end)?;
    let middle = steps.len();
    skip_others(others, steps)?;
    lay_statement(&arm.body, layout, mark, first, steps)?;
    let past = added(steps, middle)?;
    lay_tests(&arm.items, here, past, layout, mark, first, steps)
}

// The arms of a case before its default, the last one first; the value of the case's expression stands at `here`.
#[cycle(lay_nested)]
fn lay_arms(
    arms: &[Arm],
    otherwise: &Stmt,
    here: u32,
    layout: &Layout,
    mark: u32,
    first: &mut Vec<Step>,
    steps: &mut VecDeque<Step>,
) -> Result<(), NoMemory>
    requires { first.old.items ≡ [] }
    ensures none { OnOk result (first.new.items ≡ []) }
    ensures steps { OnOk result (steps.new.items
        ≡ arms_code (plan_of layout.now) (arms_before (map arm_of arms.now) (stmt_of otherwise.now)) here mark ++ steps.old.items) }
{
    let end = steps.len();
    lay_statement(otherwise, layout, mark, first, steps)?;
    let mut left = arms.len();
    'arms: while left > 0 {
        left -= 1;
        lay_arm(&arms[left], end, here, layout, mark, first, steps)?;
    }
    Ok(())
}

// A case: the expression's own steps come in front of those of the arms, which have to know where it stands.
#[cycle(lay_nested)]
fn lay_case(
    subject: &Typed,
    arms: &[Arm],
    otherwise: &Stmt,
    layout: &Layout,
    mark: u32,
    first: &mut Vec<Step>,
    steps: &mut VecDeque<Step>,
) -> Result<(), NoMemory>
    requires { first.old.items ≡ [] }
    ensures none { OnOk result (first.new.items ≡ []) }
    ensures steps { OnOk result (steps.new.items
        ≡ stmt_code (plan_of layout.now) (Case (sized subject.now.form) (arms_before (map arm_of arms.now) (stmt_of otherwise.now))) mark ++ steps.old.items) }
{
    let mut own = Vec::new(*first.allocator());
    let x = stand(&subject.form, layout, mark, &mut own)?;
    lay_arms(arms, otherwise, x.place, layout, next(mark)?, first, steps)?;
    prepend(&mut own, steps)
}

// An assignment in front of other steps.
fn lay_parts(
    targets: &[Target],
    value: &Typed,
    home: Home,
    layout: &Layout,
    mark: u32,
    first: &mut Vec<Step>,
    steps: &mut VecDeque<Step>,
) -> Result<(), NoMemory>
    requires { first.old.items ≡ [] }
    ensures none { OnOk result (first.new.items ≡ []) }
    ensures steps { OnOk result (steps.new.items
        ≡ assign_code (plan_of layout.now) (home_of home (plan_of layout.now)) (targets_of targets.now) (sized value.now.form) mark ++ steps.old.items) }
{
    lay_assignment(targets, value, home, layout, mark, first)?;
    prepend(first, steps)
}

/// Lays a statement out in front of other steps; `first` has none before and after. Want of memory, and a place or a number of steps above
/// the largest number, is `NoMemory`.
#[cycle(lay_nested)]
pub fn lay_statement(
    st: &Stmt,
    layout: &Layout,
    mark: u32,
    first: &mut Vec<Step>,
    steps: &mut VecDeque<Step>,
) -> Result<(), NoMemory>
    requires { first.old.items ≡ [] }
    ensures none { OnOk result (first.new.items ≡ []) }
    ensures steps { OnOk result (steps.new.items ≡ stmt_code (plan_of layout.now) (stmt_of st.now) mark ++ steps.old.items) }
{
    match st {
        Stmt::Skip => Ok(()),
        Stmt::Assign { targets, value } => {
            lay_parts(targets, value, Home::Now, layout, mark, first, steps)
        }
        Stmt::Later { targets, value } => {
            lay_parts(targets, value, Home::Later, layout, mark, first, steps)
        }
        Stmt::Sequence(list) => lay_sequence(list, layout, mark, first, steps),
        Stmt::If {
            condition,
            consequent,
            alternative,
        } => lay_if(
            condition,
            consequent,
            alternative,
            layout,
            mark,
            first,
            steps,
        ),
        Stmt::Case {
            subject,
            arms,
            otherwise,
        } => lay_case(subject, arms, otherwise, layout, mark, first, steps),
    }
}
