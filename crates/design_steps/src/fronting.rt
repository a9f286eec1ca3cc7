// Steps that are put in front of others.
ghost use Rattle.std.specs.Prelude.{◌≡◌, ◌+◌, ◌++◌, [], length, true, IfOk, OnOk};
ghost use Rattle.design_steps.specs.Expressions.{step};
ghost use Rattle.design_steps.specs.Statements.{pass_over};

use ls_text::NoMemory;
use std::collections::VecDeque;
use word_steps::{Op, Step};

/// Puts steps in front of others, and takes them out of their list.
pub fn prepend(first: &mut Vec<Step>, steps: &mut VecDeque<Step>) -> Result<(), NoMemory>
    ensures none { OnOk result (first.new.items ≡ []) }
    ensures steps { OnOk result (steps.new.items ≡ first.old.items ++ steps.old.items) }
{
    'taking: while let Some(step) = first.pop() {
        steps.push_front(step)?;
    }
    Ok(())
}

/// How many steps were put in front of so many. More than the largest number are `NoMemory`.
pub fn added(steps: &VecDeque<Step>, before: usize) -> Result<u32, NoMemory>
    ensures { IfOk result (λ n. n + before ≡ length steps.now.items) }
{
    let all = steps.len();
    if all < before || all - before > 0xffff_ffff {
        return Err(NoMemory);
    }
    Ok((all - before) as u32)
}

/// A step that passes over others by what it finds of two values of a width.
pub fn compare(op: Op, width: u8, a: u32, b: u32, count: u32) -> Step
    ensures { result ≡ step op width 0 true 0 a b count }
{
    Step {
        op,
        width,
        low: 0,
        wide: true,
        to: 0,
        a,
        b,
        c: count,
    }
}

/// A step that passes over others, and needs no width.
pub fn skip(op: Op, a: u32, b: u32, count: u32) -> Step
    ensures { result ≡ step op 1 0 true 0 a b count }
{
    compare(op, 1, a, b, count)
}

/// Passes over what is done where a test fails.
pub fn skip_others(others: u32, steps: &mut VecDeque<Step>) -> Result<(), NoMemory>
    ensures { OnOk result (steps.new.items ≡ pass_over others ++ steps.old.items) }
{
    if others > 0 {
        steps.push_front(skip(Op::Skip, 0, 0, others))?;
    }
    Ok(())
}
