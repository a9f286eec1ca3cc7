// Conditions laid out as steps that pass over others: comparisons of two values in one step, others by whether their value isn't 0.
ghost use Rattle.std.specs.Prelude.{◌≡◌, ◌++◌, [], IsTrue, OnOk};
ghost use Rattle.typed_ir.specs.Sized.{agrees, Binary};
ghost use Rattle.typed_ir.specs.Forms.{sized};
ghost use Rattle.typed_ir.specs.declared.binary_operator.BinaryOperator.TheVariants.{Compare};
ghost use Rattle.design_steps.specs.Statements.{Truth, Pair, unless_less, if_less, test_of, test_code, condition};
ghost use Rattle.design_steps.specs.Views.{plan_of};

use crate::expressions::stand;
use crate::fronting::{compare, prepend, skip};
use crate::layout::Layout;
use crate::putting::{next, put};
use ls_text::NoMemory;
use std::collections::VecDeque;
use typed_ir::{BinaryOperator, Comparison, Form, Signedness, Typed};
use word_steps::{Op, Step};

// Passes over steps unless the value of an expression isn't 0.
fn lay_truth(
    c: &Form,
    past: u32,
    layout: &Layout,
    mark: u32,
    first: &mut Vec<Step>,
) -> Result<(), NoMemory>
    requires { IsTrue (agrees (sized c.now)) }
    ensures { OnOk result (first.new.items ≡ first.old.items ++ test_code (plan_of layout.now) (Truth (sized c.now)) mark past) }
{
    let x = stand(c, layout, mark, first)?;
    put(first, skip(Op::SkipIfZero, x.place, 0, past))
}

// Passes over steps by what a step finds that compares two values.
fn lay_pair(
    op: Op,
    a: &Form,
    b: &Form,
    past: u32,
    layout: &Layout,
    mark: u32,
    first: &mut Vec<Step>,
) -> Result<(), NoMemory>
    requires first { IsTrue (agrees (sized a.now)) }
    requires second { IsTrue (agrees (sized b.now)) }
    ensures { OnOk result (first.new.items ≡ first.old.items ++ test_code (plan_of layout.now) (Pair op (sized a.now) (sized b.now)) mark past) }
{
    let x = stand(a, layout, mark, first)?;
    let y = stand(b, layout, next(mark)?, first)?;
    put(first, compare(op, x.width, x.place, y.place, past))
}

// The step that passes over others unless one value is less than another.
fn unless_less(s: Signedness) -> Op
    ensures { result ≡ unless_less s }
{
    match s {
        Signedness::Signed => Op::SkipUnlessSignedLess,
        Signedness::Unsigned => Op::SkipUnlessLess,
    }
}

// The step that passes over others where one value is less than another.
fn if_less(s: Signedness) -> Op
    ensures { result ≡ if_less s }
{
    match s {
        Signedness::Signed => Op::SkipIfSignedLess,
        Signedness::Unsigned => Op::SkipIfLess,
    }
}

// Passes over steps unless a comparison holds.
fn lay_comparison(
    op: Comparison,
    a: &Form,
    b: &Form,
    past: u32,
    layout: &Layout,
    mark: u32,
    first: &mut Vec<Step>,
) -> Result<(), NoMemory>
    requires { IsTrue (agrees (Binary (Compare op) (sized a.now) (sized b.now))) }
    ensures { OnOk result (first.new.items
        ≡ first.old.items ++ test_code (plan_of layout.now) (test_of (Binary (Compare op) (sized a.now) (sized b.now))) mark past) }
{
    match op {
        Comparison::Equal => lay_pair(Op::SkipUnlessEqual, a, b, past, layout, mark, first),
        Comparison::Unequal => lay_pair(Op::SkipIfEqual, a, b, past, layout, mark, first),
        Comparison::Less(s) => lay_pair(unless_less(s), a, b, past, layout, mark, first),
        Comparison::AtMost(s) => lay_pair(if_less(s), b, a, past, layout, mark, first),
        Comparison::Greater(s) => lay_pair(unless_less(s), b, a, past, layout, mark, first),
        Comparison::AtLeast(s) => lay_pair(if_less(s), a, b, past, layout, mark, first),
    }
}

// Passes over steps unless an expression holds.
fn lay_test(
    c: &Form,
    past: u32,
    layout: &Layout,
    mark: u32,
    first: &mut Vec<Step>,
) -> Result<(), NoMemory>
    requires { IsTrue (agrees (sized c.now)) }
    ensures { OnOk result (first.new.items ≡ first.old.items ++ condition (plan_of layout.now) (sized c.now) mark past) }
{
    match c {
        Form::Binary {
            operator: BinaryOperator::Compare(op),
            left,
            right,
        } => lay_comparison(*op, left, right, past, layout, mark, first),
        _ => lay_truth(c, past, layout, mark, first),
    }
}

/// Passes over steps unless a condition holds, in front of others; `first` has none before and after.
pub fn lay_condition(
    c: &Typed,
    past: u32,
    layout: &Layout,
    mark: u32,
    first: &mut Vec<Step>,
    steps: &mut VecDeque<Step>,
) -> Result<(), NoMemory>
    requires { first.old.items ≡ [] }
    ensures none { OnOk result (first.new.items ≡ []) }
    ensures steps { OnOk result (steps.new.items ≡ condition (plan_of layout.now) (sized c.now.form) mark past ++ steps.old.items) }
{
    lay_test(&c.form, past, layout, mark, first)?;
    prepend(first, steps)
}
