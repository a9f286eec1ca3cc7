// Cases at the length and the sign of all their labels.
ghost use Rattle.std.specs.Prelude.{◌≡◌, ◌≤◌, ◌&&◌, max, map, IfOk};
ghost use Rattle.typed_ir.specs.Stmts as s;
ghost use Rattle.typed_ir.specs.Statements.{stmt_of};
ghost use Rattle.statement_rules.specs.Cases.{arm_form, sized_arm, closed_arm, arms_from, default_form, otherwise_or};
ghost use Rattle.width_rules.specs.Opened.{opened, closed};

use crate::labelling::close_labels;
use crate::open_arm::OpenArm;
use crate::open_case::OpenCase;
use ls_text::NoMemory;
use std::alloc::Global;
use typed_ir::{Arm, Stmt};
use width_rules::{Measured, close};

// An item at the length and the sign of its case.
fn close_arm(alloc: Global, arm: OpenArm, length: u8, signed: bool) -> Result<Arm, NoMemory>
    requires at_least_one { 1 ≤ length }
    requires at_most_128 { length ≤ 128 }
    ensures { IfOk result (λ x. sized_arm x ≡ closed_arm length signed (arm_form arm)) }
{
    let OpenArm { labels, body } = arm;
    let items = close_labels(alloc, labels, length, signed)?;
    Ok(Arm { items, body })
}

// All items.
fn close_arms(
    alloc: Global,
    arms: Vec<OpenArm>,
    length: u8,
    signed: bool,
) -> Result<Vec<Arm>, NoMemory>
    requires at_least_one { 1 ≤ length }
    requires at_most_128 { length ≤ 128 }
    ensures { IfOk result (λ xs. map sized_arm xs.items ≡ map (closed_arm length signed) (map arm_form arms.items)) }
{
    let mut list = Vec::new(alloc);
    for arm in arms {
        list.push(close_arm(alloc, arm, length, signed)?)?;
    }
    Ok(list)
}

// What is done where no item matches.
fn otherwise_of(alloc: Global, found: Option<Box<Stmt>>) -> Result<Box<Stmt>, NoMemory>
    ensures { IfOk result (λ x. stmt_of x.value ≡ otherwise_or (default_form found) s.Skip) }
{
    match found {
        Some(found) => Ok(found),
        None => Ok(Box::new(alloc, Stmt::Skip)?),
    }
}

// A case at its length and its sign.
#[tactic(auto, using(width_rules::proofs::Firsts::earlier, width_rules::proofs::Firsts::later, width_rules::proofs::Firsts::neither, crate::proofs::Building::case_made))]
fn close_at(
    alloc: Global,
    subject: Measured,
    items: OpenCase,
    length: u8,
    signed: bool,
) -> Result<Stmt, NoMemory>
    requires at_least_one { 1 ≤ length }
    requires at_most_128 { length ≤ 128 }
    ensures { IfOk result (λ x. stmt_of x ≡ s.Case (closed (opened subject.form) length signed) (arms_from (map (closed_arm length signed) (map arm_form items.arms.items)) (otherwise_or (default_form items.otherwise) s.Skip))) }
{
    let subject = close(alloc, subject.form, length, signed)?;
    let arms = close_arms(alloc, items.arms, length, signed)?;
    let otherwise = otherwise_of(alloc, items.otherwise)?;
    Ok(Stmt::Case {
        subject,
        arms,
        otherwise,
    })
}

/// A case: its expression and its labels as long as the longest of them, signed where all are (IEEE Std 1364-2005, 9.5).
pub fn close_case(alloc: Global, subject: Measured, items: OpenCase) -> Result<Stmt, NoMemory>
    ensures { IfOk result (λ x. stmt_of x ≡ s.Case (closed (opened subject.form) (max subject.length items.length) (subject.signed && items.signed)) (arms_from (map (closed_arm (max subject.length items.length) (subject.signed && items.signed)) (map arm_form items.arms.items)) (otherwise_or (default_form items.otherwise) s.Skip))) }
{
    let length = subject.length.max(items.length);
    let signed = subject.signed && items.signed;
    close_at(alloc, subject, items, length, signed)
}
