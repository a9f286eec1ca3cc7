// Which bits a clocked block may write, as spans.
ghost use Rattle.std.specs.Prelude.{◌≡◌, ◌++◌, IfOk, map};
ghost use Rattle.typed_ir.specs.Stmts.{span_of, later_targets, later_arm_targets};
ghost use Rattle.typed_ir.specs.Targets.{targets_of};
ghost use Rattle.typed_ir.specs.Statements.{stmt_of, arm_of, sequence_of, arms_before};

use crate::arm::Arm;
use crate::span::Span;
use crate::stmt::Stmt;
use crate::target::{Target, span_of};
use ls_text::NoMemory;
use std::alloc::Global;

// Adds the bits that an assignment to these parts may write.
fn add_parts(parts: &[Target], spans: &mut Vec<Span>) -> Result<(), NoMemory>
    ensures { IfOk result (λ _. spans.new.items ≡ spans.old.items ++ map span_of (targets_of parts.now)) }
{
    for part in parts {
        spans.push(span_of(part))?;
    }
    Ok(())
}

// Adds the bits that the nonblocking assignments of a statement may write.
#[cycle(later)]
fn add_later(st: &Stmt, spans: &mut Vec<Span>) -> Result<(), NoMemory>
    ensures { IfOk result (λ _. spans.new.items ≡ spans.old.items ++ later_targets (stmt_of st.now)) }
{
    match st {
        Stmt::Skip | Stmt::Assign { .. } => Ok(()),
        Stmt::Later { targets, .. } => add_parts(targets, spans),
        Stmt::Sequence(list) => add_later_of_all(list, spans),
        Stmt::If {
            consequent,
            alternative,
            ..
        } => {
            add_later(consequent, spans)?;
            add_later(alternative, spans)
        }
        Stmt::Case {
            arms,
            otherwise,
            ..
        } => add_later_of_arms(arms, otherwise, spans),
    }
}

// The same of statements one after another.
#[cycle(later)]
fn add_later_of_all(list: &[Stmt], spans: &mut Vec<Span>) -> Result<(), NoMemory>
    ensures { IfOk result (λ _. spans.new.items ≡ spans.old.items ++ later_targets (sequence_of (map stmt_of list.now))) }
{
    for st in list {
        add_later(st, spans)?;
    }
    Ok(())
}

// The same of the arms of a case and its default.
#[cycle(later)]
fn add_later_of_arms(arms: &[Arm], otherwise: &Stmt, spans: &mut Vec<Span>) -> Result<(), NoMemory>
    ensures { IfOk result (λ _. spans.new.items ≡ spans.old.items ++ later_arm_targets (arms_before (map arm_of arms.now) (stmt_of otherwise.now))) }
{
    for arm in arms {
        add_later(&arm.body, spans)?;
    }
    add_later(otherwise, spans)
}

/// The bits that the nonblocking assignments of a statement may write, in the order of the text: a select at run time counts as
/// its whole variable. Want of memory is `NoMemory`.
pub fn later_spans(alloc: Global, st: &Stmt) -> Result<Vec<Span>, NoMemory>
    ensures { IfOk result (λ spans. spans.items ≡ later_targets (stmt_of st.now)) }
{
    let mut spans = Vec::new(alloc);
    add_later(st, &mut spans)?;
    Ok(spans)
}
