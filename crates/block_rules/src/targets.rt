// Which bits a block may write, as spans.
ghost use Rattle.std.specs.Prelude.{◌≡◌, ◌++◌, IfOk, map};
ghost use Rattle.typed_ir.specs.Stmts.{span_of, targets, arm_targets};
ghost use Rattle.typed_ir.specs.Targets.{targets_of};
ghost use Rattle.typed_ir.specs.Statements.{stmt_of, arm_of, sequence_of, arms_before};

use ls_text::NoMemory;
use std::alloc::Global;
use typed_ir::{Arm, Span, Stmt, Target, span_of};

// Adds the bits that an assignment to these parts may write.
fn add_parts(parts: &[Target], spans: &mut Vec<Span>) -> Result<(), NoMemory>
    ensures { IfOk result (λ _. spans.new.items ≡ spans.old.items ++ map span_of (targets_of parts.now)) }
{
    for part in parts {
        spans.push(span_of(part))?;
    }
    Ok(())
}

// Adds the bits that the blocking assignments of a statement may write.
#[cycle(targets)]
fn add_targets(st: &Stmt, spans: &mut Vec<Span>) -> Result<(), NoMemory>
    ensures { IfOk result (λ _. spans.new.items ≡ spans.old.items ++ targets (stmt_of st.now)) }
{
    match st {
        Stmt::Skip | Stmt::Later { .. } => Ok(()),
        Stmt::Assign { targets, .. } => add_parts(targets, spans),
        Stmt::Sequence(list) => add_targets_of_all(list, spans),
        Stmt::If {
            consequent,
            alternative,
            ..
        } => {
            add_targets(consequent, spans)?;
            add_targets(alternative, spans)
        }
        Stmt::Case {
            arms,
            otherwise,
            ..
        } => add_targets_of_arms(arms, otherwise, spans),
    }
}

// The same of statements one after another.
#[cycle(targets)]
fn add_targets_of_all(list: &[Stmt], spans: &mut Vec<Span>) -> Result<(), NoMemory>
    ensures { IfOk result (λ _. spans.new.items ≡ spans.old.items ++ targets (sequence_of (map stmt_of list.now))) }
{
    for st in list {
        add_targets(st, spans)?;
    }
    Ok(())
}

// The same of the arms of a case and its default.
#[cycle(targets)]
fn add_targets_of_arms(
    arms: &[Arm],
    otherwise: &Stmt,
    spans: &mut Vec<Span>,
) -> Result<(), NoMemory>
    ensures { IfOk result (λ _. spans.new.items ≡ spans.old.items ++ arm_targets (arms_before (map arm_of arms.now) (stmt_of otherwise.now))) }
{
    for arm in arms {
        add_targets(&arm.body, spans)?;
    }
    add_targets(otherwise, spans)
}

/// The bits that the blocking assignments of a statement may write, in the order of the text. Want of memory is `NoMemory`.
pub fn targets_in(alloc: Global, st: &Stmt) -> Result<Vec<Span>, NoMemory>
    ensures { IfOk result (λ spans. spans.items ≡ targets (stmt_of st.now)) }
{
    let mut spans = Vec::new(alloc);
    add_targets(st, &mut spans)?;
    Ok(spans)
}
