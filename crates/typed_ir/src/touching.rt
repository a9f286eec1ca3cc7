// Which bits a node drives and which its text reads, as masks.
ghost use Rattle.std.specs.Prelude.{◌≡◌, ◌+◌, ◌<◌, ◌&&◌, ◌==◌, ℕ, IfOk, nat_le, nat_lt, map, []};
ghost use Rattle.typed_ir.specs.Valuations.{within, any_within};
ghost use Rattle.typed_ir.specs.Sized.{reads};
ghost use Rattle.typed_ir.specs.Stmts.{targets, arm_targets, span_of, index_reads, item_reads};
ghost use Rattle.typed_ir.specs.Nodes.{node_drives, lane_spans};
ghost use Rattle.typed_ir.specs.Forms.{sized};
ghost use Rattle.typed_ir.specs.Targets.{target_of, targets_of};
ghost use Rattle.typed_ir.specs.Statements.{item_of, stmt_of, arm_of, sequence_of, arms_before};
ghost use Rattle.typed_ir.specs.FlatNodes.{node_of};
ghost use Rattle.typed_ir.specs.Touches.{has_bit, Adds, all_reads, all_arm_reads, mentions};

use crate::arm::Arm;
use crate::form::Form;
use crate::item::Item;
use crate::lane::Lane;
use crate::node::Node;
use crate::signal_id::SignalId;
use crate::span::Span;
use crate::stmt::Stmt;
use crate::target::{Target, span_of};
use crate::touch::Touch;
use ls_text::NoMemory;
use std::alloc::Global;

/// So many bits from a lowest one on as a mask. Only those below 128 have a place in it.
pub fn run_mask(low: u8, width: u8) -> u128
    ensures { (i : ℕ) → i < 128 → has_bit result i ≡ (nat_le low i && nat_lt i (low + width)) }
{
    if low >= 128 || width == 0 {
        return 0;
    }
    let below = (1u128 << low) - 1;
    if width >= 128 - low {
        return u128::MAX - below;
    }
    (u128::MAX >> (128 - (low + width))) - below
}

// Notes the bits of a span.
fn note_span(span: Span, touches: &mut Vec<Touch>) -> Result<(), NoMemory>
    ensures { IfOk result (λ _. Adds touches.old.items touches.new.items (within span)) }
{
    touches.push(Touch {
        signal: span.signal,
        mask: run_mask(span.low, span.width),
    })?;
    Ok(())
}

// Notes all bits of a signal.
fn note_signal(signal: SignalId, touches: &mut Vec<Touch>) -> Result<(), NoMemory>
    ensures { IfOk result (λ _. Adds touches.old.items touches.new.items (λ s i. s == signal)) }
{
    touches.push(Touch {
        signal,
        mask: u128::MAX,
    })?;
    Ok(())
}

// Notes the bits that the text of an expression reads.
fn note_form(form: &Form, touches: &mut Vec<Touch>) -> Result<(), NoMemory>
    ensures { IfOk result (λ _. Adds touches.old.items touches.new.items (reads (sized form.now))) }
{
    match form {
        Form::Constant(_) => Ok(()),
        Form::Name { signal, .. } => note_signal(*signal, touches),
        Form::Part(span) => note_span(*span, touches),
        Form::Pick { signal, index, .. } => {
            note_signal(*signal, touches)?;
            note_form(index, touches)
        }
        Form::Unary { operand: a, .. }
        | Form::Repeat { part: a, .. }
        | Form::Resized { operand: a, .. } => note_form(a, touches),
        Form::Binary {
            left: a,
            right: b,
            ..
        }
        | Form::Concat {
            high: a,
            low: b,
            ..
        } => {
            note_form(a, touches)?;
            note_form(b, touches)
        }
        Form::Choice {
            condition,
            consequent,
            alternative,
        } => {
            note_form(condition, touches)?;
            note_form(consequent, touches)?;
            note_form(alternative, touches)
        }
    }
}

// Notes the bits that the indices left of an assignment read.
fn note_indices(parts: &[Target], touches: &mut Vec<Touch>) -> Result<(), NoMemory>
    ensures { IfOk result (λ _. Adds touches.old.items touches.new.items (index_reads (targets_of parts.now))) }
{
    for part in parts {
        match part {
            Target::Fixed(_) => {}
            Target::Moving { index, .. } => note_form(&index.form, touches)?,
        }
    }
    Ok(())
}

// Notes the bits that the items of an arm read.
fn note_items(items: &[Item], touches: &mut Vec<Touch>) -> Result<(), NoMemory>
    ensures { IfOk result (λ _. Adds touches.old.items touches.new.items (item_reads (map item_of items.now))) }
{
    for item in items {
        note_form(&item.item.form, touches)?;
    }
    Ok(())
}

// Notes the bits that are read anywhere in a statement.
#[cycle(reads)]
fn note_reads_of(st: &Stmt, touches: &mut Vec<Touch>) -> Result<(), NoMemory>
    ensures { IfOk result (λ _. Adds touches.old.items touches.new.items (all_reads (stmt_of st.now))) }
{
    match st {
        Stmt::Skip => Ok(()),
        Stmt::Assign { targets, value } | Stmt::Later { targets, value } => {
            note_form(&value.form, touches)?;
            note_indices(targets, touches)
        }
        Stmt::Sequence(list) => note_reads_of_all(list, touches),
        Stmt::If {
            condition,
            consequent,
            alternative,
        } => {
            note_form(&condition.form, touches)?;
            note_reads_of(consequent, touches)?;
            note_reads_of(alternative, touches)
        }
        Stmt::Case {
            subject,
            arms,
            otherwise,
        } => {
            note_form(&subject.form, touches)?;
            note_reads_of_arms(arms, otherwise, touches)
        }
    }
}

// The same of statements one after another.
#[cycle(reads)]
fn note_reads_of_all(list: &[Stmt], touches: &mut Vec<Touch>) -> Result<(), NoMemory>
    ensures { IfOk result (λ _. Adds touches.old.items touches.new.items (all_reads (sequence_of (map stmt_of list.now)))) }
{
    for st in list {
        note_reads_of(st, touches)?;
    }
    Ok(())
}

// The same of the arms of a case and its default.
#[cycle(reads)]
fn note_reads_of_arms(
    arms: &[Arm],
    otherwise: &Stmt,
    touches: &mut Vec<Touch>,
) -> Result<(), NoMemory>
    ensures { IfOk result (λ _. Adds touches.old.items touches.new.items (all_arm_reads (arms_before (map arm_of arms.now) (stmt_of otherwise.now)))) }
{
    for arm in arms {
        note_items(&arm.items, touches)?;
        note_reads_of(&arm.body, touches)?;
    }
    note_reads_of(otherwise, touches)
}

// Notes the bits of spans.
fn note_spans(spans: &[Span], touches: &mut Vec<Touch>) -> Result<(), NoMemory>
    ensures { IfOk result (λ _. Adds touches.old.items touches.new.items (any_within spans.now)) }
{
    for span in spans {
        note_span(*span, touches)?;
    }
    Ok(())
}

// Notes the bits of a target's lanes.
fn note_lanes(lanes: &[Lane], touches: &mut Vec<Touch>) -> Result<(), NoMemory>
    ensures { IfOk result (λ _. Adds touches.old.items touches.new.items (any_within (lane_spans lanes.now))) }
{
    for lane in lanes {
        note_span(lane.span, touches)?;
    }
    Ok(())
}

// Notes the bits that an assignment to these parts may write.
fn note_parts(parts: &[Target], touches: &mut Vec<Touch>) -> Result<(), NoMemory>
    ensures { IfOk result (λ _. Adds touches.old.items touches.new.items (any_within (map span_of (targets_of parts.now)))) }
{
    for part in parts {
        note_span(span_of(part), touches)?;
    }
    Ok(())
}

// Notes the bits that the blocking assignments of a statement may write.
#[cycle(targets)]
fn note_targets(st: &Stmt, touches: &mut Vec<Touch>) -> Result<(), NoMemory>
    ensures { IfOk result (λ _. Adds touches.old.items touches.new.items (any_within (targets (stmt_of st.now)))) }
{
    match st {
        Stmt::Skip | Stmt::Later { .. } => Ok(()),
        Stmt::Assign { targets, .. } => note_parts(targets, touches),
        Stmt::Sequence(list) => note_targets_of_all(list, touches),
        Stmt::If {
            consequent,
            alternative,
            ..
        } => {
            note_targets(consequent, touches)?;
            note_targets(alternative, touches)
        }
        Stmt::Case {
            arms,
            otherwise,
            ..
        } => note_targets_of_arms(arms, otherwise, touches),
    }
}

// The same of statements one after another.
#[cycle(targets)]
fn note_targets_of_all(list: &[Stmt], touches: &mut Vec<Touch>) -> Result<(), NoMemory>
    ensures { IfOk result (λ _. Adds touches.old.items touches.new.items (any_within (targets (sequence_of (map stmt_of list.now))))) }
{
    for st in list {
        note_targets(st, touches)?;
    }
    Ok(())
}

// The same of the arms of a case and its default.
#[cycle(targets)]
fn note_targets_of_arms(
    arms: &[Arm],
    otherwise: &Stmt,
    touches: &mut Vec<Touch>,
) -> Result<(), NoMemory>
    ensures { IfOk result (λ _. Adds touches.old.items touches.new.items (any_within (arm_targets (arms_before (map arm_of arms.now) (stmt_of otherwise.now))))) }
{
    for arm in arms {
        note_targets(&arm.body, touches)?;
    }
    note_targets(otherwise, touches)
}

// Notes the bits that the text of a node reads.
fn note_reads(node: &Node, touches: &mut Vec<Touch>) -> Result<(), NoMemory>
    ensures { IfOk result (λ _. Adds touches.old.items touches.new.items (mentions (node_of node.now))) }
{
    match node {
        Node::Drive { value, .. } => note_form(&value.form, touches),
        Node::Block { body, .. } => note_reads_of(body, touches),
    }
}

// Notes the bits that a node drives.
#[tactic(auto, unfolding(crate::specs::Nodes::node_drives))]
fn note_drives(node: &Node, touches: &mut Vec<Touch>) -> Result<(), NoMemory>
    ensures { IfOk result (λ _. Adds touches.old.items touches.new.items (node_drives (node_of node.now))) }
{
    match node {
        Node::Drive { lanes, .. } => note_lanes(lanes, touches),
        Node::Block { body, .. } => note_targets(body, touches),
    }
}

/// The bits that the text of a node reads: a select whose bits are known its bits, a name or a select at run time the whole
/// signal. A block's reads of what it wrote before are among them.
pub fn reads_of(alloc: Global, node: &Node) -> Result<Vec<Touch>, NoMemory>
    ensures { IfOk result (λ touches. Adds [] touches.items (mentions (node_of node.now))) }
{
    let mut touches = Vec::new(alloc);
    note_reads(node, &mut touches)?;
    Ok(touches)
}

/// The bits that a node drives.
pub fn drives_of(alloc: Global, node: &Node) -> Result<Vec<Touch>, NoMemory>
    ensures { IfOk result (λ touches. Adds [] touches.items (node_drives (node_of node.now))) }
{
    let mut touches = Vec::new(alloc);
    note_drives(node, &mut touches)?;
    Ok(touches)
}

/// The bits of spans.
pub fn touches_of(alloc: Global, spans: &[Span]) -> Result<Vec<Touch>, NoMemory>
    ensures { IfOk result (λ touches. Adds [] touches.items (any_within spans.now)) }
{
    let mut touches = Vec::new(alloc);
    note_spans(spans, &mut touches)?;
    Ok(touches)
}
