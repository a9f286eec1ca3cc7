// What nodes and registers are called.
use ls_text::{Names, NoMemory, push_decimal};
use typed_ir::{
    Arm, Flat, InstanceId, InstanceName, Lane, Node, ShownTarget, SignalId, Span, Stmt, Target,
    TargetForm, span_of,
};

// The path of an instance, each of its names with a dot behind it.
fn push_path(
    out: &mut Vec<u8>,
    names: &Names,
    rows: &[InstanceName],
    instance: Option<InstanceId>,
) -> Result<(), NoMemory> {
    let Some(number) = instance else {
        return Ok(());
    };
    let at = number.index();
    if at >= rows.len() {
        return Ok(());
    }
    let (earlier, _) = rows.split_at(at);
    let this = rows[at];
    push_path(out, names, earlier, this.parent)?;
    out.extend_from_slice(names.text(this.name))?;
    out.push(b'.')?;
    Ok(())
}

/// The path of a signal.
pub fn push_signal(
    out: &mut Vec<u8>,
    names: &Names,
    design: &Flat,
    signal: SignalId,
) -> Result<(), NoMemory> {
    if let Some(found) = design.signals.get(signal.index()) {
        push_path(out, names, &design.instances.rows, Some(found.instance))?;
        out.extend_from_slice(names.text(found.name))?;
    }
    Ok(())
}

fn first_lane(lanes: &[Lane]) -> Option<Span> {
    match lanes.split_first() {
        Some((lane, _)) => Some(lane.span),
        None => None,
    }
}

// The target of this number among the parts of one assignment; past them, how many are still to be passed.
fn part_at(parts: &[Target], left: &mut usize) -> Option<Span> {
    match parts.get(*left) {
        Some(part) => Some(span_of(part)),
        None => {
            *left = left.saturating_sub(parts.len());
            None
        }
    }
}

// The target of this number in a statement, in which a case's default comes last.
#[cycle(target)]
fn target_at(statement: &Stmt, left: &mut usize) -> Option<Span> {
    match statement {
        Stmt::Skip | Stmt::Later { .. } => None,
        Stmt::Assign { targets, .. } => part_at(targets, left),
        Stmt::Sequence(list) => target_in_all(list, left),
        Stmt::If {
            consequent,
            alternative,
            ..
        } => match target_at(consequent, left) {
            Some(span) => Some(span),
            None => target_at(alternative, left),
        },
        Stmt::Case {
            arms,
            otherwise,
            ..
        } => match target_in_arms(arms, left) {
            Some(span) => Some(span),
            None => target_at(otherwise, left),
        },
    }
}

#[cycle(target)]
fn target_in_all(list: &[Stmt], left: &mut usize) -> Option<Span> {
    for statement in list {
        if let Some(span) = target_at(statement, left) {
            return Some(span);
        }
    }
    None
}

#[cycle(target)]
fn target_in_arms(arms: &[Arm], left: &mut usize) -> Option<Span> {
    for arm in arms {
        if let Some(span) = target_at(&arm.body, left) {
            return Some(span);
        }
    }
    None
}

// The target by which a block is named.
fn shown_in(shown: ShownTarget, body: &Stmt) -> Option<Span> {
    let mut left = shown.number;
    target_at(body, &mut left)
}

// Bits of a signal, counted from the lower bound of its range.
fn push_bits(out: &mut Vec<u8>, form: TargetForm, low: u64, width: u64) -> Result<(), NoMemory> {
    match form {
        TargetForm::Name => return Ok(()),
        TargetForm::Bit => out.push(b'[')?,
        TargetForm::Range => {
            out.push(b'[')?;
            push_decimal(out, low.saturating_add(width).saturating_sub(1))?;
            out.push(b':')?;
        }
    }
    push_decimal(out, low)?;
    out.push(b']')?;
    Ok(())
}

/// A node by its first target: `top.u.w`, `top.u.w[3]`, `top.u.w[7:0]`; nothing where it has none.
pub fn push_node(
    out: &mut Vec<u8>,
    names: &Names,
    design: &Flat,
    node: &Node,
) -> Result<(), NoMemory> {
    let (form, target) = match node {
        Node::Drive { form, lanes, .. } => (*form, first_lane(lanes)),
        Node::Block { shown, body } => (shown.form, shown_in(*shown, body)),
    };
    let Some(span) = target else {
        return Ok(());
    };
    push_signal(out, names, design, span.signal)?;
    if let Some(found) = design.signals.get(span.signal.index()) {
        let low = u64::from(found.lsb).saturating_add(u64::from(span.low));
        push_bits(out, form, low, u64::from(span.width))?;
    }
    Ok(())
}
