// Copies by other numbers of signals.
ghost use Rattle.std.specs.Prelude.{◌≡◌, ◌+◌, IfOk, map};
ghost use Rattle.typed_ir.specs.Sized.{Name, Pick, Unary, Binary, Choice, Concat, Repeat, Resized};
ghost use Rattle.typed_ir.specs.Stmts.{SizedStmt, If, Case};
ghost use Rattle.typed_ir.specs.Shifts.{shifted_span, shifted, shifted_lane, shifted_reach, shifted_target, shifted_item, shifted_stmt, shifted_arms, shifted_node};
ghost use Rattle.typed_ir.specs.Forms.{sized};
ghost use Rattle.typed_ir.specs.Targets.{target_of, targets_of};
ghost use Rattle.typed_ir.specs.Statements.{item_of, stmt_of, arm_of, arms_before};
ghost use Rattle.typed_ir.specs.FlatNodes.{node_of};

use crate::arm::Arm;
use crate::binary_operator::BinaryOperator;
use crate::form::Form;
use crate::item::Item;
use crate::lane::Lane;
use crate::node::Node;
use crate::reach::Reach;
use crate::signal_id::SignalId;
use crate::span::Span;
use crate::stmt::Stmt;
use crate::target::Target;
use crate::typed::Typed;
use crate::unary_operator::UnaryOperator;
use ls_text::NoMemory;
use std::alloc::Global;

// The number of a signal, shifted. Past the largest number there is no memory.
fn behind(first: u32, signal: SignalId) -> Result<SignalId, NoMemory>
    ensures { IfOk result (λ n. n ≡ first + signal) }
{
    let number = signal.number();
    match first.checked_add(number) {
        Some(number) => Ok(SignalId(number)),
        None => Err(NoMemory),
    }
}

fn shifted_span(span: Span, first: u32) -> Result<Span, NoMemory>
    ensures { IfOk result (λ p. p ≡ shifted_span first span) }
{
    Ok(Span {
        signal: behind(first, span.signal)?,
        low: span.low,
        width: span.width,
    })
}

fn shifted_lane(lane: Lane, first: u32) -> Result<Lane, NoMemory>
    ensures { IfOk result (λ l. l ≡ shifted_lane first lane) }
{
    Ok(Lane {
        shift: lane.shift,
        span: shifted_span(lane.span, first)?,
    })
}

fn shifted_reach(reach: Reach, first: u32) -> Result<Reach, NoMemory>
    ensures { IfOk result (λ r. r ≡ shifted_reach first reach) }
{
    Ok(Reach {
        shift: reach.shift,
        signal: behind(first, reach.signal)?,
        total: reach.total,
        width: reach.width,
        below: reach.below,
        signed: reach.signed,
    })
}

/// The expression with all signals shifted.
#[cycle(forms)]
pub fn shifted_form(alloc: Global, form: &Form, first: u32) -> Result<Form, NoMemory>
    ensures { IfOk result (λ e. sized e ≡ shifted first (sized form.now)) }
{
    match form {
        Form::Constant(bits) => Ok(Form::Constant(*bits)),
        Form::Name { signal, width } => shifted_name(*signal, *width, first),
        Form::Part(span) => Ok(Form::Part(shifted_span(*span, first)?)),
        Form::Pick {
            signal,
            width,
            below,
            signed,
            index,
        } => shifted_pick(alloc, *signal, *width, *below, *signed, index, first),
        Form::Unary { operator, operand } => shifted_unary(alloc, *operator, operand, first),
        Form::Binary {
            operator,
            left,
            right,
        } => shifted_binary(alloc, *operator, left, right, first),
        Form::Choice {
            condition,
            consequent,
            alternative,
        } => shifted_choice(alloc, condition, consequent, alternative, first),
        Form::Concat { width, high, low } => shifted_concat(alloc, *width, high, low, first),
        Form::Repeat { width, count, part } => shifted_repeat(alloc, *width, *count, part, first),
        Form::Resized {
            operand,
            width,
            signed,
        } => shifted_resized(alloc, operand, *width, *signed, first),
    }
}

fn shifted_name(signal: SignalId, width: u8, first: u32) -> Result<Form, NoMemory>
    ensures { IfOk result (λ e. sized e ≡ shifted first (Name signal width)) }
{
    let signal = behind(first, signal)?;
    Ok(Form::Name { signal, width })
}

#[cycle(forms)]
fn shifted_pick(
    alloc: Global,
    signal: SignalId,
    width: u8,
    below: u32,
    signed: bool,
    index: &Form,
    first: u32,
) -> Result<Form, NoMemory>
    ensures { IfOk result (λ e. sized e ≡ shifted first (Pick signal width below signed (sized index.now))) }
{
    let index = Box::new(alloc, shifted_form(alloc, index, first)?)?;
    let signal = behind(first, signal)?;
    Ok(Form::Pick {
        signal,
        width,
        below,
        signed,
        index,
    })
}

#[cycle(forms)]
fn shifted_unary(
    alloc: Global,
    operator: UnaryOperator,
    operand: &Form,
    first: u32,
) -> Result<Form, NoMemory>
    ensures { IfOk result (λ e. sized e ≡ shifted first (Unary operator (sized operand.now))) }
{
    let operand = Box::new(alloc, shifted_form(alloc, operand, first)?)?;
    Ok(Form::Unary { operator, operand })
}

#[cycle(forms)]
fn shifted_binary(
    alloc: Global,
    operator: BinaryOperator,
    left: &Form,
    right: &Form,
    first: u32,
) -> Result<Form, NoMemory>
    ensures { IfOk result (λ e. sized e ≡ shifted first (Binary operator (sized left.now) (sized right.now))) }
{
    let left = Box::new(alloc, shifted_form(alloc, left, first)?)?;
    let right = Box::new(alloc, shifted_form(alloc, right, first)?)?;
    Ok(Form::Binary {
        operator,
        left,
        right,
    })
}

#[cycle(forms)]
fn shifted_choice(
    alloc: Global,
    condition: &Form,
    consequent: &Form,
    alternative: &Form,
    first: u32,
) -> Result<Form, NoMemory>
    ensures { IfOk result (λ e. sized e ≡ shifted first (Choice (sized condition.now) (sized consequent.now) (sized alternative.now))) }
{
    let condition = Box::new(alloc, shifted_form(alloc, condition, first)?)?;
    let consequent = Box::new(alloc, shifted_form(alloc, consequent, first)?)?;
    let alternative = Box::new(alloc, shifted_form(alloc, alternative, first)?)?;
    Ok(Form::Choice {
        condition,
        consequent,
        alternative,
    })
}

#[cycle(forms)]
fn shifted_concat(
    alloc: Global,
    width: u8,
    high: &Form,
    low: &Form,
    first: u32,
) -> Result<Form, NoMemory>
    ensures { IfOk result (λ e. sized e ≡ shifted first (Concat width (sized high.now) (sized low.now))) }
{
    let high = Box::new(alloc, shifted_form(alloc, high, first)?)?;
    let low = Box::new(alloc, shifted_form(alloc, low, first)?)?;
    Ok(Form::Concat { width, high, low })
}

#[cycle(forms)]
fn shifted_repeat(
    alloc: Global,
    width: u8,
    count: u8,
    part: &Form,
    first: u32,
) -> Result<Form, NoMemory>
    ensures { IfOk result (λ e. sized e ≡ shifted first (Repeat width count (sized part.now))) }
{
    let part = Box::new(alloc, shifted_form(alloc, part, first)?)?;
    Ok(Form::Repeat { width, count, part })
}

#[cycle(forms)]
fn shifted_resized(
    alloc: Global,
    operand: &Form,
    width: u8,
    signed: bool,
    first: u32,
) -> Result<Form, NoMemory>
    ensures { IfOk result (λ e. sized e ≡ shifted first (Resized (sized operand.now) width signed)) }
{
    let operand = Box::new(alloc, shifted_form(alloc, operand, first)?)?;
    Ok(Form::Resized {
        operand,
        width,
        signed,
    })
}

/// The same with its width.
#[tactic(auto, using(crate::proofs::Shifted::agrees_there, crate::proofs::Shifted::width_shifted))]
pub fn shifted_typed(alloc: Global, e: &Typed, first: u32) -> Result<Typed, NoMemory>
    ensures { IfOk result (λ x. sized x.form ≡ shifted first (sized e.now.form)) }
{
    let form = shifted_form(alloc, &e.form, first)?;
    Ok(Typed {
        form,
        width: e.width,
    })
}

fn shifted_target(alloc: Global, part: &Target, first: u32) -> Result<Target, NoMemory>
    ensures { IfOk result (λ t. target_of t ≡ shifted_target first (target_of part.now)) }
{
    match part {
        Target::Fixed(lane) => Ok(Target::Fixed(shifted_lane(*lane, first)?)),
        Target::Moving { reach, index } => {
            let reach = shifted_reach(*reach, first)?;
            let index = shifted_typed(alloc, index, first)?;
            Ok(Target::Moving { reach, index })
        }
    }
}

fn shifted_targets(alloc: Global, parts: &[Target], first: u32) -> Result<Vec<Target>, NoMemory>
    ensures { IfOk result (λ ts. targets_of ts.items ≡ map (shifted_target first) (targets_of parts.now)) }
{
    let mut copies = Vec::new(alloc);
    for part in parts {
        let target = shifted_target(alloc, part, first)?;
        copies.push(target)?;
    }
    Ok(copies)
}

fn shifted_item(alloc: Global, x: &Item, first: u32) -> Result<Item, NoMemory>
    ensures { IfOk result (λ y. item_of y ≡ shifted_item first (item_of x.now)) }
{
    let item = shifted_typed(alloc, &x.item, first)?;
    Ok(Item {
        ignored: x.ignored,
        item,
    })
}

fn shifted_items(alloc: Global, items: &[Item], first: u32) -> Result<Vec<Item>, NoMemory>
    ensures { IfOk result (λ ys. map item_of ys.items ≡ map (shifted_item first) (map item_of items.now)) }
{
    let mut copies = Vec::new(alloc);
    for x in items {
        let item = shifted_item(alloc, x, first)?;
        copies.push(item)?;
    }
    Ok(copies)
}

/// The statement with all signals shifted.
#[cycle(shifting)]
pub fn shifted_stmt(alloc: Global, st: &Stmt, first: u32) -> Result<Stmt, NoMemory>
    ensures { IfOk result (λ to. stmt_of to ≡ shifted_stmt first (stmt_of st.now)) }
{
    match st {
        Stmt::Skip => Ok(Stmt::Skip),
        Stmt::Assign { targets, value } => {
            let targets = shifted_targets(alloc, targets, first)?;
            let value = shifted_typed(alloc, value, first)?;
            Ok(Stmt::Assign { targets, value })
        }
        Stmt::Later { targets, value } => {
            let targets = shifted_targets(alloc, targets, first)?;
            let value = shifted_typed(alloc, value, first)?;
            Ok(Stmt::Later { targets, value })
        }
        Stmt::Sequence(list) => {
            let copies = shifted_stmts(alloc, list, first)?;
            Ok(Stmt::Sequence(copies))
        }
        Stmt::If {
            condition,
            consequent,
            alternative,
        } => shifted_if(alloc, condition, consequent, alternative, first),
        Stmt::Case {
            subject,
            arms,
            otherwise,
        } => shifted_case(alloc, subject, arms, otherwise, first),
    }
}

#[cycle(shifting)]
fn shifted_if(
    alloc: Global,
    condition: &Typed,
    consequent: &Stmt,
    alternative: &Stmt,
    first: u32,
) -> Result<Stmt, NoMemory>
    ensures { IfOk result (λ to. stmt_of to
        ≡ shifted_stmt first (If (sized condition.now.form) (stmt_of consequent.now) (stmt_of alternative.now))) }
{
    let condition = shifted_typed(alloc, condition, first)?;
    let consequent = Box::new(alloc, shifted_stmt(alloc, consequent, first)?)?;
    let alternative = Box::new(alloc, shifted_stmt(alloc, alternative, first)?)?;
    Ok(Stmt::If {
        condition,
        consequent,
        alternative,
    })
}

#[cycle(shifting)]
fn shifted_case(
    alloc: Global,
    subject: &Typed,
    arms: &[Arm],
    otherwise: &Stmt,
    first: u32,
) -> Result<Stmt, NoMemory>
    ensures { IfOk result (λ to. stmt_of to
        ≡ shifted_stmt first (Case (sized subject.now.form) (arms_before (map arm_of arms.now) (stmt_of otherwise.now)))) }
{
    let subject = shifted_typed(alloc, subject, first)?;
    let arms = shifted_arms(alloc, arms, first)?;
    let otherwise = Box::new(alloc, shifted_stmt(alloc, otherwise, first)?)?;
    Ok(Stmt::Case {
        subject,
        arms,
        otherwise,
    })
}

#[cycle(shifting)]
fn shifted_stmts(alloc: Global, list: &[Stmt], first: u32) -> Result<Vec<Stmt>, NoMemory>
    ensures { IfOk result (λ to. map stmt_of to.items ≡ map (shifted_stmt first) (map stmt_of list.now)) }
{
    let mut copies = Vec::new(alloc);
    for st in list {
        let to = shifted_stmt(alloc, st, first)?;
        copies.push(to)?;
    }
    Ok(copies)
}

#[cycle(shifting)]
fn shifted_arms(alloc: Global, arms: &[Arm], first: u32) -> Result<Vec<Arm>, NoMemory>
    ensures { IfOk result (λ to. (rest : SizedStmt)
        → arms_before (map arm_of to.items) (shifted_stmt first rest) ≡ shifted_arms first (arms_before (map arm_of arms.now) rest)) }
{
    let mut copies = Vec::new(alloc);
    for arm in arms {
        let items = shifted_items(alloc, &arm.items, first)?;
        let body = shifted_stmt(alloc, &arm.body, first)?;
        copies.push(Arm { items, body })?;
    }
    Ok(copies)
}

fn shifted_lanes(alloc: Global, lanes: &[Lane], first: u32) -> Result<Vec<Lane>, NoMemory>
    ensures { IfOk result (λ ls. ls.items ≡ map (shifted_lane first) lanes.now) }
{
    let mut copies = Vec::new(alloc);
    for lane in lanes {
        let to = shifted_lane(*lane, first)?;
        copies.push(to)?;
    }
    Ok(copies)
}

/// The node with all signals shifted.
pub fn shifted_node(alloc: Global, node: &Node, first: u32) -> Result<Node, NoMemory>
    ensures { IfOk result (λ to. node_of to ≡ shifted_node first (node_of node.now)) }
{
    match node {
        Node::Drive { form, lanes, value } => {
            let lanes = shifted_lanes(alloc, lanes, first)?;
            let value = shifted_typed(alloc, value, first)?;
            Ok(Node::Drive {
                form: *form,
                lanes,
                value,
            })
        }
        Node::Block { shown, body } => {
            let body = shifted_stmt(alloc, body, first)?;
            Ok(Node::Block {
                shown: *shown,
                body,
            })
        }
    }
}
