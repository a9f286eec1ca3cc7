// Whether the widths within nodes and blocks agree with those of the signals.
ghost use Rattle.std.specs.Prelude.{◌≡◌, map};
ghost use Rattle.typed_ir.specs.Sized.{is_width};
ghost use Rattle.typed_ir.specs.Stmts.{is_sized, is_target, are_targets, are_items, is_legal, are_legal_arms, is_clocked, are_clocked_arms};
ghost use Rattle.typed_ir.specs.Forms.{sized};
ghost use Rattle.typed_ir.specs.Targets.{target_of, targets_of};
ghost use Rattle.typed_ir.specs.Statements.{item_of, stmt_of, arm_of, sequence_of, arms_before};
ghost use Rattle.typed_ir.specs.Nodes.{are_lanes, is_legal_node, are_legal};
ghost use Rattle.typed_ir.specs.FlatNodes.{node_of};
ghost use Rattle.typed_ir.specs.Flats.{are_clocked, are_below};
ghost use Rattle.typed_ir.specs.Views.{widths};

use bits::Bits;
use typed_ir::{Arm, Item, Lane, Node, SignalId, Stmt, Target, Typed, is_signal, is_span};

fn is_width(width: u8) -> bool
    ensures { result ≡ is_width width }
{
    1 <= width && width <= 128
}

fn is_sized(e: &Typed, env: &[Bits]) -> bool
    ensures { result ≡ is_sized (sized e.now.form) (widths env.now) }
{
    e.form.fits(env)
}

fn is_target(part: &Target, env: &[Bits]) -> bool
    ensures { result ≡ is_target (target_of part.now) (widths env.now) }
{
    match part {
        Target::Fixed(lane) => lane.shift < 128 && is_span(lane.span, env),
        Target::Moving { reach, index } => {
            (reach.shift < 128 && (is_width(reach.width) && is_width(reach.total)))
                && (is_signal(reach.signal, reach.total, env) && is_sized(index, env))
        }
    }
}

fn are_targets(parts: &[Target], env: &[Bits]) -> bool
    ensures { result ≡ are_targets (targets_of parts.now) (widths env.now) }
{
    for part in parts {
        if !is_target(part, env) {
            return false;
        }
    }
    true
}

fn are_items(items: &[Item], env: &[Bits]) -> bool
    ensures { result ≡ are_items (map item_of items.now) (widths env.now) }
{
    for item in items {
        if !is_sized(&item.item, env) {
            return false;
        }
    }
    true
}

/// Whether a statement's widths agree with those of the signals.
#[cycle(legal)]
pub fn is_legal(st: &Stmt, env: &[Bits]) -> bool
    ensures { result ≡ is_legal (stmt_of st.now) (widths env.now) }
{
    match st {
        Stmt::Skip => true,
        Stmt::Assign { targets, value } | Stmt::Later { targets, value } => {
            are_targets(targets, env) && is_sized(value, env)
        }
        Stmt::Sequence(list) => all_legal(list, env),
        Stmt::If {
            condition,
            consequent,
            alternative,
        } => {
            is_sized(condition, env) && (is_legal(consequent, env) && is_legal(alternative, env))
        }
        Stmt::Case {
            subject,
            arms,
            otherwise,
        } => is_sized(subject, env) && arms_legal(arms, otherwise, env),
    }
}

// The same of statements one after another.
#[cycle(legal)]
fn all_legal(list: &[Stmt], env: &[Bits]) -> bool
    ensures { result ≡ is_legal (sequence_of (map stmt_of list.now)) (widths env.now) }
{
    for st in list {
        if !is_legal(st, env) {
            return false;
        }
    }
    true
}

// The same of the arms of a case and its default.
#[cycle(legal)]
fn arms_legal(arms: &[Arm], otherwise: &Stmt, env: &[Bits]) -> bool
    ensures { result ≡ are_legal_arms (arms_before (map arm_of arms.now) (stmt_of otherwise.now)) (widths env.now) }
{
    for arm in arms {
        if !(are_items(&arm.items, env) && is_legal(&arm.body, env)) {
            return false;
        }
    }
    is_legal(otherwise, env)
}

#[cycle(clocked)]
fn is_clocked(st: &Stmt) -> bool
    ensures { result ≡ is_clocked (stmt_of st.now) }
{
    match st {
        Stmt::Skip | Stmt::Later { .. } => true,
        Stmt::Assign { .. } => false,
        Stmt::Sequence(list) => all_clocked(list),
        Stmt::If {
            consequent,
            alternative,
            ..
        } => is_clocked(consequent) && is_clocked(alternative),
        Stmt::Case {
            arms,
            otherwise,
            ..
        } => arms_clocked(arms, otherwise),
    }
}

// The same of statements one after another.
#[cycle(clocked)]
fn all_clocked(list: &[Stmt]) -> bool
    ensures { result ≡ is_clocked (sequence_of (map stmt_of list.now)) }
{
    for st in list {
        if !is_clocked(st) {
            return false;
        }
    }
    true
}

// The same of the arms of a case and its default.
#[cycle(clocked)]
fn arms_clocked(arms: &[Arm], otherwise: &Stmt) -> bool
    ensures { result ≡ are_clocked_arms (arms_before (map arm_of arms.now) (stmt_of otherwise.now)) }
{
    for arm in arms {
        if !is_clocked(&arm.body) {
            return false;
        }
    }
    is_clocked(otherwise)
}

/// Whether the clocked blocks are of these widths and have nonblocking assignments alone.
pub fn are_clocked(blocks: &[Stmt], env: &[Bits]) -> bool
    ensures { result ≡ are_clocked blocks.now (widths env.now) }
{
    for block in blocks {
        if !(is_legal(block, env) && is_clocked(block)) {
            return false;
        }
    }
    true
}

fn are_lanes(lanes: &[Lane], env: &[Bits]) -> bool
    ensures { result ≡ are_lanes lanes.now (widths env.now) }
{
    for lane in lanes {
        if !(lane.shift < 128 && is_span(lane.span, env)) {
            return false;
        }
    }
    true
}

#[tactic(auto, unfolding(typed_ir::specs::Nodes::is_legal_node))]
fn is_legal_node(node: &Node, env: &[Bits]) -> bool
    ensures { result ≡ is_legal_node (node_of node.now) (widths env.now) }
{
    match node {
        Node::Drive { lanes, value, .. } => are_lanes(lanes, env) && is_sized(value, env),
        Node::Block { body, .. } => is_legal(body, env),
    }
}

/// Whether the nodes are of these widths.
pub fn are_legal(nodes: &[Node], env: &[Bits]) -> bool
    ensures { result ≡ are_legal (map node_of nodes.now) (widths env.now) }
{
    for node in nodes {
        if !is_legal_node(node, env) {
            return false;
        }
    }
    true
}

/// Whether all numbers are below a count.
pub fn are_below(signals: &[SignalId], count: usize) -> bool
    ensures { result ≡ are_below signals.now count }
{
    for signal in signals {
        if signal.index() >= count {
            return false;
        }
    }
    true
}
