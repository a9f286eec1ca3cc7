// The constants of statements and nodes, put into a pool.
ghost use Rattle.std.specs.Prelude.{◌≡◌, ◌++◌, ◌∷◌, [], map, OnOk};
ghost use Rattle.typed_ir.specs.FlatNodes.{node_of};
ghost use Rattle.typed_ir.specs.Forms.{sized};
ghost use Rattle.typed_ir.specs.Statements.{stmt_of, arm_of, item_of, sequence_of, arms_before};
ghost use Rattle.typed_ir.specs.Targets.{target_of, targets_of};
ghost use Rattle.design_steps.specs.Expressions.{constants_of};
ghost use Rattle.design_steps.specs.Statements.{part_constants, target_constants, item_constants, stmt_constants, arm_constants};
ghost use Rattle.design_steps.specs.Nodes.{as_statement};
ghost use Rattle.design_steps.specs.Pooled.{Holds, nodes_constants};

use crate::pooling::{pool_form, pool_index, pool_value};
use indexmap::IndexSet;
use ls_text::NoMemory;
use typed_ir::{Arm, Item, Node, Stmt, Target, Typed};

// The constants of a part left of an assignment.
#[tactic(auto, using(crate::proofs::Holding::holds_none))]
fn pool_target(target: &Target, pool: &mut IndexSet<u128>) -> Result<(), NoMemory>
    ensures { OnOk result (Holds pool.old.keys pool.new.keys (part_constants (target_of target.now))) }
{
    match target {
        Target::Fixed(_) => Ok(()),
        Target::Moving { reach, index } => pool_index(&index.form, reach.below, pool),
    }
}

// Those of all parts, the last one first.
#[tactic(auto, using(crate::proofs::Holding::holds_none))]
fn pool_targets(targets: &[Target], pool: &mut IndexSet<u128>) -> Result<(), NoMemory>
    ensures { OnOk result (Holds pool.old.keys pool.new.keys (target_constants (targets_of targets.now))) }
{
    let mut left = targets.len();
    'targets: while left > 0 {
        left -= 1;
        pool_target(&targets[left], pool)?;
    }
    Ok(())
}

// Those of an assignment.
fn pool_assignment(
    targets: &[Target],
    value: &Typed,
    pool: &mut IndexSet<u128>,
) -> Result<(), NoMemory>
    ensures { OnOk result (Holds pool.old.keys pool.new.keys (constants_of (sized value.now.form) ++ target_constants (targets_of targets.now))) }
{
    pool_form(&value.form, pool)?;
    pool_targets(targets, pool)
}

// Those of an item of a case, and its ignored bits.
fn pool_item(item: &Item, pool: &mut IndexSet<u128>) -> Result<(), NoMemory>
    ensures { OnOk result (Holds pool.old.keys pool.new.keys (constants_of (item_of item.now).item ++ (item_of item.now).ignored ∷ [])) }
{
    pool_form(&item.item.form, pool)?;
    pool_value(item.ignored, pool)
}

// Those of all items, the last one first.
#[tactic(auto, using(crate::proofs::Holding::holds_none))]
fn pool_items(items: &[Item], pool: &mut IndexSet<u128>) -> Result<(), NoMemory>
    ensures { OnOk result (Holds pool.old.keys pool.new.keys (item_constants (map item_of items.now))) }
{
    let mut left = items.len();
    'items: while left > 0 {
        left -= 1;
        pool_item(&items[left], pool)?;
    }
    Ok(())
}

/// Puts the constants of statements into the pool, the last one's first.
#[cycle(pool_nested)]
#[tactic(auto, using(crate::proofs::Holding::holds_none))]
pub fn pool_all(list: &[Stmt], pool: &mut IndexSet<u128>) -> Result<(), NoMemory>
    ensures { OnOk result (Holds pool.old.keys pool.new.keys (stmt_constants (sequence_of (map stmt_of list.now)))) }
{
    let mut left = list.len();
    'statements: while left > 0 {
        left -= 1;
        pool_statement(&list[left], pool)?;
    }
    Ok(())
}

// The constants of two statements.
#[cycle(pool_nested)]
fn pool_sides(a: &Stmt, b: &Stmt, pool: &mut IndexSet<u128>) -> Result<(), NoMemory>
    ensures { OnOk result (Holds pool.old.keys pool.new.keys (stmt_constants (stmt_of a.now) ++ stmt_constants (stmt_of b.now))) }
{
    pool_statement(a, pool)?;
    pool_statement(b, pool)
}

// Those of an arm of a case.
#[cycle(pool_nested)]
fn pool_arm(arm: &Arm, pool: &mut IndexSet<u128>) -> Result<(), NoMemory>
    ensures { OnOk result (Holds pool.old.keys pool.new.keys (item_constants (map item_of arm.now.items.items) ++ stmt_constants (stmt_of arm.now.body))) }
{
    pool_items(&arm.items, pool)?;
    pool_statement(&arm.body, pool)
}

// Those of the arms of a case and its default, the last one first.
#[cycle(pool_nested)]
#[tactic(auto, using(crate::proofs::Holding::holds_none))]
fn pool_arms(arms: &[Arm], otherwise: &Stmt, pool: &mut IndexSet<u128>) -> Result<(), NoMemory>
    ensures { OnOk result (Holds pool.old.keys pool.new.keys (arm_constants (arms_before (map arm_of arms.now) (stmt_of otherwise.now)))) }
{
    pool_statement(otherwise, pool)?;
    let mut left = arms.len();
    'arms: while left > 0 {
        left -= 1;
        pool_arm(&arms[left], pool)?;
    }
    Ok(())
}

// Those of a condition and its two sides.
#[cycle(pool_nested)]
fn pool_if(test: &Typed, a: &Stmt, b: &Stmt, pool: &mut IndexSet<u128>) -> Result<(), NoMemory>
    ensures { OnOk result (Holds pool.old.keys pool.new.keys
        (constants_of (sized test.now.form) ++ (stmt_constants (stmt_of a.now) ++ stmt_constants (stmt_of b.now)))) }
{
    pool_form(&test.form, pool)?;
    pool_sides(a, b, pool)
}

// Those of a case.
#[cycle(pool_nested)]
fn pool_case(
    subject: &Typed,
    arms: &[Arm],
    otherwise: &Stmt,
    pool: &mut IndexSet<u128>,
) -> Result<(), NoMemory>
    ensures { OnOk result (Holds pool.old.keys pool.new.keys
        (constants_of (sized subject.now.form) ++ arm_constants (arms_before (map arm_of arms.now) (stmt_of otherwise.now)))) }
{
    pool_form(&subject.form, pool)?;
    pool_arms(arms, otherwise, pool)
}

/// Puts the constants of a statement into the pool, each once. Want of memory is `NoMemory`.
#[cycle(pool_nested)]
#[tactic(auto, using(crate::proofs::Holding::holds_none))]
pub fn pool_statement(st: &Stmt, pool: &mut IndexSet<u128>) -> Result<(), NoMemory>
    ensures { OnOk result (Holds pool.old.keys pool.new.keys (stmt_constants (stmt_of st.now))) }
{
    match st {
        Stmt::Skip => Ok(()),
        Stmt::Assign { targets, value } => pool_assignment(targets, value, pool),
        Stmt::Later { targets, value } => pool_assignment(targets, value, pool),
        Stmt::Sequence(list) => pool_all(list, pool),
        Stmt::If {
            condition,
            consequent,
            alternative,
        } => pool_if(condition, consequent, alternative, pool),
        Stmt::Case {
            subject,
            arms,
            otherwise,
        } => pool_case(subject, arms, otherwise, pool),
    }
}

// The constants of a node.
#[tactic(auto, using(crate::proofs::Holding::holds_drive))]
fn pool_node(node: &Node, pool: &mut IndexSet<u128>) -> Result<(), NoMemory>
    ensures { OnOk result (Holds pool.old.keys pool.new.keys (stmt_constants (as_statement (node_of node.now)))) }
{
    match node {
        Node::Drive { value, .. } => pool_form(&value.form, pool),
        Node::Block { body, .. } => pool_statement(body, pool),
    }
}

/// Puts the constants of nodes into the pool, the last one's first.
#[tactic(auto, using(crate::proofs::Holding::holds_none))]
pub fn pool_nodes(nodes: &[Node], pool: &mut IndexSet<u128>) -> Result<(), NoMemory>
    ensures { OnOk result (Holds pool.old.keys pool.new.keys (nodes_constants (map node_of nodes.now))) }
{
    let mut left = nodes.len();
    'nodes: while left > 0 {
        left -= 1;
        pool_node(&nodes[left], pool)?;
    }
    Ok(())
}
