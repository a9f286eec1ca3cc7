// The items of a module to the parts of its unit.
ghost use Rattle.std.specs.Prelude.{◌≡◌, ◌++◌, map, IfOk, OnOk};
ghost use Rattle.typed_ir.specs.Statements.{stmt_of};
ghost use Rattle.typed_ir.specs.Items.{body_of, item_of, items_of, node_in, block_in, nodes_in, blocks_in, unit_of};
ghost use Rattle.typed_ir.specs.Units.{sized_unit, unit_node_of};

use ls_text::NoMemory;
use std::alloc::Global;
use typed_ir::{ItemBody, Stmt, TypedItem, TypedItems, UnitNode, UnitParts};

// Adds a node or a clocked block to those before it; an initial value is neither.
fn add_body(
    body: ItemBody,
    nodes: &mut Vec<UnitNode>,
    clocked: &mut Vec<Stmt>,
) -> Result<(), NoMemory>
    ensures nodes { OnOk result (map unit_node_of nodes.new.items ≡ map unit_node_of nodes.old.items ++ node_in (body_of body)) }
    ensures clocked { OnOk result (map stmt_of clocked.new.items ≡ map stmt_of clocked.old.items ++ block_in (body_of body)) }
{
    match body {
        ItemBody::Node(node) => Ok(nodes.push(node)?),
        ItemBody::Clocked(block) => Ok(clocked.push(block)?),
        ItemBody::Initial(_) => Ok(()),
    }
}

fn add_items(
    items: Vec<TypedItem>,
    nodes: &mut Vec<UnitNode>,
    clocked: &mut Vec<Stmt>,
) -> Result<(), NoMemory>
    ensures nodes { OnOk result (map unit_node_of nodes.new.items ≡ map unit_node_of nodes.old.items ++ nodes_in (map item_of items.items)) }
    ensures clocked { OnOk result (map stmt_of clocked.new.items ≡ map stmt_of clocked.old.items ++ blocks_in (map item_of items.items)) }
{
    for item in items {
        add_body(item.body, nodes, clocked)?;
    }
    Ok(())
}

/// The parts of a unit with these items: its nodes and its clocked blocks, each in their order; or want of memory.
pub fn parts_of(alloc: Global, items: TypedItems) -> Result<UnitParts, NoMemory>
    ensures unit { IfOk result (λ parts. sized_unit parts ≡ unit_of (items_of items)) }
    ensures shapes { IfOk result (λ parts. parts.shapes ≡ items.shapes) }
{
    let mut nodes = Vec::new(alloc);
    let mut clocked = Vec::new(alloc);
    add_items(items.items, &mut nodes, &mut clocked)?;
    Ok(UnitParts {
        signals: items.signals,
        registers: items.registers,
        inputs: items.inputs,
        nodes,
        clocked,
        shapes: items.shapes,
    })
}
