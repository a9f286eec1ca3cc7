// Nodes laid out as steps, in an order.
ghost use Rattle.std.specs.Prelude.{◌≡◌, ◌<◌, ◌++◌, [], All, map, length, OnOk};
ghost use Rattle.typed_ir.specs.FlatNodes.{node_of};
ghost use Rattle.typed_ir.specs.Forms.{sized};
ghost use Rattle.design_steps.specs.Statements.{assign_code, stmt_code};
ghost use Rattle.design_steps.specs.Nodes.{parts_of, as_statement, nodes_code, in_order};
ghost use Rattle.design_steps.specs.Views.{plan_of};

use crate::drives::lay_drive;
use crate::fronting::prepend;
use crate::layout::Layout;
use crate::statements::lay_statement;
use ls_text::NoMemory;
use std::collections::VecDeque;
use typed_ir::{Lane, Node, NodeId, Typed};
use word_steps::Step;

// A value that drives lanes, in front of other steps.
fn lay_lanes_before(
    lanes: &[Lane],
    value: &Typed,
    layout: &Layout,
    mark: u32,
    first: &mut Vec<Step>,
    steps: &mut VecDeque<Step>,
) -> Result<(), NoMemory>
    requires { first.old.items ≡ [] }
    ensures none { OnOk result (first.new.items ≡ []) }
    ensures steps { OnOk result (steps.new.items
        ≡ assign_code (plan_of layout.now) (plan_of layout.now).slot (parts_of lanes.now) (sized value.now.form) mark ++ steps.old.items) }
{
    lay_drive(lanes, value, layout, mark, first)?;
    prepend(first, steps)
}

/// Lays a node out in front of other steps; `first` has none before and after. Want of memory, and a place or a number of steps above the
/// largest number, is `NoMemory`.
pub fn lay_node(
    node: &Node,
    layout: &Layout,
    mark: u32,
    first: &mut Vec<Step>,
    steps: &mut VecDeque<Step>,
) -> Result<(), NoMemory>
    requires { first.old.items ≡ [] }
    ensures none { OnOk result (first.new.items ≡ []) }
    ensures steps { OnOk result (steps.new.items ≡ stmt_code (plan_of layout.now) (as_statement (node_of node.now)) mark ++ steps.old.items) }
{
    match node {
        Node::Drive { lanes, value, .. } => {
            lay_lanes_before(lanes, value, layout, mark, first, steps)
        }
        Node::Block { body, .. } => lay_statement(body, layout, mark, first, steps),
    }
}

/// Lays the nodes of an order out in front of other steps, the last one first.
pub fn lay_nodes(
    nodes: &[Node],
    order: &[NodeId],
    layout: &Layout,
    mark: u32,
    first: &mut Vec<Step>,
    steps: &mut VecDeque<Step>,
) -> Result<(), NoMemory>
    requires in_range { All (λ k. k < length nodes.now) order.now }
    requires none { first.old.items ≡ [] }
    ensures none { OnOk result (first.new.items ≡ []) }
    ensures steps { OnOk result (steps.new.items ≡ nodes_code (plan_of layout.now) (in_order (map node_of nodes.now) order.now) mark ++ steps.old.items) }
{
    let mut left = order.len();
    'nodes: while left > 0 {
        left -= 1;
        let place = order[left].index();
        lay_node(&nodes[place], layout, mark, first, steps)?;
    }
    Ok(())
}
