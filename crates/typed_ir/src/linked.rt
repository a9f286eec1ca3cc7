// Flat designs whose nodes are in order.
ghost use Rattle.std.specs.Prelude.{◌<◌, All, length};
ghost use Rattle.typed_ir.specs.Nodes.{IsOrder};
ghost use Rattle.typed_ir.specs.Linkeds.{flat};

use crate::flat::Flat;
use crate::node_id::NodeId;

/// A flat design with an order of its nodes: each once, after those that drive a bit that it reads.
#[derive(Drop)]
pub struct Linked {
    pub design: Flat,
    pub order: Vec<NodeId>,
    ghost in_range: { All (λ k. k < length design.nodes.items) order.items },
    ghost in_order: { ∥ IsOrder (flat design).nodes order.items ∥₁ },
}
