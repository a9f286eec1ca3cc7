// A list of nodes by their numbers.
ghost use Rattle.std.specs.Prelude.{◌≡◌};

use crate::node_id::NodeId;
use std::marker::Model;

/// A list of nodes by their numbers. Contracts see it as the list of these.
#[derive(Debug, Drop)]
pub struct NodeList {
    nodes: Vec<NodeId>,
}

impl Model for NodeList {
    ghost use Rattle.std.specs.Prelude.{ℕ, List};

    ghost Value = { List ℕ };

    ghost view = { λ l. l.nodes.items };
}

impl NodeList {
    /// The list of these nodes. It takes no memory.
    pub fn new(nodes: Vec<NodeId>) -> Self
        ensures { result ≡ nodes.items }
    {
        NodeList { nodes }
    }

    /// The numbers of the nodes.
    pub fn nodes(&self) -> &[NodeId]
        ensures { result.now ≡ self.now }
    {
        &self.nodes
    }
}
