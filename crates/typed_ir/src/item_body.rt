// Sized items of a module.
use crate::signal_id::SignalId;
use crate::stmt::Stmt;
use crate::unit_node::UnitNode;

/// A sized item of a module.
#[derive(Drop)]
pub enum ItemBody {
    /// A continuous assignment, a combinational block, or a connection of an instance.
    Node(UnitNode),
    /// A clocked block.
    Clocked(Stmt),
    /// The declaration of a variable with an initial value.
    Initial(SignalId),
}
