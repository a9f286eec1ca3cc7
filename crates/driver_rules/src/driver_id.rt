// What drives or writes a bit.
use crate::clocked_id::ClockedId;
use typed_ir::NodeId;

/// What drives or writes a bit of a module: one of its nodes, or one of its clocked blocks, by the number among these in item order.
#[derive(Clone, Copy, Debug, PartialEq, Eq)]
pub enum DriverId {
    Node(NodeId),
    Clocked(ClockedId),
}
