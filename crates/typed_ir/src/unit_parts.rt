// What a unit is made of.
use crate::shape_list::ShapeList;
use crate::signal_id::SignalId;
use crate::stmt::Stmt;
use crate::unit_node::UnitNode;
use crate::unit_signal::UnitSignal;

/// The parts of a module by its own numbers of signals, its ports first, in header order.
#[derive(Drop)]
pub struct UnitParts {
    pub signals: Vec<UnitSignal>,
    /// The signals that are registers, in order.
    pub registers: Vec<SignalId>,
    /// The data inputs.
    pub inputs: Vec<SignalId>,
    /// The nodes, in item order.
    pub nodes: Vec<UnitNode>,
    /// The clocked blocks.
    pub clocked: Vec<Stmt>,
    /// The instances, in item order.
    pub shapes: ShapeList,
}
