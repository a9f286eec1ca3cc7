// What units give where they stand.
use typed_ir::{Node, Signal, SignalId, Stmt};

/// The signals, registers, nodes and clocked blocks of instances, by the numbers of the design.
#[derive(Drop)]
pub struct Copies {
    pub signals: Vec<Signal>,
    pub registers: Vec<SignalId>,
    pub nodes: Vec<Node>,
    pub clocked: Vec<Stmt>,
}
