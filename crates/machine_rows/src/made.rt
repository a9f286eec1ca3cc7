// What the words of a row have made.
use std::alloc::Global;
use typed_ir::{Arm, InstanceName, Node, Signal, SignalId, Stmt, Typed};

/// What the words of a row have made so far: expressions, statements and arms that no word has taken yet, the parts of a design, and
/// after how many cycles its registers are read.
#[derive(Drop)]
pub struct Made {
    pub expressions: Vec<Typed>,
    pub statements: Vec<Stmt>,
    pub arms: Vec<Arm>,
    pub instances: Vec<InstanceName>,
    pub signals: Vec<Signal>,
    pub registers: Vec<SignalId>,
    pub inputs: Vec<SignalId>,
    pub nodes: Vec<Node>,
    pub clocked: Vec<Stmt>,
    pub cycles: Vec<u64>,
}

impl Made {
    /// Nothing yet.
    pub fn new(alloc: Global) -> Made {
        Made {
            expressions: Vec::new(alloc),
            statements: Vec::new(alloc),
            arms: Vec::new(alloc),
            instances: Vec::new(alloc),
            signals: Vec::new(alloc),
            registers: Vec::new(alloc),
            inputs: Vec::new(alloc),
            nodes: Vec::new(alloc),
            clocked: Vec::new(alloc),
            cycles: Vec::new(alloc),
        }
    }
}
