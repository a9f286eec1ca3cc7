// The numbers that the next node and the next clocked block have.

/// How many nodes and clocked blocks there were so far.
#[derive(Clone, Copy, Debug, PartialEq, Eq)]
pub struct Numbers {
    pub nodes: u32,
    pub blocks: u32,
}
