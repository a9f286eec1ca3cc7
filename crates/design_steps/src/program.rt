// A design as steps over words.
use crate::layout::Layout;
use word_steps::Step;

/// What a design does in a cycle, as steps over words, and where its signals stand among them.
#[derive(Drop)]
pub struct Program {
    pub layout: Layout,
    /// Where each place of the layout is moved to: registers stand side by side, and so do their next values.
    pub places: Vec<u32>,
    /// The steps of the nodes, in their order: they settle the wires.
    pub settling: Vec<Step>,
    /// The steps of the clocked blocks: they write the next values.
    pub clocking: Vec<Step>,
    /// The words before anything is loaded: constants at their places, and all else 0.
    pub beginning: Vec<u128>,
}
