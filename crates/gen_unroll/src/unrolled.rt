// Unrolled modules.
use crate::block::Block;
use crate::step::Step;
use ls_text::Fault;

/// A module, unrolled: its steps, the blocks that they open, by their numbers, and its first fault, behind which there are no steps.
#[derive(Drop)]
pub struct Unrolled<'a> {
    pub steps: Vec<Step<'a>>,
    pub blocks: Vec<Block>,
    pub fault: Option<Fault>,
}
