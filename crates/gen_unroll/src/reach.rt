// The names in reach at a step.
use crate::block_id::BlockId;
use std::collections::VecDeque;
use width_rules::Scope;

/// The names in reach at a step of an unrolled module, and the blocks that are open there, the innermost first.
#[derive(Drop)]
pub struct Reach {
    pub scope: Scope,
    pub blocks: VecDeque<BlockId>,
}
