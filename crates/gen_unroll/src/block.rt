// Blocks of generate constructs.
use crate::block_id::BlockId;
use crate::turn::Turn;
use verilog_ast::Identifier;

/// A block of a loop's turn or of a branch that is taken: its number, the block around it (none within the module itself), its label,
/// and for a loop the turn.
#[derive(Clone, Copy, Debug)]
pub struct Block {
    pub number: BlockId,
    pub parent: Option<BlockId>,
    pub label: Identifier,
    pub turn: Option<Turn>,
}
