// What a block mentions.
use typed_ir::Mention;

/// What the targets and the reads of a block mention, each in the order of the sized block, with their numbers in the order of the text.
#[derive(Drop)]
pub struct BlockMentions {
    pub targets: Vec<Mention>,
    pub reads: Vec<Mention>,
}
