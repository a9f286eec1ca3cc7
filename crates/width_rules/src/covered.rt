// What declarations in a block cover.
use crate::entry::Entry;
use ls_text::NameId;

/// What a declaration in a block covers, or where a block begins.
#[derive(Clone, Copy, Debug)]
pub enum Covered {
    /// The beginning of a block.
    Block,
    /// A name that is declared in the block, and what it stood for before.
    Name(NameId, Entry),
}
