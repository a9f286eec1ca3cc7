// Names within their blocks.
use gen_unroll::BlockId;
use ls_text::NameId;

/// A name, and the block that declares it; none for the module itself.
#[derive(Clone, Copy, PartialEq, Eq, Hash)]
pub struct DeclaredName {
    pub block: Option<BlockId>,
    pub name: NameId,
}
