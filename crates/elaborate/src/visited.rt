// What the visit of a module finds.
use crate::checking::Checking;
use gen_unroll::Block;
use ls_text::NameId;
use typed_ir::PortShape;

/// What the visit of a module finds: the names that it declares, its instances, the clock port of each of these, the blocks of its
/// generate constructs, and its ports in the order of the header.
#[derive(Drop)]
pub struct Visited {
    pub checks: Checking,
    pub clocks: Vec<Option<NameId>>,
    pub blocks: Vec<Block>,
    pub ports: Vec<PortShape>,
}
