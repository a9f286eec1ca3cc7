// Nets and variables of a module.
use crate::bit_range::BitRange;
use crate::block_id::BlockId;
use typed_ir::SignalKind;
use verilog_ast::{Identifier, PortNet};

/// A net or variable of a module: the block that declares it (none for the module itself), its name, what it is, its range where it has
/// one, its sign, whether it is declared as a port, by which word it is a net or variable, and how many were declared before it.
#[derive(Clone, Copy, Debug)]
pub struct NamedSignal {
    pub block: Option<BlockId>,
    pub name: Identifier,
    pub kind: SignalKind,
    pub range: Option<BitRange>,
    pub signed: bool,
    pub port: bool,
    pub net: PortNet,
    pub order: u32,
}
