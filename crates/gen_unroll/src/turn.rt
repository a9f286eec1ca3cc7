// Turns of generate loops.
use typed_ir::Const;
use verilog_ast::Identifier;

/// A turn of a loop: its genvar, and what this holds in the turn, 32 bits and signed (IEEE Std 1364-2005, 12.4.1).
#[derive(Clone, Copy, Debug)]
pub struct Turn {
    pub genvar: Identifier,
    pub value: Const,
}
