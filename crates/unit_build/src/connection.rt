// A connection with its port.
use typed_ir::PortShape;
use verilog_ast::Expr;

/// A connection of an instance: the number of its port in header order, the port, and the expression that is connected to it.
#[derive(Drop)]
pub struct Connection<'a> {
    pub port: u32,
    pub shape: PortShape,
    pub value: &'a Expr,
}
