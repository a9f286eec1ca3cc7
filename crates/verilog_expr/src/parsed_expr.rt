// An expression that was read from a list of tokens.
use verilog_ast::Expr;

/// An expression, and the number of the first token behind it.
#[derive(Drop)]
pub struct ParsedExpr {
    pub expr: Expr,
    pub next: usize,
}
