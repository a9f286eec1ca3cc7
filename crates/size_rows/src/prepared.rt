// An expression of a row, with the names that it speaks of.
use ls_text::{Names, NoMemory, Refusal};
use row_operands::operands;
use row_tables::tokens_of;
use std::alloc::Global;
use typed_ir::Env;
use verilog_ast::Expr;
use verilog_expr::parse_expr;
use width_rules::Scope;

/// The expression that a text is, the table of its names, those in reach, and their values.
#[derive(Drop)]
pub struct Prepared {
    pub expression: Expr,
    pub names: Names,
    pub scope: Scope,
    pub env: Env,
}

// The expression that a text is; none where it isn't one.
fn expression_of(alloc: Global, names: &mut Names, text: &[u8]) -> Result<Option<Expr>, NoMemory> {
    let Some(tokens) = tokens_of(alloc, names, text)? else {
        return Ok(None);
    };
    match parse_expr(alloc, &tokens, 0, 0) {
        Ok(parsed) => Ok(if parsed.next.saturating_add(1) == tokens.len() {
            Some(parsed.expr)
        } else {
            None
        }),
        Err(Refusal::NoMemory) => Err(NoMemory),
        Err(Refusal::Fault(_fault)) => Ok(None),
    }
}

impl Prepared {
    /// What a text is, over the operands of rows; none where it is no expression.
    pub fn of(alloc: Global, text: &[u8]) -> Result<Option<Prepared>, NoMemory> {
        let mut names = Names::new(alloc);
        let Some(expression) = expression_of(alloc, &mut names, text)? else {
            return Ok(None);
        };
        let (scope, env) = operands(alloc, &mut names)?;
        Ok(Some(Prepared {
            expression,
            names,
            scope,
            env,
        }))
    }
}
