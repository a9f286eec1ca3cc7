// One expression of a list of tokens, or the first fault.
ghost use Rattle.std.specs.Prelude.{◌<◌, drop, length, IfOk, IfErr};
ghost use Rattle.verilog_lex.specs.Ends.{EndsOnce};
ghost use Rattle.verilog_expr.specs.Expressions.{BeginsWithExpression, StandsFrom, expression};
ghost use Rattle.verilog_expr.specs.Shown.{IsMemoryOrHeavy, Refuses};

use crate::error::ParseError;
use crate::parsed_expr::ParsedExpr;
use crate::parser::Parser;
use crate::showing::shown;
use ls_text::Refusal;
use std::alloc::Global;
use verilog_lex::Token;

/// The longest expression that begins at token `from`, where `weight` operators, brackets, branches, statements and
/// generate blocks are open there.
///
/// It ends before the first token that can't go on with it. At a dot behind a name or a select no text of the grammar goes
/// on, so the dot is refused, and no expression ends there.
///
/// Faults: 15 Syntax or 38 NotInProfile at the first token where the grammar has no rule, 16 NestedTooDeep at the first
/// token at which more than 256 are open; the earlier.
pub fn parse_expr(
    alloc: Global,
    tokens: &[Token],
    from: usize,
    weight: u32,
) -> Result<ParsedExpr, Refusal>
    requires ends { EndsOnce tokens.now }
    requires inside { from < length tokens.now }
    ensures tree { IfOk result (λ x. StandsFrom tokens.now from weight x) }
    ensures fault { IfErr result (Refuses (expression weight) (drop from tokens.now)) }

    // What is an expression is read, unless memory runs out or too much is open at a token.
    ensures only { BeginsWithExpression (drop from tokens.now) → IfErr result IsMemoryOrHeavy }
{
    let (_, here) = tokens.split_at(from);
    let mut p = Parser::new(alloc, here);
    match p.expression_at(weight) {
        Ok(expr) => {
            let next = tokens.len() - p.rest().len();
            Ok(ParsedExpr { expr, next })
        }
        Err(ParseError::NoMemory) => Err(Refusal::NoMemory),
        Err(ParseError::Fault(fault)) => match shown(alloc, here, fault) {
            Ok(fault) => Err(Refusal::Fault(fault)),
            Err(_) => Err(Refusal::NoMemory),
        },
    }
}
