// The left sides of assignments.
#![tactic(auto, using(verilog_expr::proofs::Runs::runs, verilog_expr::proofs::Runs::loops, verilog_expr::proofs::Entries::entries, verilog_expr::proofs::Entries::statement_entries, crate::proofs::StatementTrees::statement_trees))]

ghost use Rattle.std.specs.Prelude.{◌≡◌, ◌≤◌, ◌<◌, ◌+◌, ◌^◌, [], ◌∷◌, length, OnOk, IfOk};
ghost use Rattle.verilog_expr.specs.Grammar as grammar;
ghost use Rattle.verilog_expr.specs.Grammar.{N};
ghost use Rattle.verilog_expr.specs.Reads.{Reads};
ghost use Rattle.verilog_stmt.specs.Statements as spells;
ghost use Rattle.verilog_stmt.specs.Statements.{Spells};

use verilog_ast::{Children, Lhs};
use verilog_expr::{ParseError, Parser, identifier};
use verilog_lex::Kind;

/// A target: a name with its select, or a concatenation of targets.
#[cycle(target)]
pub fn target(p: &mut Parser<'_>, weight: u32) -> Result<Lhs, ParseError>
    requires { weight < 2 ^ 30 }
    ensures machine { Reads (N grammar.ATarget weight ∷ []) p.old result p.new }
    ensures tree { IfOk result (λ x. Spells (spells.ATarget x) p.old p.new) }
    ensures shorter { OnOk result (length p.new < length p.old) }
{
    match p.peek() {
        Kind::Word => {
            let name = identifier(p.expect(Kind::Word, weight)?);
            Ok(Lhs::Reference(p.select(name, weight)?))
        }
        Kind::LeftBrace => {
            let at = p.expect(Kind::LeftBrace, weight)?.at;
            Ok(Lhs::Concatenation(at, braces(p, weight + 1)?))
        }
        _ => Err(p.stuck()),
    }
}

/// The targets of a concatenation, after its brace.
#[cycle(target)]
pub fn braces(p: &mut Parser<'_>, weight: u32) -> Result<Children<Lhs>, ParseError>
    requires { weight < 2 ^ 30 }
    ensures machine { Reads (N grammar.Braces weight ∷ []) p.old result p.new }
    ensures tree { IfOk result (λ xs. Spells (spells.Braces xs) p.old p.new) }
    ensures shorter { OnOk result (length p.new < length p.old) }
{
    let first = target(p, weight)?;
    let all = more_targets(p, first, weight)?;
    p.expect(Kind::RightBrace, weight)?;
    Ok(all)
}

// Further targets, each after a comma, behind the first.
#[cycle(target)]
fn more_targets(p: &mut Parser<'_>, first: Lhs, weight: u32) -> Result<Children<Lhs>, ParseError>
    requires { weight < 2 ^ 30 }
    ensures machine { Reads (N grammar.MoreTargets weight ∷ []) p.old result p.new }
    ensures tree { IfOk result (λ xs. Spells (spells.TargetsBehind first xs) p.old p.new) }
    ensures shorter { OnOk result (length p.new ≤ length p.old) }
{
    let mut all = Children::new(p.alloc());
    all.push(first)?;
    'items: while p.sees(Kind::Comma) {
        p.expect(Kind::Comma, weight)?;
        all.push(target(p, weight)?)?;
    }
    Ok(all)
}
