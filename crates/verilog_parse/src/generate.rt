// Items of generate blocks, by recursive descent: a chain of `else if` is a loop.
#![tactic(auto, using(verilog_expr::proofs::Runs::runs, verilog_expr::proofs::Runs::loops, verilog_expr::proofs::Entries::module_entries, crate::proofs::ModuleTrees::generate_trees))]

ghost use Rattle.std.specs.Prelude.{◌≡◌, ◌≤◌, ◌<◌, ◌+◌, ◌^◌, [], ◌∷◌, length, OnOk, IfOk, MatchBool, true, false};
ghost use Rattle.verilog_expr.specs.Tokens.{next};
ghost use Rattle.verilog_expr.specs.Grammar as grammar;
ghost use Rattle.verilog_expr.specs.Grammar.{N, begins_generate_item};
ghost use Rattle.verilog_expr.specs.Reads.{Reads};
ghost use Rattle.verilog_parse.specs.Generates as spells;
ghost use Rattle.verilog_parse.specs.Generates.{Spells};

use crate::items::plain_item;
use ls_text::Place;
use verilog_ast::{Branch, Child, Children, GenerateItem, Identifier, Loop};
use verilog_decl::parameter;
use verilog_expr::{ParseError, Parser, identifier};
use verilog_lex::Kind;

fn at_generate_item(p: &Parser<'_>) -> bool
    ensures { MatchBool result (begins_generate_item (next p.now) ≡ true) (begins_generate_item (next p.now) ≡ false) }
{
    matches!(
        p.peek(),
        Kind::Wire
            | Kind::Reg
            | Kind::LocalParam
            | Kind::Genvar
            | Kind::Assign
            | Kind::Always
            | Kind::Word
            | Kind::For
            | Kind::If
    )
}

/// Items up to what begins none.
#[cycle(generate)]
pub fn generate_items(p: &mut Parser<'_>, weight: u32) -> Result<Children<GenerateItem>, ParseError>
    requires { weight < 2 ^ 29 }
    ensures machine { Reads (N grammar.GenerateItems weight ∷ []) p.old result p.new }
    ensures tree { IfOk result (λ xs. Spells (spells.GenerateItems xs) p.old p.new) }
    ensures shorter { OnOk result (length p.new ≤ length p.old) }
{
    let mut all = Children::new(p.alloc());
    'items: while at_generate_item(p) {
        all.push(generate_item(p, weight)?)?;
    }
    Ok(all)
}

/// An item that may stand in a generate block.
#[cycle(generate)]
pub fn generate_item(p: &mut Parser<'_>, weight: u32) -> Result<GenerateItem, ParseError>
    requires { weight < 2 ^ 29 }
    ensures machine { Reads (N grammar.AGenerateItem weight ∷ []) p.old result p.new }
    ensures tree { IfOk result (λ x. Spells (spells.AGenerateItem x) p.old p.new) }
    ensures shorter { OnOk result (length p.new < length p.old) }
{
    if p.sees(Kind::For) {
        return generate_loop(p, weight);
    }
    if p.sees(Kind::If) {
        let first = branch(p, weight)?;
        let all = other_branches(p, first, weight)?;
        return Ok(GenerateItem::If(all));
    }
    let item = plain_item(p, weight)?;
    Ok(GenerateItem::Plain(item))
}

// A generate loop.
#[cycle(generate)]
fn generate_loop(p: &mut Parser<'_>, weight: u32) -> Result<GenerateItem, ParseError>
    requires { weight < 2 ^ 29 }
    ensures machine { Reads (N grammar.ALoop weight ∷ []) p.old result p.new }
    ensures tree { IfOk result (λ x. Spells (spells.ALoop x) p.old p.new) }
    ensures shorter { OnOk result (length p.new < length p.old) }
{
    let at = p.expect(Kind::For, weight)?.at;
    p.expect(Kind::LeftParen, weight)?;
    let head = loop_head(p, weight + 1)?;
    p.expect(Kind::RightParen, weight + 1)?;
    let (_, label, items) = block(p, weight)?;
    Ok(GenerateItem::For(at, head, label, items))
}

// The start, the condition and the step of a generate loop.
fn loop_head(p: &mut Parser<'_>, weight: u32) -> Result<Loop, ParseError>
    requires { weight < 2 ^ 30 }
    ensures machine { Reads (N grammar.ALoopHead weight ∷ []) p.old result p.new }
    ensures tree { IfOk result (λ x. Spells (spells.ALoopHead x) p.old p.new) }
    ensures shorter { OnOk result (length p.new < length p.old) }
{
    let start = parameter(p, weight)?;
    p.expect(Kind::Semicolon, weight)?;
    let condition = Child::new(p.alloc(), p.expression(weight)?)?;
    p.expect(Kind::Semicolon, weight)?;
    let step = parameter(p, weight)?;
    Ok(Loop {
        start,
        condition,
        step,
    })
}

// A labelled block: the place of its `begin`, its label and its items.
#[cycle(generate)]
fn block(
    p: &mut Parser<'_>,
    weight: u32,
) -> Result<(Place, Identifier, Children<GenerateItem>), ParseError>
    requires { weight < 2 ^ 29 }
    ensures machine { Reads (N grammar.ABlock weight ∷ []) p.old result p.new }
    ensures tree { IfOk result (λ x. Spells (spells.ABlock x.0 x.1 x.2) p.old p.new) }
    ensures shorter { OnOk result (length p.new < length p.old) }
{
    let at = p.expect(Kind::Begin, weight)?.at;
    p.expect(Kind::Colon, weight + 1)?;
    let label = identifier(p.expect(Kind::Word, weight + 1)?);
    let items = generate_items(p, weight + 1)?;
    p.expect(Kind::BlockEnd, weight + 1)?;
    Ok((at, label, items))
}

// A condition and its block.
#[cycle(generate)]
fn branch(p: &mut Parser<'_>, weight: u32) -> Result<Branch, ParseError>
    requires { weight < 2 ^ 29 }
    ensures machine { Reads (N grammar.ABranch weight ∷ []) p.old result p.new }
    ensures tree { IfOk result (λ x. Spells (spells.ABranch x) p.old p.new) }
    ensures shorter { OnOk result (length p.new < length p.old) }
{
    let at = p.expect(Kind::If, weight)?.at;
    p.expect(Kind::LeftParen, weight)?;
    let condition = Child::new(p.alloc(), p.expression(weight + 1)?)?;
    p.expect(Kind::RightParen, weight + 1)?;
    let (_, label, items) = block(p, weight)?;
    Ok(Branch {
        at,
        condition: Some(condition),
        label,
        items,
    })
}

// The block of an `else` without a condition.
#[cycle(generate)]
fn otherwise(p: &mut Parser<'_>, weight: u32) -> Result<Branch, ParseError>
    requires { weight < 2 ^ 29 }
    ensures machine { Reads (N grammar.AnOtherwise weight ∷ []) p.old result p.new }
    ensures tree { IfOk result (λ x. Spells (spells.AnOtherwise x) p.old p.new) }
    ensures shorter { OnOk result (length p.new < length p.old) }
{
    let (at, label, items) = block(p, weight)?;
    Ok(Branch {
        at,
        condition: None,
        label,
        items,
    })
}

// Further branches, each after an `else`, behind the first; one without a condition is the last.
#[cycle(generate)]
fn other_branches(
    p: &mut Parser<'_>,
    first: Branch,
    weight: u32,
) -> Result<Children<Branch>, ParseError>
    requires { weight < 2 ^ 29 }
    ensures machine { Reads (N grammar.OtherBranches weight ∷ []) p.old result p.new }
    ensures tree { IfOk result (λ xs. Spells (spells.BranchesBehind first xs) p.old p.new) }
    ensures shorter { OnOk result (length p.new ≤ length p.old) }
{
    let mut all = Children::new(p.alloc());
    all.push(first)?;
    'items: while p.sees(Kind::Else) {
        p.expect(Kind::Else, weight)?;
        if !p.sees(Kind::If) {
            all.push(otherwise(p, weight)?)?;
            return Ok(all);
        }
        all.push(branch(p, weight)?)?;
    }
    Ok(all)
}
